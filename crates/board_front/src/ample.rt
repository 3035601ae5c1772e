// Whether the outputs are so long that any bytes fit, as a program's own are: then the piece is not heard for that.
ghost use Rattle.std.specs.Prelude.{◌≡◌, true, ◌+◌, ◌*◌, ◌≤◌};
ghost use Rattle.board_front.specs.Ample.{Ample};

use crate::Room;

// Whether an output has five places for each of n values and sixteen more.
fn is_long(n: usize, room: usize) -> bool
    ensures { result ≡ true → 5 * (n + 16) ≤ «room» }
{
    let most = room / 5;
    16 <= most && n <= most - 16
}

// Whether any n bytes fit.
pub(crate) fn is_ample(n: usize, room: Room) -> bool
    ensures { result ≡ true → Ample n «room» }
{
    is_long(n, room.keyboard)
        && is_long(n, room.modem)
        && is_long(n, room.socket)
        && n <= room.requests / 2
}
