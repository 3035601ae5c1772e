// Whether there is room for what a piece yields: surely, by the lengths alone, or as hearing it for that alone shows.
ghost use Rattle.std.specs.Prelude.{◌≡◌};
ghost use Rattle.board_front.specs.Fitting.{within, needed, needs_of, left_over};

use crate::ample::is_ample;
use crate::{Front, Heard, Room, hear};

// The room that one byte takes.
fn needs(heard: Heard) -> Room
    ensures { result ≡ needs_of heard }
{
    Room {
        keyboard: heard.shares.keyboard.count,
        modem: heard.shares.modem.count,
        socket: heard.shares.socket.count,
        requests: heard.request.count,
    }
}

// What is left of the room behind a byte, where it suffices.
#[tactic(auto, unfolding(crate::specs::Fitting::left_over))]
fn spend(room: Room, need: Room) -> Option<Room>
    ensures { result ≡ left_over «room» need }
{
    Some(Room {
        keyboard: room.keyboard.checked_sub(need.keyboard)?,
        modem: room.modem.checked_sub(need.modem)?,
        socket: room.socket.checked_sub(need.socket)?,
        requests: room.requests.checked_sub(need.requests)?,
    })
}

// The piece is heard, byte by byte.
fn fits_as_heard(start: Front, piece: &[u8], room: Room) -> bool
    ensures { result ≡ within (needed start piece.now) «room» }
{
    let mut front = start;
    let mut left = room;
    for byte in piece {
        let heard = hear(front, *byte);
        let Some(rest) = spend(left, needs(heard)) else {
            return false;
        };
        left = rest;
        front = heard.front;
    }
    true
}

// Whether there is room for all that the piece yields. It gives no number: a broken receiver hears nothing, so that any
// room will do, and broken links yield nothing, so that only the receiver's requests need room.
pub fn fits(start: Front, piece: &[u8], room: Room) -> bool
    ensures { result ≡ within (needed «start» piece.now) «room» }
{
    (start.receiver.count <= 16 && is_ample(piece.len(), room)) || fits_as_heard(start, piece, room)
}
