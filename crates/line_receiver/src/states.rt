// States: whether one lies within its ranges, and one with nothing held.
ghost use Rattle.std.specs.Prelude.{◌≡◌};
ghost use Rattle.line_receiver.specs.States.{in_range, emptied as emptied_state};

use crate::{Phase, Receiver};

pub fn in_range(r: Receiver) -> bool
    ensures { result ≡ in_range r }
{
    line_phases::in_range(r.number, r.count, r.phase)
}

pub(crate) fn emptied(number: u8, phase: Phase) -> Receiver
    ensures { result ≡ emptied_state number phase }
{
    Receiver {
        held: [0; 17],
        count: 0,
        number,
        phase,
    }
}
