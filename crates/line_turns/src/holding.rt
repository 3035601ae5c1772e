// Bytes that are only held, in one go.
ghost use Rattle.std.specs.Prelude.{◌≡◌, ◌+◌, ◌≤◌, length};
ghost use Rattle.line_turns.specs.Turns.{holds_more, filled, held_of};

use line_receiver::{Phase, Receiver};

// A receiver behind bytes that it only held, and how many they are.
#[derive(Clone, Copy)]
pub(crate) struct Held {
    pub(crate) receiver: Receiver,
    pub(crate) count: usize,
}

// Whether the next byte is only held.
fn is_holding(r: Receiver) -> bool
    ensures { result ≡ holds_more r }
{
    matches!(r.phase, Phase::Collecting)
        && line_receiver::in_range(r)
        && line_phases::awaits_more(r.count)
}

// These bytes behind those held.
fn fill(r: Receiver, bytes: &[u8]) -> Receiver
    requires { r.count + length bytes.now ≤ 16 }
    ensures { result ≡ filled r bytes.now (length bytes.now) }
{
    let mut next = r;
    let count = r.count + bytes.len();
    next.held[r.count..count].copy_from_slice(bytes);
    next.count = count;
    next
}

// The first bytes, as many as are only held. Where a stretch begins and its first sixteen bytes are there, their number
// and their place are no variables, so that the compiler need not loop over them.
pub(crate) fn hold(r: Receiver, bytes: &[u8]) -> Held
    ensures { result ≡ held_of r bytes.now }
{
    if !is_holding(r) {
        return Held {
            receiver: r,
            count: 0,
        };
    }
    if r.count == 0 && 16 <= bytes.len() {
        return Held {
            receiver: fill(r, &bytes[..16]),
            count: 16,
        };
    }
    let count = bytes.len().min(16 - r.count);
    Held {
        receiver: fill(r, &bytes[..count]),
        count,
    }
}
