// What a byte does while the receiver is on.
ghost use Rattle.std.specs.Prelude.{◌≡◌};
ghost use Rattle.line_receiver.specs.Calls.{accepts as accepts_as, judged_held, collecting, listening};

use crate::outcomes::silent;
use crate::requests::ask;
use crate::states::emptied;
use crate::{Phase, Receiver, Stepped};
use block_reader::Verdict;
use few::Few;
use line_codes::Listened;

// Whether a block is accepted: clean or mended.
fn accepts(verdict: Verdict) -> bool
    ensures { result ≡ accepts_as verdict }
{
    matches!(verdict, Verdict::Clean | Verdict::Mended(_))
}

// The seventeenth byte: the block is judged where it lies in a copy of what is held. Accepted, its values pass, and the
// next one is awaited; refused, it is asked for, and awaited.
fn judge_held(r: Receiver, byte: u8) -> Stepped
    ensures { result ≡ judged_held r byte }
{
    let mut arrived = r.held;
    arrived[16] = byte;
    let verdict = block_reader::mend(&mut arrived[..]);
    let after = line_codes::next_number(r.number);
    if accepts(verdict) {
        let values = block_maker::values(arrived);
        Stepped {
            values: Few::of(&values),
            judged: Some(verdict),
            ..silent(emptied(after, Phase::Collecting))
        }
    } else {
        ask(emptied(r.number, Phase::Waiting(0)), Some(verdict))
    }
}

// Collecting: the byte is held, or it is the seventeenth.
pub(crate) fn collect(r: Receiver, byte: u8) -> Stepped
    ensures { result ≡ collecting r byte }
{
    if line_phases::awaits_more(r.count) {
        let mut next = r;
        next.held[r.count] = byte;
        next.count += 1;
        silent(next)
    } else {
        judge_held(r, byte)
    }
}

// Waiting: what listening to the byte made of it.
pub(crate) fn hear(r: Receiver, heard: Listened) -> Receiver
    ensures { result ≡ listening heard r }
{
    match heard {
        Listened::Seen(n) => Receiver {
            phase: Phase::Waiting(n),
            ..r
        },
        Listened::Resumed => emptied(r.number, Phase::Collecting),
    }
}
