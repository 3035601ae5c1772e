// A note on a byte: what it was to the receiver. It is a byte and no enum, since `board_pieces::lines_noted` promises the
// notes as numbers, one in each byte's place.
ghost use Rattle.std.specs.Prelude.{◌≡◌};
ghost use Rattle.line_turns.specs.Notes.{verdict_note, wait_note, silent_note, note_on};

use block_reader::Verdict;
use line_receiver::{Phase, Stepped};

// On the seventeenth byte of a block: the verdict. A bit is below 128, so that nothing is lost.
fn verdict_note(verdict: Verdict) -> u8
    ensures { result ≡ verdict_note verdict }
{
    match verdict {
        Verdict::Clean => 1,
        Verdict::Mended(bit) => 128 + bit % 128,
        Verdict::Repeat | Verdict::WrongLength => 2,
    }
}

// On a byte heard while waiting, by the phase behind it.
fn wait_note(after: Phase) -> u8
    ensures { result ≡ wait_note after }
{
    match after {
        Phase::Off | Phase::Collecting => 4,
        Phase::Waiting(_) => 3,
    }
}

// On a byte at which nothing is judged.
fn silent_note(before: Phase, after: Phase) -> u8
    ensures { result ≡ silent_note before after }
{
    match before {
        Phase::Off | Phase::Collecting => 0,
        Phase::Waiting(_) => wait_note(after),
    }
}

// On a byte heard in this phase, by what came of it.
pub(crate) fn note_on(before: Phase, stepped: Stepped) -> u8
    ensures { result ≡ note_on before stepped }
{
    match stepped.judged {
        None => silent_note(before, stepped.next.phase),
        Some(verdict) => verdict_note(verdict),
    }
}
