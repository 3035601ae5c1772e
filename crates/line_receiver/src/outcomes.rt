// What a call hands back where nothing is judged or asked: no value, one, or a broken state; and the number of what any
// call answers.
ghost use Rattle.std.specs.Prelude.{◌≡◌};
ghost use Rattle.line_codes.specs.Codes.{plainly};
ghost use Rattle.line_receiver.specs.Calls.{answer_number as numbered, silent as silently, refused, passing};

use crate::{Broken, Receiver, Stepped};
use few::Few;

// The paper's number of an answer.
pub fn answer_number(answer: Result<(), Broken>) -> u8
    ensures { result ≡ numbered answer }
{
    match answer {
        Ok(()) => 0,
        Err(Broken) => 5,
    }
}

// Nothing goes out.
pub fn silent(next: Receiver) -> Stepped
    ensures { result ≡ silently next }
{
    Stepped {
        next,
        answer: Ok(()),
        values: Few::none(),
        request: Few::none(),
        judged: None,
    }
}

// A broken state is handed back, and nothing goes out.
pub(crate) fn refuse(broken: Receiver) -> Stepped
    ensures { result ≡ refused broken }
{
    Stepped {
        answer: Err(Broken),
        ..silent(broken)
    }
}

// Off: the byte passes by itself.
pub(crate) fn pass(next: Receiver, byte: u8) -> Stepped
    ensures { result ≡ passing next (plainly byte) }
{
    Stepped {
        values: Few::of(&[line_codes::plain(byte)]),
        ..silent(next)
    }
}
