// The request for the block awaited, when it is refused and when the host asks again.
ghost use Rattle.std.specs.Prelude.{◌≡◌, Ok, []};
ghost use Rattle.line_codes.specs.Codes.{request as request_for};
ghost use Rattle.line_receiver.specs.Calls.{giving, asking};

use crate::outcomes::silent;
use crate::{Receiver, Stepped};
use block_reader::Verdict;
use few::Few;

pub(crate) fn ask(next: Receiver, judged: Option<Verdict>) -> Stepped
    ensures { result ≡ giving (Ok tt) next [] (request_for next.number) judged }
{
    Stepped {
        request: Few::of(&line_codes::request(next.number)),
        judged,
        ..silent(next)
    }
}

// The same request once more; the state stays.
pub(crate) fn again(waiting: Receiver) -> Stepped
    ensures { result ≡ asking waiting }
{
    ask(waiting, None)
}
