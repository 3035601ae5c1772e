// What a byte of the return line is: by itself, and behind a NACK that is held.
ghost use Rattle.std.specs.Prelude.{◌≡◌, Ok, []};
ghost use Rattle.line_sender.specs.Hearing.{holding, giving, heard_alone, heard_behind};

use crate::{Heard, Sender};
use few::Few;

// No value passes on, and no request is whole.
pub(crate) fn silent(sender: Sender) -> Heard
    ensures { result ≡ giving (Ok tt) sender [] [] }
{
    Heard {
        sender,
        answer: Ok(()),
        values: Few::none(),
        request: Few::none(),
    }
}

// Whether a NACK is held; all else stays.
fn hold(sender: Sender, nack: bool) -> Sender
    ensures { result ≡ holding sender nack }
{
    Sender { nack, ..sender }
}

// A NACK is held; any other byte passes on.
pub(crate) fn alone(sender: Sender, byte: u8) -> Heard
    ensures { result ≡ heard_alone sender [] byte }
{
    if byte == 149 {
        silent(hold(sender, true))
    } else {
        Heard {
            values: Few::of(&[line_codes::plain(byte)]),
            ..silent(hold(sender, false))
        }
    }
}

// The two are a request; or the NACK passes on as 1/5, and the byte is looked at by itself.
pub(crate) fn behind(sender: Sender, byte: u8) -> Heard
    ensures { result ≡ heard_behind sender byte }
{
    let named = line_codes::request(byte % 16);
    if byte == named[1] {
        Heard {
            request: Few::of(&[149, byte]),
            ..silent(hold(sender, false))
        }
    } else if byte == 149 {
        Heard {
            values: Few::of(&[21]),
            ..silent(hold(sender, true))
        }
    } else {
        Heard {
            values: Few::of(&[21, line_codes::plain(byte)]),
            ..silent(hold(sender, false))
        }
    }
}
