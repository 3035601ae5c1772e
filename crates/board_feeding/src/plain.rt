// Values that go along the links of the modem as they are.
ghost use Rattle.std.specs.Prelude.{◌≡◌, true};
ghost use Rattle.few.specs.Bytes.{contents};
ghost use Rattle.board_feeding.specs.Feeding.{fed};
ghost use Rattle.board_feeding.specs.Plain.{plain, all_plain, is_free, are_plain};

use crate::{Fed, Outlet};
use few::Few;
use links::Links;
use links_hearing::Unfinished;

// Whether it is a value, and not ESC.
fn is_plain_value(value: u8) -> bool
    ensures { result ≡ plain value }
{
    (value < 128) & (value != 27)
}

// Whether no value is ESC or above 127. All fifteen are looked at, so that their number is no variable and the compiler
// can look at many at once.
fn are_all_plain(values: [u8; 15]) -> bool
    ensures { result ≡ all_plain values }
{
    values
        .iter()
        .fold(true, |all, value| is_plain_value(*value) && all)
}

// Whether nothing is unfinished.
fn is_free(unfinished: Unfinished) -> bool
    ensures { result ≡ is_free unfinished }
{
    matches!(unfinished, Unfinished::Free)
}

// Whether the modem's values go to all that it reaches as they are, and leave the links as they were: these are in range
// with nothing unfinished from the modem, and no value is ESC or above 127.
#[tactic(auto, unfolding(crate::specs::Plain::are_plain))]
pub fn are_plain(links: Links, values: [u8; 15]) -> bool
    ensures { result ≡ are_plain links values }
{
    is_free(links.unfinished.modem) && links.in_range() && are_all_plain(values)
}

// Plain values, along the links of the modem.
#[tactic(auto, using(crate::proofs::Passed::fed_all))]
pub(crate) fn pass_all(links: Links, values: Few<15>) -> Fed
    requires { are_plain links values.codes ≡ true }
    ensures { result ≡ fed links (contents values) }
{
    let plain = Outlet::of(values.bytes());
    let shares = links.table.modem.either(plain, Outlet::none());
    Fed { links, shares }
}
