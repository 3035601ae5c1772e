// Values handed to the links one after the other, and what each module gets of them altogether (01, "Links and
// commands").
//
// One line byte lets the receiver pass on up to fifteen values, and each sends at most five bytes to any module: so
// seventy-five places always suffice for what a module gets. specs/Feeding says what that is; proofs/Suffices shows
// that the places suffice. Most values are plain characters, which go along the links of the modem as they are: where all
// are (plain.rt), the links are not asked for each (proofs/Passed).
#![tactic(auto)]

ghost use Rattle.std.specs.Prelude.{◌≡◌, ◌≤◌};
ghost use Rattle.few.specs.Bytes.{contents};
ghost use Rattle.links_sending.specs.Sending.{gets};
ghost use Rattle.board_feeding.specs.Feeding.{appended, shares_of, gathered, nobody, fed, Enough};

mod plain;

use few::Few;
use links::Links;
use links_sending::Sent;
use links_wiring::Each;
pub use plain::are_plain;
use plain::pass_all;

// What one module gets.
pub type Outlet = Few<75>;

// What each module gets.
pub type Shares = Each<Outlet>;

// The links after some values, and what each module got of them.
#[derive(Clone, Copy)]
pub struct Fed {
    pub links: Links,
    pub shares: Shares,
}

// Bytes behind those that an outlet has.
fn append(outlet: Outlet, bytes: Few<5>) -> Outlet
    requires { outlet.count ≤ 70 }
    ensures { result ≡ appended «outlet» bytes }
{
    let more = bytes.bytes();
    let at = outlet.count;
    let count = at + more.len();
    let mut codes = outlet.codes;
    codes[at..count].copy_from_slice(more);
    Outlet { codes, count }
}

// What was sent behind what each module has.
fn gather(shares: Shares, sent: Sent) -> Shares
    requires inner { (shares.screen.count ≤ 70) × (shares.keyboard.count ≤ 70) }
    requires outer { (shares.modem.count ≤ 70) × (shares.socket.count ≤ 70) }
    ensures { result ≡ gathered shares sent }
{
    Shares {
        screen: append(shares.screen, sent.screen),
        keyboard: append(shares.keyboard, sent.keyboard),
        modem: append(shares.modem, sent.modem),
        socket: append(shares.socket, sent.socket),
    }
}

// Nobody gets anything.
fn nothing() -> Shares
    ensures { result ≡ nobody }
{
    Shares::all(Outlet::none())
}

// What one call of the links sent; of a count above five there are five bytes.
pub fn share_out(sent: Sent) -> Shares
    ensures { (result ≡ shares_of (gets sent)) × Enough result }
{
    gather(nothing(), sent)
}

// Values handed to the links as the modem's. It gives no number: the board's calls do, and test their board before they
// come here. Broken links take no value: they come back as they were, and nobody gets anything. A value above 127 is left
// out, and those behind it are handed on.
pub fn feed(start: Links, values: Few<15>) -> Fed
    ensures { (result ≡ fed start (contents values)) × Enough result.shares }
{
    if are_plain(start, values.codes) {
        return pass_all(start, values);
    }
    let mut links = start;
    let mut shares = nothing();
    let given = values.bytes();
    for value in given {
        let outcome = links.from_modem(*value);
        shares = gather(shares, outcome.sent);
        links = outcome.next;
    }
    Fed { links, shares }
}
