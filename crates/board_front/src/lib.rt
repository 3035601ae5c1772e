// What hears the line: the receiver, and the links behind it (01, "What the board does").
//
// A byte goes through the receiver, and each value that this passes on is handed to the links as the modem's. A piece of
// bytes takes room in four outputs, and can be heard for that alone, where these are not so long that any bytes fit.
// specs/LineBytes says what bytes come to, specs/Fitting what room that takes, specs/Ample which is surely enough;
// proofs/Onwards shows what one byte more brings, proofs/Rooms when there is room, and proofs/Amply that there is.
#![tactic(auto)]

ghost use Rattle.std.specs.Prelude.{◌≡◌, ◌≤◌, []};
ghost use Rattle.board_feeding.specs.Feeding.{Enough};
ghost use Rattle.board_front.specs.Fitting.{room_in};
ghost use Rattle.board_front.specs.LineBytes.{sent_on, heard_by};

mod ample;
mod fitting;

use board_feeding::Shares;
use few::Few;
pub use fitting::fits;
use line_receiver::{Receiver, Stepped};
use links::Links;

#[derive(Clone, Copy)]
pub struct Front {
    pub receiver: Receiver,
    pub links: Links,
}

// What comes of one byte.
#[derive(Clone, Copy)]
pub struct Heard {
    pub front: Front,
    pub shares: Shares,
    pub request: Few<2>,
}

// Bytes for each output: those that there is room for, or those written.
//
// It and the lent outputs (`Outputs` of the crate `board_passing`) are no one generic type: no function does the same with
// both, since numbers are compared and taken off, and lent bytes written, so that the names of four fields would be all.
#[derive(Clone, Copy)]
pub struct Room {
    pub keyboard: usize,
    pub modem: usize,
    pub socket: usize,
    pub requests: usize,
}

impl Room {
    // No byte in any output.
    pub fn none() -> Room
        ensures { result ≡ room_in [] [] [] [] }
    {
        Room {
            keyboard: 0,
            modem: 0,
            socket: 0,
            requests: 0,
        }
    }
}

// What the receiver hands out goes its way: its values through the links as the modem's, its request out. Broken links
// take no value, so that nobody gets anything.
pub fn send_on(links: Links, stepped: Stepped) -> Heard
    ensures { (result ≡ sent_on links stepped) × Enough result.shares }
{
    let fed = board_feeding::feed(links, stepped.values);
    Heard {
        front: Front {
            receiver: stepped.next,
            links: fed.links,
        },
        shares: fed.shares,
        request: stepped.request,
    }
}

// One byte from the line. It gives no number: `lines` of the crate `board_pieces` does, and tests its board before it
// comes here. A broken receiver hears nothing: it and the links come back as they were, with nothing for anybody.
// Broken links take no value, so that nobody gets anything, while the receiver goes on. It passes on no value above
// 127.
pub fn hear(front: Front, byte: u8) -> Heard
    ensures { (result ≡ heard_by «front» byte) × Enough result.shares × (result.request.count ≤ 2) }
{
    send_on(front.links, front.receiver.step(byte))
}
