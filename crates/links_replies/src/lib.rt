// The reply to a command: the status of a receiver (01, "Links and commands"; 001, part 2, chapter 6, section 3.4).
//
// specs/Replies says what a reply is; proofs/ shows that its status tells the table, bit by bit.
#![tactic(auto)]

ghost use Rattle.std.specs.Prelude.{◌≡◌, ◌≤◌};
ghost use Rattle.links_replies.specs.Replies.{column_of, weighed, summed, reply_of};

use links_wiring::{Module, Row, Table};

// The senders that reach a receiver, and the receiver itself, which is active.
fn column(table: Table, receiver: Module) -> Row
    ensures { result ≡ column_of table receiver }
{
    let senders = Row {
        screen: table.screen.of(receiver),
        keyboard: table.keyboard.of(receiver),
        modem: table.modem.of(receiver),
        socket: table.socket.of(receiver),
    };
    senders.with(receiver, true)
}

fn weigh(on: bool, weight: u8) -> u8
    ensures value { result ≡ weighed on weight }
    ensures most { result ≤ weight }
{
    if on { weight } else { 0 }
}

// The status that shows these senders.
fn sum(senders: Row) -> u8
    ensures { result ≡ summed senders }
{
    let socket = weigh(senders.socket, 8);
    let modem = weigh(senders.modem, 4);
    let keyboard = weigh(senders.keyboard, 2);
    let screen = weigh(senders.screen, 1);
    64 + socket + modem + keyboard + screen
}

// PRO3, 6/3, the receiver's code, which is 5/8 to 5/B, and its status.
#[tactic(auto, using(crate::proofs::Tags::tagged), unfolding(crate::specs::Replies::status_of, crate::specs::Replies::reply_of))]
pub fn reply(table: Table, receiver: Module) -> [u8; 5]
    ensures { result ≡ reply_of table receiver }
{
    let code = 88 + receiver as u8;
    let status = sum(column(table, receiver));
    [27, 59, 99, code, status]
}
