// What an order does (01, "Links and commands"): a value or an ESC pair goes along the links of its sender; a command
// sets or clears a link, and a reply goes to the sender alone.
//
// specs/Sending says so; proofs/ shows what each receiver gets of it.
#![tactic(auto)]

ghost use Rattle.std.specs.Prelude.{◌≡◌};
ghost use Rattle.links_sending.specs.Sending.{packed, to as to_those, silence as silence_sent};
ghost use Rattle.links_sending.specs.Sending.{receivers_for, bytes_for, obeyed};

use few::Few;
use links_commands::Order;
use links_wiring::{Each, Module, Row, Table};

// What each receiver gets: at most five bytes.
pub type Sent = Each<Few<5>>;

// What an order does: the table after it, and what each receiver gets.
#[derive(Clone, Copy)]
pub struct Obeyed {
    pub table: Table,
    pub sent: Sent,
}

// What an order sends.
fn codes(table: Table, order: Order) -> Few<5>
    ensures { result ≡ packed (bytes_for table order) }
{
    match order {
        Order::Nothing => Few::none(),
        Order::Pass(value) => Few::of(&[value]),
        Order::Pair(value) => Few::of(&[27, value]),
        Order::Link { receiver, .. } | Order::Ask(receiver) => {
            Few::of(&links_replies::reply(table, receiver))
        }
    }
}

// Who gets it.
fn receivers(table: Table, from: Module, order: Order) -> Row
    ensures { result ≡ receivers_for table from order }
{
    let linked = table.of(from);
    let alone = Row::all(false).with(from, true);
    match order {
        Order::Nothing => Row::all(false),
        Order::Pass(_) | Order::Pair(_) => linked,
        Order::Link { .. } | Order::Ask(_) => alone,
    }
}

// The same bytes to each receiver that a row marks.
fn to(those: Row, bytes: Few<5>) -> Sent
    ensures { result ≡ to_those those bytes }
{
    those.either(bytes, Few::none())
}

// Nothing to anybody.
pub fn silence() -> Sent
    ensures { result ≡ silence_sent }
{
    Sent::all(Few::none())
}

// An order from a module: a reply tells the table after it.
#[tactic(auto, unfolding(crate::specs::Sending::obeyed))]
pub fn obey(table: Table, from: Module, order: Order) -> Obeyed
    ensures { result ≡ obeyed table from order }
{
    let after = links_changes::relink(table, order);
    let bytes = codes(after, order);
    let sent = to(receivers(after, from, order), bytes);
    Obeyed { table: after, sent }
}
