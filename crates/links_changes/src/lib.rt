// What an order does to the table (01, "Links and commands"): a link command sets or clears the pair that it names,
// where it names two modules, and every other order leaves the table.
//
// specs/Linking says so; proofs/ shows what it does to each pair, and that no module is ever linked to itself.
#![tactic(auto)]

ghost use Rattle.std.specs.Prelude.{◌≡◌};
ghost use Rattle.links_changes.specs.Linking.{linked, table_after};

use links_commands::Order;
use links_wiring::{Module, Table};

// A link set or cleared; a module is never linked to itself.
#[tactic(auto, unfolding(crate::specs::Linking::linked))]
fn link(table: Table, receiver: Module, sender: Module, on: bool) -> Table
    ensures { result ≡ linked table receiver sender on }
{
    let row = table.of(sender).with(receiver, on);
    let changed = table.with(sender, row);
    if receiver == sender { table } else { changed }
}

// The table after an order.
pub fn relink(table: Table, order: Order) -> Table
    ensures { result ≡ table_after table order }
{
    match order {
        Order::Nothing | Order::Pass(_) | Order::Pair(_) | Order::Ask(_) => table,
        Order::Link {
            receiver,
            sender,
            on,
        } => link(table, receiver, sender, on),
    }
}
