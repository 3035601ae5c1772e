// What one value from modem or socket means (01, "Links and commands"): it is passed on, waits for more, or ends a
// command.
//
// `hear` takes an unfinished sequence and one value, and says what is unfinished then and what is ordered. It knows no
// table. specs/Hearing says the same; proofs/ shows that it takes in just the commands of `links_commands`. ears.rt has
// the two modules that are heard.
#![tactic(auto)]

ghost use Rattle.std.specs.Prelude.{◌≡◌};
ghost use Rattle.links_hearing.specs.Hearing.{in_range, holds, does, begun, escaped, heard};

mod ears;

pub use ears::{Ear, Sequences};
use links_commands::Order;

// An unfinished sequence.
#[derive(Clone, Copy)]
pub enum Unfinished {
    Free,
    // ESC.
    Escape,
    // ESC and 3/9, 3/A or 3/B, with fewer codes than it takes.
    Pro1,
    Pro2,
    Pro2With(u8),
    Pro3,
    Pro3With(u8),
    Pro3Both(u8, u8),
}

#[derive(Clone, Copy)]
pub struct Heard {
    pub unfinished: Unfinished,
    pub order: Order,
}

// Whether each code so far is at most 127.
#[tactic(auto, unfolding(crate::specs::Hearing::in_range))]
pub fn in_range(unfinished: Unfinished) -> bool
    ensures { result ≡ in_range unfinished }
{
    match unfinished {
        Unfinished::Free | Unfinished::Escape => true,
        Unfinished::Pro1 | Unfinished::Pro2 | Unfinished::Pro3 => true,
        Unfinished::Pro2With(first) => first <= 127,
        Unfinished::Pro3With(first) => first <= 127,
        Unfinished::Pro3Both(first, second) => first <= 127 && second <= 127,
    }
}

// The code is taken, and nothing is done yet.
fn hold(unfinished: Unfinished) -> Heard
    ensures { result ≡ holds unfinished }
{
    Heard {
        unfinished,
        order: Order::Nothing,
    }
}

// The sequence is over, and this is to be done.
fn finish(order: Order) -> Heard
    ensures { result ≡ does order }
{
    Heard {
        unfinished: Unfinished::Free,
        order,
    }
}

// With nothing unfinished.
fn begin(value: u8) -> Heard
    ensures { result ≡ begun value }
{
    if value == 27 {
        return hold(Unfinished::Escape);
    }
    finish(Order::Pass(value))
}

// After ESC.
fn escape(value: u8) -> Heard
    ensures { result ≡ escaped value }
{
    match value {
        57 => hold(Unfinished::Pro1),
        58 => hold(Unfinished::Pro2),
        59 => hold(Unfinished::Pro3),
        _ => finish(Order::Pair(value)),
    }
}

// One value, after the sequence so far.
#[tactic(auto, unfolding(crate::specs::Hearing::heard))]
pub fn hear(unfinished: Unfinished, value: u8) -> Heard
    ensures { result ≡ heard unfinished value }
{
    match unfinished {
        Unfinished::Free => begin(value),
        Unfinished::Escape => escape(value),
        Unfinished::Pro1 => finish(Order::Nothing),
        Unfinished::Pro2 => hold(Unfinished::Pro2With(value)),
        Unfinished::Pro2With(first) => finish(links_commands::pro2(first, value)),
        Unfinished::Pro3 => hold(Unfinished::Pro3With(value)),
        Unfinished::Pro3With(first) => hold(Unfinished::Pro3Both(first, value)),
        Unfinished::Pro3Both(first, second) => finish(links_commands::pro3(first, second, value)),
    }
}
