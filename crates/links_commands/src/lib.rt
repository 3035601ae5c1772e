// What a whole command orders (01, "Links and commands"; 001, part 2, chapter 6, sections 1 to 3). A command that names
// nobody is unknown, and orders nothing.
//
// specs/Commands says how each command is spelled and what it orders; proofs/ shows that a link or ask command orders
// just that, and no other command anything.
#![tactic(auto)]

ghost use Rattle.std.specs.Prelude.{◌≡◌, ◌+◌};
ghost use Rattle.links_wiring.specs.Modules.{place_of};
ghost use Rattle.links_commands.specs.Commands.{named, asking, linking, ordered_by_two, ordered_by_three};

use links_wiring::Module;

// What is to be done.
#[derive(Clone, Copy)]
pub enum Order {
    Nothing,
    // The value is passed on.
    Pass(u8),
    // ESC and the value are.
    Pair(u8),
    // A link is set or cleared, and the receiver's status told.
    Link {
        receiver: Module,
        sender: Module,
        on: bool,
    },
    // A receiver's status is told.
    Ask(Module),
}

// The screen's code: a receiver's are 5/8 to 5/B, a sender's 5/0 to 5/3.
const RECEIVERS: u8 = 88;

const SENDERS: u8 = 80;

// The module that a code names, of four codes from the first on. It is no `TryFrom`, since a code names a module as a
// receiver or as a sender.
fn named(first: u8, code: u8) -> Option<Module>
    ensures { result ≡ named (λ m. first + place_of m) code }
{
    match code.checked_sub(first)? {
        0 => Some(Module::Screen),
        1 => Some(Module::Keyboard),
        2 => Some(Module::Modem),
        3 => Some(Module::Socket),
        _ => None,
    }
}

fn ask(receiver: Option<Module>) -> Order
    ensures { result ≡ asking receiver }
{
    match receiver {
        Some(receiver) => Order::Ask(receiver),
        None => Order::Nothing,
    }
}

fn link(receiver: Option<Module>, sender: Option<Module>, on: bool) -> Order
    ensures { result ≡ linking receiver sender on }
{
    match (receiver, sender) {
        (Some(receiver), Some(sender)) => Order::Link {
            receiver,
            sender,
            on,
        },
        _ => Order::Nothing,
    }
}

// PRO2: 6/2 and a receiver ask.
pub fn pro2(first: u8, second: u8) -> Order
    ensures { result ≡ ordered_by_two first second }
{
    match first {
        98 => ask(named(RECEIVERS, second)),
        _ => Order::Nothing,
    }
}

// PRO3: 6/1 sets and 6/0 clears the link from a sender to a receiver.
pub fn pro3(first: u8, second: u8, third: u8) -> Order
    ensures { result ≡ ordered_by_three first second third }
{
    match first {
        97 => link(named(RECEIVERS, second), named(SENDERS, third), true),
        96 => link(named(RECEIVERS, second), named(SENDERS, third), false),
        _ => Order::Nothing,
    }
}
