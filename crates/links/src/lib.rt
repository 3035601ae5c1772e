// The links between the modules, and the replies to commands (01, "Links and commands"; 001, part 2), by value.
//
// Keyboard, modem and socket hand in one value at a time, and the host chooses a table; every call takes any state and
// any value, and hands back the next state, the answer, and what each of the four receivers gets. A broken state, or a
// value above 127, is refused and changes nothing. `links_wiring` has the table, `links_hearing` the two modules that
// are heard for commands and what a value from one of them means, `links_sending` what that does. specs/States says
// what a state is, specs/Calls what each call does, specs/Runs what a whole run is; proofs/ holds their laws.
#![tactic(auto)]

ghost use Rattle.std.specs.Prelude.{◌≡◌};
ghost use Rattle.links_sending.specs.Sending.{silence};
ghost use Rattle.links.specs.States.{starting, local_links, connected_links, in_range};
ghost use Rattle.links.specs.Calls.{giving, unless_refused, choosing, with_local, with_connected};
ghost use Rattle.links.specs.Calls.{taking, from_ear, from_keyboard, from_modem, from_socket};

use links_commands::Order;
pub use links_hearing::Ear;
use links_hearing::{Heard, Sequences};
use links_sending::Sent;
use links_wiring::{Module, Table};

#[derive(Clone, Copy)]
pub struct Links {
    pub table: Table,
    // What is unfinished from each ear.
    pub unfinished: Sequences,
}

// Why a call is refused: the paper's 2 and 5.
#[derive(Clone, Copy, PartialEq, Eq)]
pub enum Refusal {
    TooLarge,
    Broken,
}

#[derive(Clone, Copy)]
pub struct Outcome {
    pub next: Links,
    // The paper's 0, or why it is refused.
    pub answer: Result<(), Refusal>,
    pub sent: Sent,
}

// Nothing is sent.
fn silent(next: Links, answer: Result<(), Refusal>) -> Outcome
    ensures { result ≡ giving next answer silence }
{
    Outcome {
        next,
        answer,
        sent: links_sending::silence(),
    }
}

// The two tables, and modem and socket, have a function each: the theorem `a_run_makes_the_public_calls` names each of
// these calls, and `the_host_chooses_a_table` the links that begin with either table.
impl Links {
    // A table, and nothing unfinished.
    fn starting(table: Table) -> Links
        ensures { result ≡ starting table }
    {
        Links {
            table,
            unfinished: Sequences::free(),
        }
    }

    // The local table, and nothing unfinished: as the board is switched on.
    pub fn local() -> Links
        ensures { result ≡ local_links }
    {
        Links::starting(links_wiring::local_table())
    }

    // The connected table, and nothing unfinished.
    pub fn connected() -> Links
        ensures { result ≡ connected_links }
    {
        Links::starting(links_wiring::connected_table())
    }

    // Whether it lies within the ranges of the page, with no module linked to itself.
    #[tactic(auto, unfolding(crate::specs::States::in_range))]
    pub fn in_range(self) -> bool
        ensures { result ≡ in_range self }
    {
        !self.table.links_itself() && self.unfinished.in_range()
    }

    // This table; what is unfinished stays.
    #[tactic(auto, unfolding(crate::specs::Calls::choosing))]
    fn choose(self, table: Table) -> Outcome
        ensures { result ≡ choosing self table }
    {
        if self.in_range() {
            silent(Links { table, ..self }, Ok(()))
        } else {
            silent(self, Err(Refusal::Broken))
        }
    }

    // The host chooses the local table.
    pub fn with_local(self) -> Outcome
        ensures { result ≡ with_local self }
    {
        self.choose(links_wiring::local_table())
    }

    // The host chooses the connected table.
    pub fn with_connected(self) -> Outcome
        ensures { result ≡ with_connected self }
    {
        self.choose(links_wiring::connected_table())
    }

    // Refused where the state is broken or the value above 127; else what comes of it.
    fn unless_refused(self, value: u8, outcome: Outcome) -> Outcome
        ensures { result ≡ unless_refused self value outcome }
    {
        if !self.in_range() {
            silent(self, Err(Refusal::Broken))
        } else if 127 < value {
            silent(self, Err(Refusal::TooLarge))
        } else {
            outcome
        }
    }

    // A key is passed on, never heard for commands and never held.
    #[tactic(auto, unfolding(crate::specs::Calls::from_keyboard))]
    pub fn from_keyboard(self, value: u8) -> Outcome
        ensures { result ≡ from_keyboard self value }
    {
        let done = links_sending::obey(self.table, Module::Keyboard, Order::Pass(value));
        let outcome = Outcome {
            next: self,
            answer: Ok(()),
            sent: done.sent,
        };
        self.unless_refused(value, outcome)
    }

    // What was heard from an ear: its own sequence follows, and its order is obeyed.
    #[tactic(auto, unfolding(crate::specs::Calls::taking))]
    fn take(self, ear: Ear, heard: Heard) -> Outcome
        ensures { result ≡ taking self ear heard }
    {
        let done = links_sending::obey(self.table, Module::from(ear), heard.order);
        let next = Links {
            table: done.table,
            unfinished: self.unfinished.with(ear, heard.unfinished),
        };
        Outcome {
            next,
            answer: Ok(()),
            sent: done.sent,
        }
    }

    // A value from an ear.
    #[tactic(auto, unfolding(crate::specs::Calls::from_ear))]
    fn hear(self, ear: Ear, value: u8) -> Outcome
        ensures { result ≡ from_ear self ear value }
    {
        let heard = links_hearing::hear(self.unfinished.of(ear), value);
        self.unless_refused(value, self.take(ear, heard))
    }

    // A value that the receiver passes on from the line.
    pub fn from_modem(self, value: u8) -> Outcome
        ensures { result ≡ from_modem self value }
    {
        self.hear(Ear::Modem, value)
    }

    // A value from the socket.
    pub fn from_socket(self, value: u8) -> Outcome
        ensures { result ≡ from_socket self value }
    {
        self.hear(Ear::Socket, value)
    }
}
