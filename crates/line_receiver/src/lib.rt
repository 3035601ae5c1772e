// The line receiver (01, "The receiver"; 001, sections 5-3-5 and 5-3-6), by value.
//
// Off, each byte passes by itself without parity. On, bytes are held until there are seventeen; the block is judged,
// and its fifteen values pass or the request for it goes to the modem. Then bytes are dropped until the sender begins
// again with SYN, SYN and the number awaited.
//
// Every call takes any state and hands back the next one with all that goes out. specs/States says what a state is,
// specs/Calls what each call does to it, specs/Runs what a whole run is; specs/Page tells the same page from the
// line's side, without a receiver, specs/Standing ties a receiver to it, and proofs/ shows that the two agree at every
// moment of every run.
#![tactic(auto)]

ghost use Rattle.std.specs.Prelude.{◌≡◌};
ghost use Rattle.line_receiver.specs.States.{new_receiver};
ghost use Rattle.line_receiver.specs.Calls.{stepped, switched_to, switched_on, switched_off, asked_again};

mod outcomes;
mod requests;
mod states;
mod while_on;

use block_reader::Verdict;
use few::Few;
pub use line_phases::Phase;
pub use outcomes::{answer_number, silent};
use outcomes::{pass, refuse};
use requests::again;
use states::emptied;
pub use states::in_range;
use while_on::{collect, hear};

#[derive(Clone, Copy)]
pub struct Receiver {
    // The first `count` are the bytes held; the others are no part of the state. Not a `Few<17>`: 01 has the array, the
    // count and the number as the state's form, and `places_past_the_held_never_matter` speaks of any bytes past those
    // held, where a `Few` has 0.
    pub held: [u8; 17],
    pub count: usize,
    // That of the block awaited, 0 to 15.
    pub number: u8,
    pub phase: Phase,
}

// Why a call does nothing: the state lies outside its ranges. The answer's number is 5.
#[derive(Clone, Copy, PartialEq, Eq)]
pub struct Broken;

// What a call hands back.
#[derive(Clone, Copy)]
pub struct Stepped {
    pub next: Receiver,
    // Broken where the state is; it comes back as it was.
    pub answer: Result<(), Broken>,
    // The values passed on: none, one or fifteen.
    pub values: Few<15>,
    // The bytes for the modem: none or two.
    pub request: Few<2>,
    // The verdict on a block, where one was judged.
    pub judged: Option<Verdict>,
}

impl Receiver {
    // A new receiver: off, number 0, nothing held or seen.
    pub fn new() -> Receiver
        ensures { result ≡ new_receiver }
    {
        emptied(0, Phase::start())
    }

    // One byte from the line.
    pub fn step(self, byte: u8) -> Stepped
        ensures { result ≡ stepped self byte }
    {
        if !in_range(self) {
            return refuse(self);
        }
        match self.phase {
            Phase::Off => pass(self, byte),
            Phase::Collecting => collect(self, byte),
            Phase::Waiting(seen) => {
                silent(hear(self, line_codes::listen(self.number, seen, byte)))
            }
        }
    }

    // Everything anew, whatever the state was: number 0, nothing held or seen.
    fn switched(self, phase: Phase) -> Stepped
        ensures { result ≡ switched_to phase self }
    {
        if !in_range(self) {
            return refuse(self);
        }
        silent(emptied(0, phase))
    }

    // Collecting, number 0, nothing held or seen; also when already on.
    pub fn switch_on(self) -> Stepped
        ensures { result ≡ switched_on self }
    {
        self.switched(Phase::Collecting)
    }

    // Off, number 0, nothing held or seen.
    pub fn switch_off(self) -> Stepped
        ensures { result ≡ switched_off self }
    {
        self.switched(Phase::Off)
    }

    // The request once more while waiting, nothing elsewhere; the state stays.
    pub fn ask_again(self) -> Stepped
        ensures { result ≡ asked_again self }
    {
        if !in_range(self) {
            return refuse(self);
        }
        match self.phase {
            Phase::Off | Phase::Collecting => silent(self),
            Phase::Waiting(_) => again(self),
        }
    }
}
