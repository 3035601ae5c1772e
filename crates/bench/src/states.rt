// The states of receiver and links as text, a line each.
use crate::texts::Hex;
use lent::first;
use line_receiver::{Phase, Receiver};
use links::Links;
use links_hearing::Unfinished;
use links_wiring::Row;
use std::fmt;

#[derive(Clone, Copy)]
struct PhaseState(Phase);

impl fmt::Display for PhaseState {
    fn fmt<W: fmt::Write>(&self, f: &mut fmt::Formatter<W>) -> fmt::Result {
        match self.0 {
            Phase::Off => f.write_str("off"),
            Phase::Collecting => f.write_str("collecting"),
            Phase::Waiting(seen) => write!(f, "waiting {seen}"),
        }
    }
}

#[derive(Clone, Copy)]
pub(crate) struct ReceiverState(pub(crate) Receiver);

impl fmt::Display for ReceiverState {
    fn fmt<W: fmt::Write>(&self, f: &mut fmt::Formatter<W>) -> fmt::Result {
        let phase = PhaseState(self.0.phase);
        let number = self.0.number;
        let held = Hex(first(&self.0.held, self.0.count));
        write!(f, "receiver: {phase}, number {number}, held {held}\n")
    }
}

// A mark for each receiver that a sender reaches.
#[derive(Clone, Copy)]
struct Marks(Row);

impl fmt::Display for Marks {
    fn fmt<W: fmt::Write>(&self, f: &mut fmt::Formatter<W>) -> fmt::Result {
        let screen = self.0.screen as u8;
        let keyboard = self.0.keyboard as u8;
        let modem = self.0.modem as u8;
        let socket = self.0.socket as u8;
        write!(f, "{screen}{keyboard}{modem}{socket}")
    }
}

// The codes of an unfinished sequence. The trial writes them, and the marks, so too: see `Hex`.
#[derive(Clone, Copy)]
struct Codes(Unfinished);

impl fmt::Display for Codes {
    fn fmt<W: fmt::Write>(&self, f: &mut fmt::Formatter<W>) -> fmt::Result {
        match self.0 {
            Unfinished::Free => f.write_str("-"),
            Unfinished::Escape => f.write_str("1b"),
            Unfinished::Pro1 => f.write_str("1b39"),
            Unfinished::Pro2 => f.write_str("1b3a"),
            Unfinished::Pro2With(a) => write!(f, "1b3a{a:02x}"),
            Unfinished::Pro3 => f.write_str("1b3b"),
            Unfinished::Pro3With(a) => write!(f, "1b3b{a:02x}"),
            Unfinished::Pro3Both(a, b) => write!(f, "1b3b{a:02x}{b:02x}"),
        }
    }
}

#[derive(Clone, Copy)]
pub(crate) struct LinksState(pub(crate) Links);

impl fmt::Display for LinksState {
    fn fmt<W: fmt::Write>(&self, f: &mut fmt::Formatter<W>) -> fmt::Result {
        let Links { table, unfinished } = self.0;
        f.write_str("links:")?;
        for row in [table.screen, table.keyboard, table.modem, table.socket] {
            let marks = Marks(row);
            write!(f, " {marks}")?;
        }
        let modem = Codes(unfinished.modem);
        let socket = Codes(unfinished.socket);
        write!(f, ", modem {modem}, socket {socket}\n")
    }
}
