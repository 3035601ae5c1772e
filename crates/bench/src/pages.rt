// The state of a screen as text: every cell in seven digits, a row to a line, and the pen.
use screen_attributes::Attributes;
use screen_cells::{Cell, Character};
use screen_page::Screen;
use screen_pen::{Pen, Spot};
use screen_sequences::Sequence;
use std::fmt;

// Set, code, ink, ground, flash and inverse. The trial writes them so too: see `Hex`.
#[derive(Clone, Copy)]
struct Spelled(Cell);

impl fmt::Display for Spelled {
    fn fmt<W: fmt::Write>(&self, f: &mut fmt::Formatter<W>) -> fmt::Result {
        let set = self.0.character.set;
        let code = self.0.character.code;
        let ink = self.0.ink;
        let ground = self.0.ground;
        let flash = self.0.flash as u8;
        let inverse = self.0.inverse as u8;
        write!(f, "{set:x}{code:02x}{ink:x}{ground:x}{flash}{inverse}")
    }
}

// The cells of a row.
#[derive(Clone, Copy)]
struct Row<'a>(&'a [Cell]);

impl fmt::Display for Row<'_> {
    fn fmt<W: fmt::Write>(&self, f: &mut fmt::Formatter<W>) -> fmt::Result {
        for cell in self.0 {
            let seven = Spelled(*cell);
            write!(f, "{seven}")?;
        }
        Ok(())
    }
}

#[derive(Clone, Copy)]
struct AttributesState(Attributes);

impl fmt::Display for AttributesState {
    fn fmt<W: fmt::Write>(&self, f: &mut fmt::Formatter<W>) -> fmt::Result {
        let Attributes {
            set,
            ink,
            zone,
            flash,
            inverse,
        } = self.0;
        let ground = zone.ground;
        write!(f, ", set {set}, ink {ink}, ground {ground}")?;
        match zone.waiting {
            None => f.write_str(", waiting -")?,
            Some(colour) => write!(f, ", waiting {colour}")?,
        }
        let flash = flash as u8;
        let inverse = inverse as u8;
        write!(f, ", flash {flash}, inverse {inverse}")
    }
}

#[derive(Clone, Copy)]
struct SpotState(Spot);

impl fmt::Display for SpotState {
    fn fmt<W: fmt::Write>(&self, f: &mut fmt::Formatter<W>) -> fmt::Result {
        let row = self.0.place.row;
        let column = self.0.place.column;
        let attributes = AttributesState(self.0.attributes);
        write!(f, ": row {row}, column {column}{attributes}")
    }
}

// The character written last.
#[derive(Clone, Copy)]
struct LastState(Option<Character>);

impl fmt::Display for LastState {
    fn fmt<W: fmt::Write>(&self, f: &mut fmt::Formatter<W>) -> fmt::Result {
        match self.0 {
            None => f.write_str("-"),
            Some(character) => {
                let set = character.set;
                let code = character.code;
                write!(f, "{set}{code:02x}")
            }
        }
    }
}

#[derive(Clone, Copy)]
struct SequenceState(Sequence);

impl fmt::Display for SequenceState {
    fn fmt<W: fmt::Write>(&self, f: &mut fmt::Formatter<W>) -> fmt::Result {
        match self.0 {
            Sequence::Free => f.write_str("-"),
            Sequence::Escape => f.write_str("esc"),
            Sequence::Long => f.write_str("long"),
            Sequence::Control => f.write_str("control"),
            Sequence::Separator => f.write_str("sep"),
            Sequence::Repeat => f.write_str("rep"),
            Sequence::Single => f.write_str("ss2"),
            Sequence::Address => f.write_str("us"),
            Sequence::Row(code) => write!(f, "us {code:02x}"),
        }
    }
}

#[derive(Clone, Copy)]
struct PenState(Pen);

impl fmt::Display for PenState {
    fn fmt<W: fmt::Write>(&self, f: &mut fmt::Formatter<W>) -> fmt::Result {
        let Pen {
            here,
            kept,
            last,
            sequence,
            shown,
        } = self.0;
        let here = SpotState(here);
        let kept = SpotState(kept);
        let last = LastState(last);
        let sequence = SequenceState(sequence);
        let shown = shown as u8;
        write!(
            f,
            "pen{here}\nkept{kept}\nlast {last}, unfinished {sequence}, shown {shown}\n"
        )
    }
}

// All of a screen.
#[derive(Clone, Copy)]
pub(crate) struct Page<'a>(pub(crate) &'a Screen);

impl fmt::Display for Page<'_> {
    fn fmt<W: fmt::Write>(&self, f: &mut fmt::Formatter<W>) -> fmt::Result {
        let screen = self.0;
        for (row, cells) in screen.cells.chunks(40).enumerate() {
            let cells = Row(cells);
            write!(f, "row {row} {cells}\n")?;
        }
        let pen = PenState(screen.pen);
        write!(f, "{pen}")
    }
}
