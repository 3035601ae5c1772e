// A screen's state as words of an answer: its cells, and all the rest of it.
use crate::words::{OrDash, Shown, letter, write_digits};
use screen_attributes::Attributes;
use screen_cells::{Cell, Character};
use screen_cursor::Place;
use screen_pen::{Pen, Spot};
use screen_sequences::Sequence;
use std::fmt;

// The seven digits of a cell. The bench writes them so too: see `Hex` of words.rt.
fn spelled(cell: Cell) -> [u8; 7] {
    let Cell {
        character,
        ink,
        ground,
        flash,
        inverse,
    } = cell;
    let Character { set, code } = character;
    [
        letter(set),
        letter(code / 16),
        letter(code),
        letter(ink),
        letter(ground),
        letter(u8::from(flash)),
        letter(u8::from(inverse)),
    ]
}

impl fmt::Display for Shown<'_, Cell> {
    fn fmt<W: fmt::Write>(&self, f: &mut fmt::Formatter<W>) -> fmt::Result {
        write_digits(f, &spelled(*self.0))
    }
}

// All the cells, with nothing between them.
impl fmt::Display for Shown<'_, [Cell; 1000]> {
    fn fmt<W: fmt::Write>(&self, f: &mut fmt::Formatter<W>) -> fmt::Result {
        let mut text = [[0; 7]; 1000];
        for (seven, cell) in text.iter_mut().zip(self.0) {
            *seven = spelled(*cell);
        }
        write_digits(f, text.as_flattened())
    }
}

// ROW,COLUMN.
impl fmt::Display for Shown<'_, Place> {
    fn fmt<W: fmt::Write>(&self, f: &mut fmt::Formatter<W>) -> fmt::Result {
        write!(f, "{},{}", self.0.row, self.0.column)
    }
}

// SET,INK,GROUND,WAITING,FLASH,INVERSE.
impl fmt::Display for Shown<'_, Attributes> {
    fn fmt<W: fmt::Write>(&self, f: &mut fmt::Formatter<W>) -> fmt::Result {
        let Attributes {
            set,
            ink,
            zone,
            flash,
            inverse,
        } = *self.0;
        let ground = zone.ground;
        let waiting = OrDash(zone.waiting);
        let flash = u8::from(flash);
        let inverse = u8::from(inverse);
        write!(f, "{set},{ink},{ground},{waiting},{flash},{inverse}")
    }
}

// SET:CODE.
impl fmt::Display for Shown<'_, Character> {
    fn fmt<W: fmt::Write>(&self, f: &mut fmt::Formatter<W>) -> fmt::Result {
        write!(f, "{}:{:02x}", self.0.set, self.0.code)
    }
}

// The name of a sequence, and its code where it has one.
impl fmt::Display for Shown<'_, Sequence> {
    fn fmt<W: fmt::Write>(&self, f: &mut fmt::Formatter<W>) -> fmt::Result {
        match self.0 {
            Sequence::Free => f.write_str("-"),
            Sequence::Escape => f.write_str("esc"),
            Sequence::Long => f.write_str("esc2"),
            Sequence::Control => f.write_str("csi"),
            Sequence::Address => f.write_str("us"),
            Sequence::Row(code) => write!(f, "us:{code:02x}"),
            Sequence::Repeat => f.write_str("rep"),
            Sequence::Single => f.write_str("ss2"),
            Sequence::Separator => f.write_str("sep"),
        }
    }
}

// All of a state but its cells.
impl fmt::Display for Shown<'_, Pen> {
    fn fmt<W: fmt::Write>(&self, f: &mut fmt::Formatter<W>) -> fmt::Result {
        let pen = self.0;
        let place = Shown(&pen.here.place);
        let shown = u8::from(pen.shown);
        let attributes = Shown(&pen.here.attributes);
        let last = OrDash(pen.last.as_ref().map(Shown));
        let kept = Shown(&pen.kept);
        let sequence = Shown(&pen.sequence);
        write!(
            f,
            "cur={place},{shown} attr={attributes} last={last} kept={kept} pend={sequence}"
        )
    }
}

// ROW,COLUMN and then as attributes are.
impl fmt::Display for Shown<'_, Spot> {
    fn fmt<W: fmt::Write>(&self, f: &mut fmt::Formatter<W>) -> fmt::Result {
        let place = Shown(&self.0.place);
        let attributes = Shown(&self.0.attributes);
        write!(f, "{place},{attributes}")
    }
}
