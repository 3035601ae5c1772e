// The pen: all of the screen but its cells (01, "Screen cells"). Where the cursor is, the attributes in force, what is
// kept for the return from row 0, the last character, the unfinished sequence, and whether the cursor is shown.
//
// `write` is one character written: its cell, and the pen after it. specs/Pens says what a pen is and which are in
// range, specs/Strokes what a character does. The test of the ranges is in the crate `screen_ranges`, and what a value
// does to a pen in `screen_planning`.
#![tactic(auto)]

ghost use Rattle.std.specs.Prelude.{◌≡◌};
ghost use Rattle.screen_pen.specs.Pens.{fresh_pen};
ghost use Rattle.screen_pen.specs.Strokes.{stroke as stroke_of};

use screen_attributes::Attributes;
use screen_cells::{Cell, Character};
use screen_cursor::Place;
use screen_sequences::Sequence;

// A place, and the attributes in force there.
#[derive(Clone, Copy)]
pub struct Spot {
    pub place: Place,
    pub attributes: Attributes,
}

#[derive(Clone, Copy)]
pub struct Pen {
    pub here: Spot,
    // Where it was before US entered row 0; at the start, the start's.
    pub kept: Spot,
    // The last character written. Only a fresh pen has none.
    pub last: Option<Character>,
    pub sequence: Sequence,
    pub shown: bool,
}

// One character written: its cell, and the pen after it.
#[derive(Clone, Copy)]
pub struct Stroke {
    pub cell: Cell,
    pub pen: Pen,
}

impl Pen {
    // The pen of a fresh screen.
    pub fn fresh() -> Pen
        ensures { result ≡ fresh_pen }
    {
        let start = Spot {
            place: Place { row: 1, column: 1 },
            attributes: screen_attributes::start(),
        };
        Pen {
            here: start,
            kept: start,
            last: None,
            sequence: Sequence::Free,
            shown: false,
        }
    }

    // One character at the cursor: with the attributes of the moment, and the cursor moves right.
    pub fn write(self, character: Character) -> Stroke
        ensures { result ≡ stroke_of self character }
    {
        let written = screen_writing::write(self.here.attributes, character);
        let place = screen_motion::right(self.here.place);
        let pen = Pen {
            here: Spot {
                place,
                attributes: written.attributes,
            },
            last: Some(character),
            ..self
        };
        Stroke {
            cell: written.cell,
            pen,
        }
    }
}
