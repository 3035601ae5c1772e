// What a value does to the pen, and what it asks of the cells (01, "Screen cells"): nothing, rows 1 to 24 blank, or a
// character so many times. It never sees the thousand cells.
//
// specs/Obeying says what each order does to a pen, specs/Planning what a value does; specs/Grounds, Lasts, Naming and
// Reach what the claims on grounds, on the last character, on US and on changed cells speak of; proofs/ holds their laws,
// and in proofs/Worked values worked by hand.
#![tactic(auto)]

ghost use Rattle.std.specs.Prelude.{◌≡◌};
ghost use Rattle.screen_planning.specs.Planning.{plan as plan_for};

mod changing;
mod orders;

use orders::{keep_cells, obey};
use screen_cells::Character;
use screen_pen::Pen;

// What is asked of the cells.
#[derive(Clone, Copy)]
pub enum Asked {
    Nothing,
    // Rows 1 to 24 blank.
    Blank,
    // A character, so many times.
    Put { character: Character, times: u8 },
}

#[derive(Clone, Copy)]
pub struct Planned {
    pub pen: Pen,
    pub asked: Asked,
}

// One value. A pen out of range, or a value above 127: the pen comes back, and nothing is asked.
pub fn plan(pen: Pen, value: u8) -> Planned
    ensures { result ≡ plan_for pen value }
{
    if value <= 127 && screen_ranges::in_range(pen) {
        let heard = screen_sequences::hear(pen.sequence, value);
        let pen = Pen {
            sequence: heard.sequence,
            ..pen
        };
        obey(pen, heard.order)
    } else {
        keep_cells(pen)
    }
}
