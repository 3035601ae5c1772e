// The cursor's moves by one in page mode (01, "Screen cells").
//
// Every place is taken, also one off the screen, and every move gives a place. specs/Moves says which; proofs/Edges
// writes out where each leads at every edge, proofs/Stays shows that no move leaves the screen, and proofs/Rows that
// none enters row 0 or leaves it.
#![tactic(auto)]

ghost use Rattle.std.specs.Prelude.{◌≡◌};
ghost use Rattle.screen_motion.specs.Moves.{row_below, row_above, left_of, right_of, up_of, down_of, first_of};

use screen_cursor::Place;

// Row 24 joins row 1.
fn row_below(row: u8) -> u8
    ensures { result ≡ row_below row }
{
    if row < 24 { row + 1 } else { 1 }
}

fn row_above(row: u8) -> u8
    ensures { result ≡ row_above row }
{
    if 1 < row { row - 1 } else { 24 }
}

// BS.
pub fn left(place: Place) -> Place
    ensures { result ≡ left_of place }
{
    if 1 < place.column {
        Place {
            column: place.column - 1,
            ..place
        }
    } else if place.row == 0 {
        place
    } else {
        Place {
            row: row_above(place.row),
            column: 40,
        }
    }
}

// HT, and after a character.
pub fn right(place: Place) -> Place
    ensures { result ≡ right_of place }
{
    let row = place.row;
    if place.column < 40 {
        Place {
            column: place.column + 1,
            ..place
        }
    } else if row == 0 {
        place
    } else {
        Place {
            row: row_below(row),
            column: 1,
        }
    }
}

// VT.
pub fn up(place: Place) -> Place
    ensures { result ≡ up_of place }
{
    if 0 < place.row {
        Place {
            row: row_above(place.row),
            ..place
        }
    } else {
        place
    }
}

// LF outside row 0.
pub fn down(place: Place) -> Place
    ensures { result ≡ down_of place }
{
    let row = row_below(place.row);
    Place { row, ..place }
}

// CR.
pub fn first(place: Place) -> Place
    ensures { result ≡ first_of place }
{
    Place { column: 1, ..place }
}
