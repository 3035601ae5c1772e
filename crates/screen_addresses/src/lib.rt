// The place that US names (01, "Screen cells").
//
// specs/Addressing says which; proofs/Corners writes out the corners and what lies beyond, and proofs/Stays shows that
// the place lies on the screen.
#![tactic(auto)]

ghost use Rattle.std.specs.Prelude.{◌≡◌};
ghost use Rattle.screen_addresses.specs.Addressing.{addressed};

use screen_cursor::Place;

// The place that US names by a code for the row and one for the column, if they name one.
pub fn locate(row: u8, column: u8) -> Option<Place>
    ensures { result ≡ addressed row column }
{
    if (64..=88).contains(&row) && (65..=104).contains(&column) {
        Some(Place {
            row: row - 64,
            column: column - 64,
        })
    } else {
        None
    }
}
