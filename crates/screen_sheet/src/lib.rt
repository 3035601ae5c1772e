// The thousand cells of a screen (01, "Screen cells"): tested, and cleared.
//
// specs/Clearing says what is left of them, specs/Within which are in range; proofs/ holds their laws.
#![tactic(auto)]

ghost use Rattle.std.specs.Prelude.{◌≡◌};
ghost use Rattle.screen_sheet.specs.Clearing.{cleared};
ghost use Rattle.screen_sheet.specs.Within.{all_good};

use screen_cells::Cell;

// Whether all thousand are in range.
#[tactic(auto, unfolding(crate::specs::Within::all_good))]
pub fn in_range(cells: [Cell; 1000]) -> bool
    ensures { result ≡ all_good cells }
{
    cells.iter().all(|cell| screen_cells::in_range(*cell))
}

// Rows 1 to 24 blank, row 0 kept.
#[tactic(auto, unfolding(crate::specs::Clearing::cleared))]
pub fn clear(old: [Cell; 1000]) -> [Cell; 1000]
    ensures { result ≡ cleared old }
{
    let mut cells = [screen_cells::blank(); 1000];
    cells[..40].copy_from_slice(&old[..40]);
    cells
}
