// Two cells compared, and a cell held against a blank one.
ghost use Rattle.std.specs.Prelude.{◌≡◌, true};
ghost use Rattle.screen_cells.specs.declared.Cell.{Cell};
ghost use Rattle.screen_cells.specs.Cells.{blank_of, same_cell, is_blank};

// Cells are found the same exactly where they are equal, in every part; and blank exactly where they are the blank cell.
pub fn the_same_cell_is_an_equal_cell()
    ensures equal { (c d : Cell) → (same_cell c d ≡ true → c ≡ d) × (c ≡ d → same_cell c d ≡ true) }
    ensures blank { (c : Cell) → (is_blank c ≡ true → c ≡ blank_of) × (c ≡ blank_of → is_blank c ≡ true) }
{}
