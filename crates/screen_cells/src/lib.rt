// A character, and a cell of the screen that has one (01, "Screen cells"). `screen_sheet` has all thousand cells.
//
// Sets, codes and colours are numbers, so that any can be handed in; the tests say which are in range. What a character
// is, is said here alone: specs/Characters has the range of one and what takes a waiting ground, specs/Cells a blank
// cell, which cells are in range, and when two are the same. proofs/Tested ties the tests to the ranges, proofs/Equal
// says that the same is equal, proofs/Takers what takes a ground, and proofs/Written writes all of it out.
#![tactic(auto)]

ghost use Rattle.std.specs.Prelude.{◌≡◌};
ghost use Rattle.screen_cells.specs.Characters.{good_character, takes};
ghost use Rattle.screen_cells.specs.Cells.{blank_of, good_cell, same_looks, same_cell, is_blank};

// A character. Sets 0, 1 and 2 are G0, G1 and G2: a number and no enum, since `is_character` answers for any set.
#[derive(Clone, Copy, PartialEq, Eq)]
pub struct Character {
    pub set: u8,
    pub code: u8,
}

// A character on the screen, and how it looks. Colours are 0 to 7: numbers, since `in_range` answers for any.
#[derive(Clone, Copy, PartialEq, Eq)]
pub struct Cell {
    pub character: Character,
    pub ink: u8,
    pub ground: u8,
    pub flash: bool,
    pub inverse: bool,
}

// Whether such a character can be written.
#[tactic(auto, unfolding(crate::specs::Characters::good_character))]
pub fn is_character(character: Character) -> bool
    ensures { result ≡ good_character character }
{
    character.set <= 2 && (32..=127).contains(&character.code)
}

// Whether it takes a waiting ground: a G0 space or any G1 character.
pub fn takes_ground(character: Character) -> bool
    ensures { result ≡ takes character }
{
    matches!(
        character,
        Character { set: 1, .. } | Character { set: 0, code: 32 }
    )
}

// A blank cell.
pub fn blank() -> Cell
    ensures { result ≡ blank_of }
{
    Cell {
        character: Character { set: 1, code: 32 },
        ink: 7,
        ground: 0,
        flash: false,
        inverse: false,
    }
}

// Whether a cell is in range.
pub fn in_range(cell: Cell) -> bool
    ensures { result ≡ good_cell cell }
{
    cell.ink <= 7 && cell.ground <= 7 && is_character(cell.character)
}

// Whether two cells look the same but for their characters. The four by name, as `same_looks` has them: with a cell
// that takes the other's character, `==` would say less plainly which they are.
pub fn look_alike(a: Cell, b: Cell) -> bool
    ensures { result ≡ same_looks a b }
{
    a.ink == b.ink && a.ground == b.ground && a.flash == b.flash && a.inverse == b.inverse
}

// Whether two cells are equal: `==`, by a name. `the_same_cell_is_an_equal_cell` of `screen_demands` says that the two
// are one.
pub fn same(a: Cell, b: Cell) -> bool
    ensures { result ≡ same_cell a b }
{
    a == b
}

// Whether a cell is blank.
pub fn is_blank(cell: Cell) -> bool
    ensures { result ≡ is_blank cell }
{
    same(cell, blank())
}
