// The cursor's place on the screen (01, "Screen cells"). `screen_motion` has its moves by one, and `screen_addresses`
// the place that US names.
//
// specs/Places says which places lie on the screen, and where their cells lie; proofs/Tested ties the test to it, and
// proofs/Corners writes the corners out.
#![tactic(auto)]

ghost use Rattle.std.specs.Prelude.{◌≡◌};
ghost use Rattle.screen_cursor.specs.Places.{on_screen, index_of};

// Rows count from 0, columns from 1.
#[derive(Clone, Copy)]
pub struct Place {
    pub row: u8,
    pub column: u8,
}

impl Place {
    // Whether it lies on the screen.
    pub fn on_screen(self) -> bool
        ensures { result ≡ on_screen self }
    {
        self.row <= 24 && (1..=40).contains(&self.column)
    }

    // Where its cell lies among the thousand. A place off the screen is taken too.
    pub fn index(self) -> usize
        ensures { result ≡ index_of self }
    {
        (usize::from(self.row) * 40 + usize::from(self.column)).saturating_sub(1)
    }
}
