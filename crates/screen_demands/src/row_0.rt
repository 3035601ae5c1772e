// Demand 2 on row 0: how it is entered and left, and what LF brings back.
ghost use Rattle.std.specs.Prelude.{◌≡◌, List, [], ◌∷◌, ℕ, ◌≤◌};
ghost use Rattle.screen_cursor.specs.declared.Place.{Place};
ghost use Rattle.screen_motion.specs.Moves.{left_of, right_of, up_of, down_of, first_of};
ghost use Rattle.screen_motion.specs.Rows.{SameSide};
ghost use Rattle.screen_sequences.specs.declared.Sequence.TheVariants.{Separator};
ghost use Rattle.screen_page.specs.declared.Screen.{Screen};
ghost use Rattle.screen_page.specs.Pages.{fresh_screen};
ghost use Rattle.screen.specs.Screens.{advanced, advanced_by};
ghost use Rattle.screen.specs.Claims.{entering_row0, StaysInRow0};

// BS, HT, VT, CR and a character leave the cursor in row 0 where it is there, and below row 0 where it is below; LF
// below row 0 stays below it. Row 24 joins row 1.
pub fn no_move_crosses_into_row_0()
    ensures { (p : Place) → SameSide p (left_of p) × SameSide p (right_of p) × SameSide p (up_of p)
        × SameSide p (first_of p) × (1 ≤ (down_of p).row) }
{}

// From a state below row 0 with no SEP open: US and a good pair for row 0, NULs between them or not, then any values
// after each of which the cursor is in row 0 and the last of which leaves no SEP open, then LF. The place and all the
// attributes, with what waits, are those just before the US, and no cell changes at the LF. Values that meet this
// exist: a letter and CR on a fresh screen.
pub fn lf_returns_from_row_0()
    ensures returns { (s : Screen) (i j c : ℕ) (bs : List ℕ) → (s.pen.sequence ≡ Separator → ⊥)
        → 1 ≤ s.pen.here.place.row → 65 ≤ c → c ≤ 104
        → let e = advanced_by s (entering_row0 i j c) in let f = advanced_by e bs in
        StaysInRow0 e bs → (f.pen.sequence ≡ Separator → ⊥)
        → ((advanced f 10).pen.here.place ≡ s.pen.here.place) × ((advanced f 10).pen.here.attributes ≡ s.pen.here.attributes)
        × ((advanced f 10).cells ≡ f.cells) }
    ensures met { StaysInRow0 (advanced_by fresh_screen (entering_row0 1 0 65)) (65 ∷ 13 ∷ []) }
{}
