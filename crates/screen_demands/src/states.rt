// Demand 1 on the screen: whatever state and values are handed in, a call ends, and each refusal has its number and
// changes nothing.
ghost use Rattle.std.specs.Prelude.{◌≡◌, Ok, Err, Some, None, true, false, cond, List, [], ◌∷◌, ℕ, ◌≤◌, ◌<◌, length};
ghost use Rattle.values.specs.Large.{first_large};
ghost use Rattle.screen_cursor.specs.declared.Place.{Place};
ghost use Rattle.screen_cursor.specs.Places.{at, On};
ghost use Rattle.screen_sequences.specs.declared.Sequence.{Sequence};
ghost use Rattle.screen_sequences.specs.Sequences.{in_range};
ghost use Rattle.screen_sequences.specs.Opening.{LeftOpen};
ghost use Rattle.screen_cells.specs.Cells.{blank_of};
ghost use Rattle.screen_page.specs.declared.Screen.{Screen};
ghost use Rattle.screen_page.specs.declared.Cursor.TheVariants.{Hidden, Shown};
ghost use Rattle.screen_page.specs.Pages.{fresh_screen, cell_at};
ghost use Rattle.screen_page.specs.Ranges.{broken, InScreen};
ghost use Rattle.screen_page.specs.Reading.{read, pointed, read_number, cursor_number};
ghost use Rattle.screen_answers.specs.declared.Refusal.TheVariants.{TooLarge, Broken};
ghost use Rattle.screen_answers.specs.Answers.{told};
ghost use Rattle.screen.specs.Calls.{stepped, runs_to, ran, run_told};

// A call's number, and the place that it names, come of the paper's conditions in their order: 5 for a state outside
// its ranges, then 2 for a value above 127, at its lowest place, and else 0. A step is refused as the run over its one
// value is. After a refusal the state handed in comes back; a broken one is not read either.
pub fn each_call_gives_its_number()
    ensures runs { (s : Screen) (vs : List ℕ) → told (ran s vs).answer ≡ run_told s vs }
    ensures steps { (s : Screen) (b : ℕ) → told (stepped s b).answer ≡ run_told s (b ∷ []) }
    ensures broken { (s : Screen) → broken s ≡ true → ((b : ℕ) → stepped s b ≡ runs_to s (Err Broken))
        × ((vs : List ℕ) → ran s vs ≡ runs_to s (Err Broken))
        × ((r c : ℕ) → read_number (read s r c) ≡ 5 ∷ []) × (cursor_number (pointed s) ≡ 5 ∷ []) }
    ensures large { (s : Screen) → broken s ≡ false
        → ((b : ℕ) → 127 < b → stepped s b ≡ runs_to s (Err (TooLarge 0)))
        × ((vs : List ℕ) → first_large vs < length vs → ran s vs ≡ runs_to s (Err (TooLarge (first_large vs)))) }
{}

// Reading a cell or the cursor gives 5 exactly for a broken screen, and else 0. Read at a place of the screen, a cell is
// the one at that row and column; off the screen there is none. The cursor is read with its place, shown or hidden. Every
// cell of a fresh screen is blank.
pub fn reading_gives_the_cell_at_its_place()
    ensures numbers { (s : Screen) → ((r c : ℕ) → read_number (read s r c) ≡ cond (broken s) (5 ∷ []) (0 ∷ []))
        × (cursor_number (pointed s) ≡ cond (broken s) (5 ∷ []) (0 ∷ [])) }
    ensures cell { (s : Screen) (r c : ℕ) → broken s ≡ false → On (at r c)
        → read s r c ≡ Ok (Some (cell_at s (at r c))) }
    ensures off { (s : Screen) (r c : ℕ) → broken s ≡ false → (On (at r c) → ⊥) → read s r c ≡ Ok None }
    ensures cursor { (s : Screen) → broken s ≡ false
        → pointed s ≡ Ok (cond s.pen.shown (Shown s.pen.here.place) (Hidden s.pen.here.place)) }
    ensures anew { (x : Place) → On x → cell_at fresh_screen x ≡ blank_of }
{}

// A fresh screen is in range, and from a screen in range every step with a value of 0 to 127 gives one in range. The
// test that the calls make says exactly which screens of a thousand cells are in range. An unfinished sequence is in
// range exactly when some values of 0 to 127 lead to it from nothing unfinished.
pub fn every_step_keeps_the_range()
    ensures anew { InScreen fresh_screen }
    ensures steps { (s : Screen) → InScreen s → (b : ℕ) → b ≤ 127 → InScreen (stepped s b).screen }
    ensures tested { (s : Screen) → InScreen s → broken s ≡ false }
    ensures passed { (s : Screen) → length s.cells ≡ 1000 → broken s ≡ false → InScreen s }
    ensures opened { (q : Sequence) → (LeftOpen q → in_range q ≡ true) × (in_range q ≡ true → LeftOpen q) }
{}
