// Demand 2 on the screen: what a value of 0 to 127 does to a screen in range. `advanced s b` is the screen that `step`
// hands back there.
ghost use Rattle.std.specs.Prelude.{◌≡◌, Some, None, true, false, cond, List, ◌⊎◌, ℕ, ◌-◌, ◌/◌, ◌≤◌, ◌<◌, eqb};
ghost use Rattle.screen_cursor.specs.declared.Place.{Place};
ghost use Rattle.screen_cursor.specs.Places.{at, On};
ghost use Rattle.screen_motion.specs.Moves.{right_of};
ghost use Rattle.screen_sequences.specs.declared.Sequence.TheVariants.{Free, Separator, Repeat, Single};
ghost use Rattle.screen_cells.specs.declared.Character.{Character};
ghost use Rattle.screen_cells.specs.Characters.{character, takes};
ghost use Rattle.screen_cells.specs.Cells.{blank_of};
ghost use Rattle.screen_attributes.specs.Attributing.{Upright};
ghost use Rattle.screen_writing.specs.Having.{Has, AlikeButZone};
ghost use Rattle.screen_planning.specs.Planning.{ordered};
ghost use Rattle.screen_planning.specs.Grounds.{fate, outcome};
ghost use Rattle.screen_planning.specs.Lasts.{last_after};
ghost use Rattle.screen_planning.specs.Naming.{Names};
ghost use Rattle.screen_planning.specs.Reach.{writes, clears};
ghost use Rattle.screen_page.specs.declared.Screen.{Screen};
ghost use Rattle.screen_page.specs.Pages.{fresh_screen, cell_at};
ghost use Rattle.screen_page.specs.Ranges.{InScreen};
ghost use Rattle.screen_answers.specs.Answers.{Taken};
ghost use Rattle.screen.specs.Screens.{written, written_times, advanced, advanced_by};
ghost use Rattle.screen.specs.Calls.{runs_to, stepped, ran};
ghost use Rattle.screen.specs.Claims.{onwards, Among, ended, addressing, Starts};

// Only three things change a cell: a code from 2/0 with nothing unfinished or after SS2, at most the cursor's cell; n
// after REP, at most the first n minus 64 places from the cursor in writing order; and FF with no SEP open, which keeps
// row 0 and blanks every other cell. Every other cell, by row and column, is what it was.
pub fn only_characters_and_ff_change_a_cell()
    ensures steps { (s : Screen) → InScreen s → (b : ℕ) → b ≤ 127 → stepped s b ≡ runs_to (advanced s b) Taken }
    ensures others { (s : Screen) → InScreen s → (b : ℕ) (x : Place) → On x
        → clears s.pen.sequence b ≡ false
        → (Among x (onwards (writes s.pen.sequence b) s.pen.here.place) → ⊥)
        → cell_at (advanced s b) x ≡ cell_at s x }
    ensures blanks { (s : Screen) → InScreen s → (b : ℕ) (x : Place) → On x
        → clears s.pen.sequence b ≡ true
        → cell_at (advanced s b) x ≡ cond (eqb x.row 0) (cell_at s x) blank_of }
{}

// With nothing unfinished, a code from 2/0 is one character of the current set, at the cursor's place; after SS2 it is
// one of G2, and a code of column 4 none. The cell of a character has it, the ink, flash and inverse in force, and the
// ground in force with it; the cursor goes right, and of the attributes only what is serial can change. REP n, n from
// 4/0, is n minus 64 such characters, one after the other: the last one written, its own set and code, with the
// attributes of the moment, so that each of the first n minus 64 places from the cursor holds it. With no last
// character, or n from 2/0 to 3/F, the sequence ends and nothing else happens.
pub fn rep_is_single_characters()
    ensures one { (s : Screen) (b : ℕ) → s.pen.sequence ≡ Free → 32 ≤ b
        → advanced s b ≡ written s (character s.pen.here.attributes.set b) }
    ensures second { (s : Screen) (b : ℕ) → s.pen.sequence ≡ Single → 32 ≤ b
        → ((b / 16 ≡ 4 → ⊥) → advanced s b ≡ written (ended s) (character 2 b))
        × (b / 16 ≡ 4 → advanced s b ≡ ended s) }
    ensures there { (s : Screen) (c : Character) → InScreen s
        → Has (cell_at (written s c) s.pen.here.place) c s.pen.here.attributes
        (written s c).pen.here.attributes.zone.ground }
    ensures leaves { (s : Screen) (c : Character) → ((written s c).pen.here.place ≡ right_of s.pen.here.place)
        × ((written s c).pen.last ≡ Some c)
        × AlikeButZone s.pen.here.attributes (written s c).pen.here.attributes }
    ensures again { (s : Screen) (c : Character) (n : ℕ) → s.pen.sequence ≡ Repeat → s.pen.last ≡ Some c
        → 64 ≤ n → advanced s n ≡ written_times (ended s) c (n - 64) }
    ensures each { (s : Screen) (c : Character) (n : ℕ) (x : Place) → InScreen s → s.pen.sequence ≡ Repeat
        → s.pen.last ≡ Some c → 64 ≤ n → Among x (onwards (n - 64) s.pen.here.place)
        → Has (cell_at (advanced s n) x) c s.pen.here.attributes
        (advanced s n).pen.here.attributes.zone.ground }
    ensures never { (s : Screen) (n : ℕ) → s.pen.sequence ≡ Repeat → s.pen.last ≡ None → 64 ≤ n
        → advanced s n ≡ ended s }
    ensures low { (s : Screen) (n : ℕ) → s.pen.sequence ≡ Repeat → 32 ≤ n → n < 64
        → advanced s n ≡ ended s }
{}

// The last character is changed by a written character alone, and then is that one: REP writes it, and leaves it. Only a
// fresh screen has none: once there is one, no call leaves none.
pub fn only_a_written_character_becomes_the_last()
    ensures last { (s : Screen) (b : ℕ) → (advanced s b).pen.last ≡ last_after s.pen (ordered s.pen b) }
    ensures anew { fresh_screen.pen.last ≡ None }
    ensures stays { (s : Screen) → (s.pen.last ≡ None → ⊥)
        → ((b : ℕ) → (stepped s b).screen.pen.last ≡ None → ⊥)
        × ((vs : List ℕ) → (ran s vs).screen.pen.last ≡ None → ⊥) }
{}

// FF and RS, not after SEP, give row 1, column 1 and the start attributes, none waiting, and end what was unfinished;
// what is kept, the last character and whether the cursor is shown stay. RS leaves every cell.
pub fn ff_and_rs_start_at_row_1()
    ensures ff { (s : Screen) → (s.pen.sequence ≡ Separator → ⊥)
        → Starts s (advanced s 12) (at 1 1) × ((advanced s 12).pen.kept ≡ s.pen.kept) }
    ensures rs { (s : Screen) → (s.pen.sequence ≡ Separator → ⊥)
        → Starts s (advanced s 30) (at 1 1) × ((advanced s 30).pen.kept ≡ s.pen.kept)
        × ((advanced s 30).cells ≡ s.cells) }
{}

// US and two codes, not after SEP, NULs between them or not. Where they name a place, row r minus 64 in 0 to 24 and
// column c minus 64 in 1 to 40, the cursor is there with the start attributes, none waiting, and no cell changes; what
// is kept stays unless they name row 0. Where they name none, nothing changes but that the sequence is ended.
pub fn us_starts_at_its_place_or_changes_nothing()
    ensures good { (s : Screen) (i j r c : ℕ) → (s.pen.sequence ≡ Separator → ⊥) → Names r c
        → let t = advanced_by s (addressing i j r c) in
        Starts s t (at (r - 64) (c - 64)) × (t.cells ≡ s.cells) }
    ensures kept { (s : Screen) (i j r c : ℕ) → (s.pen.sequence ≡ Separator → ⊥) → Names r c → 65 ≤ r
        → (advanced_by s (addressing i j r c)).pen.kept ≡ s.pen.kept }
    ensures bad { (s : Screen) (i j r c : ℕ) → (s.pen.sequence ≡ Separator → ⊥) → 32 ≤ r → 32 ≤ c
        → (Names r c → ⊥) → advanced_by s (addressing i j r c) ≡ ended s }
{}

// NUL changes nothing in any state. Any other C0 code inside a sequence acts as it would with nothing unfinished,
// except after SEP, which drops one code, whatever it is.
pub fn a_c0_code_ends_a_sequence()
    ensures nul { (s : Screen) → advanced s 0 ≡ s }
    ensures ended { (s : Screen) (b : ℕ) → (s.pen.sequence ≡ Separator → ⊥) → 1 ≤ b → b ≤ 31
        → advanced s b ≡ advanced (ended s) b }
    ensures separated { (s : Screen) (b : ℕ) → s.pen.sequence ≡ Separator → 1 ≤ b
        → advanced s b ≡ ended s }
{}

// What becomes of the ground in force and of one that waits, by what the value orders: a character that takes a ground
// puts what waits, if any does, in force, and none waits then; ESC 5/x makes x wait; FF, RS and a good US give ground 0,
// none waiting; LF in row 0 brings back what was kept; every other value leaves both. A G0 space or any G1 character
// takes a ground, and nothing else does.
pub fn a_waiting_ground_has_one_fate()
    ensures fate { (s : Screen) (b : ℕ)
        → (advanced s b).pen.here.attributes.zone ≡ outcome s.pen (fate s.pen (ordered s.pen b)) }
    ensures takers { (c : Character) → takes c ≡ true → (c.set ≡ 1) ⊎ ((c.set ≡ 0) × (c.code ≡ 32)) }
    ensures taken { ((d : ℕ) → takes (character 1 d) ≡ true) × (takes (character 0 32) ≡ true) }
{}

// While G1 is current, inverse is off in the attributes in force, and so in those kept: it is so on a fresh screen, and
// every call leaves it so, whatever the values. A cell of G1 can be inverse: REP writes a mosaic with the attributes of
// the moment.
pub fn the_attributes_of_g1_are_never_inverse()
    ensures anew { Upright fresh_screen.pen.here.attributes × Upright fresh_screen.pen.kept.attributes }
    ensures steps { (s : Screen) (b : ℕ)
        → Upright s.pen.here.attributes × Upright s.pen.kept.attributes
        → Upright (stepped s b).screen.pen.here.attributes × Upright (stepped s b).screen.pen.kept.attributes }
    ensures runs { (s : Screen) (vs : List ℕ)
        → Upright s.pen.here.attributes × Upright s.pen.kept.attributes
        → Upright (ran s vs).screen.pen.here.attributes × Upright (ran s vs).screen.pen.kept.attributes }
{}
