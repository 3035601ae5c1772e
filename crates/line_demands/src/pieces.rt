// Many bytes of the line at a time, and the notes on them.
ghost use Rattle.std.specs.Prelude.{◌≡◌, List, [], ◌∷◌, ◌++◌, map, ℕ, ◌+◌, ◌≤◌, ◌<◌, length};
ghost use Rattle.line_phases.specs.declared.Phase.TheVariants.{Off, Collecting};
ghost use Rattle.block_reader.specs.declared.Verdict.TheVariants.{Mended};
ghost use Rattle.line_receiver.specs.declared.Receiver.{Receiver};
ghost use Rattle.line_receiver.specs.States.{emptied};
ghost use Rattle.line_receiver.specs.Runs.{byte, run};
ghost use Rattle.line_turns.specs.Card.{recorded, noted_down};
ghost use Rattle.line_turns.specs.Notes.{verdict_note, notes_of};
ghost use Rattle.line_turns.specs.Turns.{turn_of, TakenSingly};

// Whatever the receiver is, a turn takes some of the bytes that are there, and comes to what these come to one by one:
// the receiver behind them, the values that they pass on, the bytes that they ask, and the note on each. Where a stretch
// begins and its seventeen bytes are there, it takes them all; where no bytes are there it takes none, and the receiver
// stays.
pub fn a_turn_is_its_bytes_one_by_one()
    ensures taken_singly { (r : Receiver) (xs : List ℕ) → length r.held ≡ 17 → 0 < length xs
        → TakenSingly r xs (turn_of r xs) }
    ensures whole { (x : ℕ) (xs : List ℕ) → x < 16 → 17 ≤ length xs
        → (turn_of (emptied x Collecting) xs).took ≡ 17 }
    ensures none { (r : Receiver) → ((turn_of r []).took ≡ 0) × ((turn_of r []).stepped.next ≡ r) }
{}

// There is one note for each byte, and however a record is cut, the notes on its parts are those on the whole. Those on
// a record that has all there can be are written out, byte by byte (specs/Card of the crate `line_turns`); that on a
// mended block tells its bit; and while off nothing is noted.
pub fn the_notes_say_what_each_byte_was()
    ensures xs_len { (r : Receiver) (xs : List ℕ) → length (notes_of r xs) ≡ length xs }
    ensures cut { (r : Receiver) (xs ys : List ℕ)
        → notes_of r (xs ++ ys) ≡ notes_of r xs ++ notes_of (run r (map byte xs)) ys }
    ensures card { notes_of (emptied 0 Collecting) recorded ≡ noted_down }
    ensures bit { (k : ℕ) → k < 128 → verdict_note (Mended k) ≡ 128 + k }
    ensures off { notes_of (emptied 0 Off) (65 ∷ 200 ∷ []) ≡ 0 ∷ 0 ∷ [] }
{}
