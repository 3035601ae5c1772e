// Demand 1: any bytes are taken in a finite run; whatever is wrong has its number and leaves lent memory as the
// papers say. That every call ends, stays within the memory lent to it and asks nothing of its caller is the
// checker's own verdict: every function is proved total, and no public one has a `requires`.
ghost use Rattle.std.specs.Prelude.{◌≡◌, Result, List, [], ◌∷◌, ◌⊎◌, ℕ, ◌≤◌, ◌<◌, length, get_or};
ghost use Rattle.numbers.specs.Numbers.{Conditions, number_of, GivenExactly};
ghost use Rattle.values.specs.Large.{Values, first_large};
ghost use Rattle.block_maker.specs.declared.Unmade.{Unmade};
ghost use Rattle.block_maker.specs.Making.{make_number, make_told, make_left, told as told_made};
ghost use Rattle.block_reader.specs.declared.Verdict.{Verdict};
ghost use Rattle.block_reader.specs.declared.Verdict.TheVariants.{Mended};
ghost use Rattle.block_reader.specs.Judging.{verdict, judged, left, handed, bit_named, judge_conditions};
ghost use Rattle.block_reader.specs.Judging.{told as told_verdict};

// A number is given exactly when its condition holds and none before it in the order 1, 5, 2, 4, 3 does. The
// judge's number comes of the paper's conditions: the block has not seventeen bytes, or no valid block is within
// one mendable bit. The maker's, and the place that it names, whatever the values and the output: no value or more than
// fifteen; else a value above 127, the lowest place named; else less room than seventeen; else they are taken.
pub fn each_number_is_given_exactly_when()
    ensures order { (c : Conditions) → GivenExactly c }
    ensures judging { (B : List ℕ) → (judged B).number ≡ number_of (judge_conditions B) }
    ensures long { (vs O : List ℕ) → (length vs ≡ 0) ⊎ (15 < length vs)
        → make_told vs O ≡ record { number = 1; named = [] } }
    ensures large { (vs O : List ℕ) → 0 < length vs → length vs ≤ 15
        → (p : ℕ) → p < length vs → 127 < get_or vs p 0 → ((i : ℕ) → i < p → get_or vs i 0 < 128)
        → make_told vs O ≡ record { number = 2; named = p ∷ [] } }
    ensures short { (vs O : List ℕ) → 0 < length vs → length vs ≤ 15 → Values vs → length O < 17
        → make_told vs O ≡ record { number = 4; named = [] } }
    ensures taken { (vs O : List ℕ) → 0 < length vs → length vs ≤ 15 → Values vs → 17 ≤ length O
        → make_told vs O ≡ record { number = 0; named = [] } }
{}

// The place found among any values is the lowest of one above 127; where there is none it is their number.
pub fn the_lowest_place_is_named()
    ensures by_index { (vs : List ℕ) (p : ℕ) → p < length vs → 127 < get_or vs p 0
        → ((i : ℕ) → i < p → get_or vs i 0 < 128) → first_large vs ≡ p }
    ensures none { (vs : List ℕ) → Values vs → first_large vs ≡ length vs }
{}

// A refusal leaves the maker's output as it was; it leaves the lent block as it came, and hands back an empty part.
pub fn refusals_leave_what_was_lent()
    ensures making { (vs O : List ℕ) → (make_number vs O ≡ 0 → ⊥) → make_left vs O ≡ O }
    ensures judging { (B : List ℕ) → ((judged B).number ≡ 0 → ⊥) → (left B ≡ B) × (handed B ≡ []) }
{}

// Two answers that tell the same number, and name the same place or bit, are the same: each promise is met by one
// outcome only. The bit that the judge names is the one mended, and 255 stands for none.
pub fn an_answer_is_told_in_one_way()
    ensures making { (m n : Result (Unit {0}) Unmade) → told_made m ≡ told_made n → m ≡ n }
    ensures judging { (v w : Verdict) → told_verdict v ≡ told_verdict w → v ≡ w }
    ensures bit { (B : List ℕ) → ((k : ℕ) → verdict B ≡ Mended k → bit_named (judged B) ≡ k)
        × (((k : ℕ) → verdict B ≡ Mended k → ⊥) → bit_named (judged B) ≡ 255) }
{}
