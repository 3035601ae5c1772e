// Demand 3: what is handed on is the only valid block within one changed mendable bit of what arrived; a repeat is
// asked exactly when there is none. A valid block hit once there comes back whole; hit at any two of its 136 bits it is
// refused. What more hits can do is the same for every block.
ghost use Rattle.std.specs.Prelude.{◌≡◌, false, List, [], ◌∷◌, ◌++◌, ◌↔◌, ℕ, ◌+◌, ◌%◌, ◌≤◌, ◌<◌, length, get_or, set, take, replicate};
ghost use Rattle.block_parity.specs.Parity.{even, odds};
ghost use Rattle.block_validity.specs.Block.{code_bits, remainder, Valid, Bytes};
ghost use Rattle.block_validity.specs.Changed.{turned, flip, hits, Places, NoneOf, Near, distance};
ghost use Rattle.block_validity.specs.Mending.{PointsTo, Mends};
ghost use Rattle.block_reader.specs.declared.Verdict.TheVariants.{Clean, Mended, Repeat};
ghost use Rattle.block_reader.specs.Judging.{verdict, judged, left, handed, mendable};
ghost use Rattle.block_reader.specs.Claims.{NoneNear, OnlyNear};

// What is handed on is valid, within one mendable bit of what arrived, and the only such block; the caller gets back
// its first fifteen bytes; a repeat is asked exactly when there is none.
pub fn handed_on_is_the_only_valid_block_near()
    ensures only { (B : List ℕ) → length B ≡ 17 → (verdict B ≡ Repeat → ⊥) → OnlyNear B (left B) }
    ensures part { (B : List ℕ) → (judged B).number ≡ 0 → handed B ≡ take 15 (left B) }
    ensures asked { (B : List ℕ) → length B ≡ 17 → verdict B ≡ Repeat ↔ NoneNear B }
{}

// The bits that may be mended are the 127 code bits and one more: bit 127, behind them in block order, which is weight
// 128 of byte 16, its parity bit, and no code bit. Where byte 17 is zero no other of the 136 could make a block valid.
pub fn the_mendable_bits_are_the_code_bits_and_the_parity_bit_of_byte_16()
    ensures by_index { (B : List ℕ) → length B ≡ 17 → length (code_bits B) + 1 ≡ mendable }
    ensures parity { (B : List ℕ) → length B ≡ 17
        → (flip 127 B ≡ set B 15 (turned (get_or B 15 0) 128)) × (code_bits (flip 127 B) ≡ code_bits B) }
    ensures others { (B C : List ℕ) → length B ≡ 17 → get_or B 16 0 ≡ 0
        → Near 136 B C → Valid C → Near mendable B C }
{}

// The short way, by which the judge finds its bit: a bit is mended exactly where byte 17 is zero, one of bytes 1 to 16
// alone is odd, the bit lies in it, and the remainder points to the bit, being what that bit alone leaves; and it points
// to one bit only. The parity bit of byte 16 leaves nothing: it is mended exactly where byte 16 is the odd one and the
// remainder is zero.
pub fn mended_where_the_remainder_points_into_the_one_odd_byte()
    ensures by_index { (B : List ℕ) (k : ℕ) → length B ≡ 17 → verdict B ≡ Mended k ↔ Mends k B }
    ensures one { (r j k : ℕ) → PointsTo r j → PointsTo r k → j ≡ k }
    ensures parity { (B : List ℕ) → length B ≡ 17 → verdict B ≡ Mended 127
        ↔ (get_or B 16 0 ≡ 0) × (odds (take 16 B) ≡ 1) × (even (get_or B 15 0) ≡ false) × (remainder B ≡ 0) }
{}

// A valid block hit at any one mendable bit comes back whole, to the caller too, and the verdict names that bit. Hit
// once at a bit that is not mendable it is repeated, and left as it came.
pub fn hit_once_comes_back_whole()
    ensures by_index { (W : List ℕ) (k : ℕ) → Valid W → k < mendable
        → (verdict (flip k W) ≡ Mended k) × (left (flip k W) ≡ W) × (handed (flip k W) ≡ take 15 W) }
    ensures elsewhere { (W : List ℕ) (k : ℕ) → Valid W → mendable ≤ k → k < 136
        → (verdict (flip k W) ≡ Repeat) × (left (flip k W) ≡ flip k W) }
{}

// A valid block hit at any two different bits of all 136 is refused and left as it came.
pub fn hit_twice_is_refused()
    ensures { (W : List ℕ) (i j : ℕ) → Valid W → i < 136 → j < 136 → (i ≡ j → ⊥)
        → (verdict (flip i (flip j W)) ≡ Repeat) × (left (flip i (flip j W)) ≡ flip i (flip j W)) }
{}

// A valid block hit an odd number of times, at any of its 136 bits, is never clean; hit an even number of times it is
// never mended. So three hits are mended or refused, and four are clean or refused; and hits are mended by another bit
// exactly where with that bit hit too they are clean: of four hits that are clean any three are mended by the fourth.
// That is the best that can be said: every valid block has four such bits, and four with the parity bit of byte 16 among
// them.
pub fn odd_hits_are_never_clean_even_hits_never_mended()
    ensures odd { (W ks : List ℕ) → Valid W → Places ks → length ks % 2 ≡ 1
        → verdict (hits ks W) ≡ Clean → ⊥ }
    ensures even { (W ks : List ℕ) → Valid W → Places ks → length ks % 2 ≡ 0
        → (k : ℕ) → verdict (hits ks W) ≡ Mended k → ⊥ }
    ensures fourth { (W ks : List ℕ) (k : ℕ) → Valid W → Places (k ∷ ks) → NoneOf k ks
        → verdict (hits ks W) ≡ Mended k ↔ verdict (hits (k ∷ ks) W) ≡ Clean }
    ensures reached { (W : List ℕ) → Valid W → (verdict (hits (0 ∷ 1 ∷ 90 ∷ []) W) ≡ Mended 94)
        × (verdict (hits (94 ∷ 0 ∷ 1 ∷ 90 ∷ []) W) ≡ Clean)
        × (verdict (hits (0 ∷ 3 ∷ 123 ∷ []) W) ≡ Mended 127)
        × (verdict (hits (127 ∷ 0 ∷ 3 ∷ 123 ∷ []) W) ≡ Clean) }
{}

// Any valid block hit at any bits gets the verdict of seventeen zeros hit at the same bits, and comes back whole
// exactly when they do: what is counted for the zeros is counted for every block.
pub fn one_count_holds_for_every_block()
    ensures judged { (W ks : List ℕ) → Valid W
        → verdict (hits ks W) ≡ verdict (hits ks (replicate 17 0)) }
    ensures whole { (W ks : List ℕ) → Valid W
        → left (hits ks W) ≡ W ↔ left (hits ks (replicate 17 0)) ≡ replicate 17 0 }
{}

// Two different valid blocks of bytes differ in at least four of their 136 bits. There are two that differ in just
// four: so no theorem here speaks of nothing, and four is the best that can be said.
pub fn valid_blocks_lie_four_bits_apart()
    ensures apart { (B C : List ℕ) → Bytes B → Bytes C → Valid B → Valid C → (B ≡ C → ⊥)
        → 4 ≤ distance B C }
    ensures reached { Valid (replicate 17 0)
        × Valid (3 ∷ replicate 10 0 ++ (68 ∷ replicate 5 0))
        × (distance (replicate 17 0) (3 ∷ replicate 10 0 ++ (68 ∷ replicate 5 0)) ≡ 4) }
{}
