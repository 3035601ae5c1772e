// Demand 2: blocks are made and read by the Minitel 1B specification. What the maker writes the reader hands back;
// a block read clean is what the maker would write.
ghost use Rattle.std.specs.Prelude.{◌≡◌, List, [], ◌∷◌, ◌++◌, ◌↔◌, ℕ, ◌+◌, ◌-◌, ◌^◌, ◌≤◌, ◌<◌, length, get_or, set, take, drop, replicate};
ghost use Rattle.std.specs.Int.Bits.{bit_xor};
ghost use Rattle.values.specs.Large.{Values};
ghost use Rattle.block_division.specs.Division.{bits, check_bits};
ghost use Rattle.block_division.specs.Polynomials.{polynomial, GeneratorDivides};
ghost use Rattle.block_division.specs.Table.{mirrored, entering};
ghost use Rattle.block_validity.specs.Block.{code_bits, remainder, Valid, Bytes};
ghost use Rattle.block_validity.specs.Changed.{flip};
ghost use Rattle.block_validity.specs.Units.{unit};
ghost use Rattle.block_maker.specs.Making.{useful, block_of, values_of, make_number, make_left};
ghost use Rattle.block_reader.specs.declared.Verdict.TheVariants.{Clean};
ghost use Rattle.block_reader.specs.Judging.{verdict, handed};

// The remainder is zero exactly when the generator x^7 + x^3 + 1 divides the code bits as a polynomial.
pub fn nothing_is_left_exactly_when_the_generator_divides()
    ensures { (B : List ℕ) → remainder B ≡ 0 ↔ GeneratorDivides (code_bits B) }
{}

// Why a table of 256 is enough: behind any bytes, one byte more leaves what it would leave alone once the check bits so
// far, mirrored, are added to it; that sum is a byte again; and mirrored twice, check bits are themselves.
pub fn a_byte_enters_the_division_in_one_step()
    ensures by_index { (B : List ℕ) (b : ℕ)
        → mirrored (check_bits (B ++ (b ∷ []))) ≡ entering (bit_xor (mirrored (check_bits B)) b) }
    ensures place { (B : List ℕ) (b : ℕ) → b < 256 → bit_xor (mirrored (check_bits B)) b < 256 }
    ensures back { (B : List ℕ) → mirrored (mirrored (check_bits B)) ≡ check_bits B }
{}

// The bit in place k of bytes 1 to 15 stands for power 126 - k; weight 2^i of byte 16, in place 120 + i, stands for
// power i.
pub fn each_code_bit_stands_for_its_power()
    ensures useful { (k : ℕ) → k < 120 → polynomial 0 (code_bits (unit k)) ≡ 2 ^ (126 - k) }
    ensures check { (i : ℕ) → i < 7 → polynomial 0 (code_bits (unit (120 + i))) ≡ 2 ^ i }
{}

// Changing bit k changes exactly the bit in place k of block order.
pub fn changing_a_bit_changes_that_bit_alone()
    ensures { (k : ℕ) (B : List ℕ) → k < 136 → length B ≡ 17
        → bits (flip k B) ≡ set (bits B) k (1 - get_or (bits B) k 0) }
{}

// Every made block is valid; judged, it is clean; handed back are the values with parity, filled up with NUL;
// without parity they are the values again. Where the maker takes the values, the first seventeen bytes of its output
// are then that block, and those behind them are as they were.
pub fn what_the_maker_writes_the_reader_hands_back()
    ensures by_index { (vs : List ℕ) → length vs ≤ 15 → Values vs
        → Valid (block_of vs) × (verdict (block_of vs) ≡ Clean)
        × (handed (block_of vs) ≡ useful vs)
        × (values_of (block_of vs) ≡ vs ++ replicate (15 - length vs) 0) }
    ensures written { (vs O : List ℕ) → make_number vs O ≡ 0
        → (take 17 (make_left vs O) ≡ block_of vs) × (drop 17 (make_left vs O) ≡ drop 17 O) }
{}

// Bytes judged clean are exactly what the maker writes for their fifteen values.
pub fn read_clean_is_what_the_maker_writes()
    ensures { (B : List ℕ) → Bytes B → verdict B ≡ Clean → B ≡ block_of (values_of B) }
{}
