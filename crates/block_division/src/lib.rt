// Division by the generator x^7 + x^3 + 1, over bits (01, "The block"; 001, section 5-1-3).
//
// specs/Division says what long division of a row of bits leaves, in the way it is done on paper. specs/Polynomials
// says what it means for the generator to divide, with no division in it; proofs/Divides ties the two together.
// `check_bits` gives the seven check bits of some bytes, which is all that the maker and the reader of blocks ask of
// this crate. It takes a byte in one step: the check bits so far are added to it, and a table has what that leaves
// (specs/Table; why one entry is enough, proofs/Entering).
#![tactic(auto)]

ghost use Rattle.std.specs.Prelude.{◌≡◌};
ghost use Rattle.block_division.specs.Division.{check_bits};
ghost use Rattle.block_division.specs.Table.{mirrored};

mod remainders;

use remainders::REMAINDERS;

// Seven bits the other way round.
fn mirror(c: u8) -> u8
    ensures { result ≡ mirrored c }
{
    c.reverse_bits() >> 1
}

// The check bits of some bytes: what their polynomial times x^7 leaves. Weight 1 of a byte has its highest power, so
// the check bits are kept mirrored on the way. The table is lent: a constant that is taken by value is laid out in memory
// at each call.
pub fn check_bits(bytes: &[u8]) -> u8
    ensures { result ≡ check_bits bytes.now }
{
    let table = &REMAINDERS;
    let mut m: u8 = 0;
    for byte in bytes {
        m = table[usize::from(m ^ *byte)];
    }
    mirror(m)
}
