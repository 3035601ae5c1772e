// Parity (01: "with parity"; 001, section 5-1-2): whether a byte has an even number of ones, whether all of some bytes
// have, how many have not, and a value with parity. specs/Parity is the words; proofs/Parities has their laws: parity
// adds up like the bits do, a value with parity is even, and without it is the value again.
#![tactic(auto)]

ghost use Rattle.std.specs.Prelude.{◌≡◌};
ghost use Rattle.block_parity.specs.Parity.{even, all_even, odds, with_parity};

// Whether a byte has an even number of ones: its halves are added until one bit is left, which is 0 then. There is no
// loop over its bits, so that many bytes can be taken at once.
pub fn is_even(byte: u8) -> bool
    ensures { result ≡ even byte }
{
    let four = byte ^ byte / 16;
    let two = four ^ four / 4;
    let one = two ^ two / 2;
    one % 2 == 0
}

// Whether all of some bytes have. Each is looked at, those behind an odd one too: a loop that can end early at each byte
// keeps a compiler from taking many at once.
pub fn are_even(bytes: &[u8]) -> bool
    ensures { result ≡ all_even bytes.now }
{
    bytes.iter().fold(true, |all, byte| is_even(*byte) && all)
}

// How many of some bytes have an odd number of ones. Summed, and not counted behind a filter: so a compiler can take many
// at once here too. The sum does not wrap, since there are not so many bytes.
pub fn odd_bytes(bytes: &[u8]) -> usize
    ensures { result ≡ odds bytes.now }
{
    bytes.iter().fold(
        0,
        |odd: usize, byte| odd.wrapping_add(usize::from(!is_even(*byte))),
    )
}

// A value with parity; of a byte above 127 the seven low bits count.
pub fn with_parity(value: u8) -> u8
    ensures { result ≡ with_parity value }
{
    let w = value % 128;
    if is_even(w) { w } else { w + 128 }
}
