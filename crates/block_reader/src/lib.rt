// The reader of blocks (01, "Judging", "Numbers given"; 001, section 5-3-4).
//
// `mend` judges a lent block in place: clean, mended with the bit that it changed, repeat, or a wrong length.
// specs/Judging says what it tells and leaves, for any bytes; nothing is asked of a caller. It is promised the long
// way round (no change, then each mendable bit in turn) and finds its bit the short way, by the remainder and the
// one byte of odd parity. proofs/Verdicts is the one door by which any judge is shown to be right, and has demand
// 3; proofs/AsZeros shows that hits are judged alike in every valid block.
#![tactic(auto)]

ghost use Rattle.std.specs.Prelude.{◌≡◌};
ghost use Rattle.block_reader.specs.Judging.{judged, left, told};
ghost use Rattle.block_reader.specs.Quick.{the_odd_one};

// No Result: 01 tells four verdicts apart, of which two are taken, and the counts and the notes have a place for each.
#[derive(Clone, Copy)]
pub enum Verdict {
    Clean,
    // The bit that was changed, 0 to 127 in block order. 127 is the parity bit of byte 16.
    Mended(u8),
    Repeat,
    WrongLength,
}

// Whether a byte is the odd one: one alone is odd, and it is this one.
fn is_the_odd_one(odd: usize, byte: u8) -> bool
    ensures { result ≡ the_odd_one odd byte }
{
    odd == 1 && !block_parity::is_even(byte)
}

// A block judged in place, of any length: the verdict, and the block as it is left. One changed bit turns the
// parity of its byte and leaves its own remainder, so it can be mended where one byte alone is odd and the
// remainder points into it. The parity bit of byte 16 leaves zero, and to it zero points. Most blocks are clean: odd
// bytes are counted only where that is not yet settled.
pub fn mend(block: &mut [u8]) -> Verdict
    ensures { (told result ≡ judged block.old)
        × (block.new ≡ left block.old) }
{
    if block.len() != 17 {
        return Verdict::WrongLength;
    }
    if block[16] != 0 {
        return Verdict::Repeat;
    }
    let r = block_validity::remainder(block);
    let even = block_parity::are_even(&block[..16]);
    if even && r == 0 {
        return Verdict::Clean;
    }
    let k = block_places::place(r);
    let odd = block_parity::odd_bytes(&block[..16]);
    let at = (k / 8) as usize;
    if !is_the_odd_one(odd, block[at]) {
        return Verdict::Repeat;
    }
    block_validity::flip(block, k as usize);
    Verdict::Mended(k)
}
