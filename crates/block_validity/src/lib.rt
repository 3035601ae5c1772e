// When seventeen bytes are a valid block, and how far valid blocks lie apart (01, "The block"; 001, section 5-1).
//
// specs/Block and specs/Changed are the words: the code bits and their remainder, validity, changed bits, the distance
// of two blocks; specs/Mending is where the change of one bit makes a block valid. proofs/ has the laws of the code, over
// all 136 bits: changing bit k changes the bit in place k and no other (Flips), the remainder is zero exactly where the
// generator divides (Powers), no two valid blocks are less than four bits apart (Alone, Distance), hits do the same to
// every valid block (Alike), which bit can mend a block (Odd) and which cannot (LastByte), and that the parity bit of
// byte 16 is bit 127 and no code bit (ParityBit). The functions are the leaves that the maker and the reader of blocks
// (crate block) are built of. Each takes any bytes.
#![tactic(auto)]

ghost use Rattle.std.specs.Prelude.{◌≡◌};
ghost use Rattle.block_validity.specs.Block.{remainder as remainder_of};
ghost use Rattle.block_validity.specs.Changed.{flip as flipped};

// The bit in place k changed; nothing, where the block has no such bit.
pub fn flip(block: &mut [u8], k: usize)
    ensures { block.new ≡ flipped k block.old }
{
    let at = k / 8;
    if at < block.len() {
        block[at] ^= 1 << (k % 8);
    }
}

// The remainder of the code bits. Byte 16 holds the powers 6 to 0 as they stand, so its bits are added to the check
// bits of the bytes before it; a block cut short has zeros for what it lacks.
pub fn remainder(block: &[u8]) -> u8
    ensures { result ≡ remainder_of block.now }
{
    if block.len() < 16 {
        return block_division::check_bits(block);
    }
    let c = block[15];
    block_division::check_bits(&block[..15]) ^ c % 128
}
