// The array of the blocks kept: its ranges, one block more, the oldest gone, and those from a place on written out.
ghost use Rattle.std.specs.Prelude.{◌≡◌, ◌∷◌, ◌++◌, ◌+◌, ◌≤◌, length, drop};
ghost use Rattle.std.proofs.Math.Seq.{paste};
ghost use Rattle.line_codes.specs.Codes.{syn};
ghost use Rattle.line_sender.specs.States.{in_range};

use crate::Sender;

pub fn in_range(s: Sender) -> bool
    ensures { result ≡ in_range s }
{
    s.kept < 17 && s.next < 16
}

// The first seventeen bytes, from a place on.
pub(crate) fn put_in(old: [u8; 272], at: usize, block: &[u8]) -> [u8; 272]
    requires { (at ≤ 255) × (17 ≤ length block.now) }
    ensures { result ≡ paste old at block.now 17 }
{
    let mut blocks = old;
    blocks[at..at + 17].copy_from_slice(&block[..17]);
    blocks
}

// Seventeen places down.
pub(crate) fn shifted(old: [u8; 272]) -> [u8; 272]
    ensures { result ≡ drop 17 old ++ drop 255 old }
{
    let mut blocks = old;
    blocks.copy_within(17.., 0);
    blocks
}

// SYN, SYN, the code, and these blocks.
pub(crate) fn begin_again(code: u8, blocks: &[u8], out: &mut [u8])
    requires { 3 + length blocks.now ≤ length out.old }
    ensures { out.new ≡ (syn ∷ syn ∷ code ∷ blocks.now) ++ drop (3 + length blocks.now) out.old }
{
    out[..3].copy_from_slice(&[150, 150, code]);
    out[3..3 + blocks.len()].copy_from_slice(blocks);
}
