// The block of seventeen bytes, made and read: all that a caller needs. `make`, `values`, `mend` and `with_parity` are
// handed on from where they are built; `judge` is `mend` in the form that 01 names, "A form for each place": it hands
// back the first fifteen bytes of the lent block itself. proofs/Returned ties the two ends together: what the maker
// writes the reader hands back, and what is read clean the maker writes.
#![tactic(auto)]

ghost use Rattle.std.specs.Prelude.{◌≡◌};
ghost use Rattle.block_reader.specs.Judging.{told, judged, handed, bit_named};

pub use block_maker::{make, values};
pub use block_parity::with_parity;
pub use block_reader::{Verdict, mend};

// A block judged: the verdict, and the first fifteen bytes of the lent block itself, or an empty part of it.
#[derive(Drop)]
pub struct Judged<'a> {
    pub verdict: Verdict,
    pub part: &'a mut [u8],
}

impl<'a> Judged<'a> {
    // The paper's number: a block that was mended is taken.
    pub fn number(&self) -> u8
        ensures { result ≡ (told self.now.verdict).number }
    {
        match self.verdict {
            Verdict::Clean | Verdict::Mended(_) => 0,
            Verdict::Repeat => 3,
            Verdict::WrongLength => 1,
        }
    }

    // The bit that was mended, 255 where none was.
    pub fn bit(&self) -> u8
        ensures { result ≡ bit_named (told self.now.verdict) }
    {
        match self.verdict {
            Verdict::Mended(bit) => bit,
            Verdict::Clean | Verdict::Repeat | Verdict::WrongLength => 255,
        }
    }
}

// A block judged, of any length.
pub fn judge<'a>(block: &'a mut [u8]) -> Judged<'a>
    ensures { (told result.verdict ≡ judged block.old)
        × (result.part.now ≡ handed block.old)
        × (result.part.ref_ptr ≡ block.entry.ref_ptr) }
{
    let verdict = mend(block);
    let part = match verdict {
        Verdict::Clean | Verdict::Mended(_) => &mut block[..15],
        Verdict::Repeat | Verdict::WrongLength => &mut block[..0],
    };
    Judged { verdict, part }
}
