// The mode `judge`: each seventeen bytes judged in place. The counts are the receiver's too.
use crate::portions::Part;
use crate::texts::{Hex, sum};
use block_reader::Verdict;
use std::fmt;
use system::Output;

// How many blocks came to each verdict.
#[derive(Clone, Copy, Default)]
pub(crate) struct Counts {
    clean: u64,
    mended: u64,
    repeat: u64,
    wrong_length: u64,
}

impl Counts {
    pub(crate) fn count(&mut self, verdict: Verdict) {
        match verdict {
            Verdict::Clean => self.clean = sum(self.clean, 1),
            Verdict::Mended(_) => self.mended = sum(self.mended, 1),
            Verdict::Repeat => self.repeat = sum(self.repeat, 1),
            Verdict::WrongLength => self.wrong_length = sum(self.wrong_length, 1),
        }
    }
}

impl fmt::Display for Counts {
    fn fmt<W: fmt::Write>(&self, f: &mut fmt::Formatter<W>) -> fmt::Result {
        let Counts {
            clean,
            mended,
            repeat,
            wrong_length,
        } = *self;
        write!(
            f,
            "clean {clean}, mended {mended}, repeat {repeat}, wrong length {wrong_length}"
        )
    }
}

// A verdict as text.
#[derive(Clone, Copy)]
pub(crate) struct Told(pub(crate) Verdict);

impl fmt::Display for Told {
    fn fmt<W: fmt::Write>(&self, f: &mut fmt::Formatter<W>) -> fmt::Result {
        match self.0 {
            Verdict::Clean => f.write_str("clean"),
            Verdict::Mended(bit) => write!(f, "mended {bit}"),
            Verdict::Repeat => f.write_str("repeat"),
            Verdict::WrongLength => f.write_str("wrong length"),
        }
    }
}

#[derive(Clone, Copy, Default)]
pub(crate) struct Judging {
    counts: Counts,
}

// A block of any length; the last of a portion may be short. It is written as it is left, with its verdict.
impl Part for Judging {
    fn take(&mut self, out: &mut Output, portion: &mut [u8], writing: bool) {
        for block in portion.chunks_mut(17) {
            let verdict = block_reader::mend(block);
            self.counts.count(verdict);
            if writing {
                let block = Hex(block);
                let verdict = Told(verdict);
                out.print(format_args!("{block} {verdict}\n"));
            }
        }
    }

    fn tell(&self, out: &mut Output) {
        let counts = self.counts;
        out.print(format_args!("judge: {counts}\n"));
    }
}
