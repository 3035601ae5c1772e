// Counts what the proved judge makes of every pattern of upset bits in a block.
//
// `tally N`, with N from 1 to 4, or 4 where it is not given: for each n from 1 to N every pattern of n different upset
// bits among the 136 of seventeen zeros is judged, and a line says how many patterns there are, and how many of them
// were passed as clean, mended back to the block, mended into another block, and refused. That the same numbers hold
// for every valid block is a theorem, `one_count_holds_for_every_block` of block_demands.
#![tactic(auto)]

use block_reader::Verdict;
use std::env::Env;
use std::{fmt, io};
use system::{argument, fail};

// A line on standard error says how far the count is, each time that so many patterns are judged.
const PIECE: u64 = 1000000;

// What the patterns of so many upset bits came to. There are not as many of them as a u64 counts.
#[derive(Clone, Copy, Default)]
struct Counts {
    upset: u64,
    patterns: u64,
    clean: u64,
    back: u64,
    other: u64,
    refused: u64,
}

impl Counts {
    // Judges a block that arrived as one more pattern. The one that was sent is seventeen zeros.
    fn judge(&mut self, rt: &impl Eprint, mut block: [u8; 17]) {
        self.patterns = self.patterns.wrapping_add(1);
        let count = match block_reader::mend(&mut block) {
            Verdict::Clean => &mut self.clean,
            Verdict::Mended(_) if block == [0; 17] => &mut self.back,
            Verdict::Mended(_) => &mut self.other,
            Verdict::Repeat | Verdict::WrongLength => &mut self.refused,
        };
        *count = count.wrapping_add(1);
        if self.patterns % PIECE == 0 {
            let Counts {
                upset,
                patterns,
                ..
            } = *self;
            let _ = eprintln!(rt; ".. {patterns} patterns of {upset} upset bits judged");
        }
    }

    // Judges each block that has `left` more bits upset, different ones from bit `from` on.
    fn judge_all(&mut self, rt: &impl Eprint, block: [u8; 17], from: usize, left: u64) {
        if left == 0 {
            self.judge(rt, block);
            return;
        }
        for k in from..136 {
            let mut hit = block;
            block_validity::flip(&mut hit, k);
            self.judge_all(rt, hit, k + 1, left - 1);
        }
    }
}

impl fmt::Display for Counts {
    fn fmt<W: fmt::Write>(&self, f: &mut fmt::Formatter<W>) -> fmt::Result {
        let Counts {
            upset,
            patterns,
            clean,
            back,
            other,
            refused,
        } = *self;
        write!(f, "{upset} {patterns} {clean} {back} {other} {refused}")
    }
}

// Writes the head, and the lines for 1 to `most` upset bits.
fn write_lines<R: Print + Eprint>(rt: &R, most: u64) -> io::Result<()> {
    println!(rt; "upset patterns clean back other refused")?;
    for upset in 1..=most {
        let mut counts = Counts {
            upset,
            ..Counts::default()
        };
        counts.judge_all(rt, [0; 17], 0, upset);
        println!(rt; "{counts}")?;
    }
    Ok(())
}

// Up to how many upset bits the argument asks for; none where it is wrong.
fn wanted(rt: &impl Env) -> Option<u64> {
    let mut word = [0u8; 2];
    match (argument(rt, 1, &mut word), argument(rt, 2, &mut [0u8; 1])) {
        (Ok(None), _) => Some(4),
        (Ok(Some(1)), Ok(None)) => match word[0] {
            digit @ b'1'..=b'4' => Some((digit - b'0') as u64),
            _ => None,
        },
        _ => None,
    }
}

fn main(rt: HostRuntime) {
    let Some(most) = wanted(&rt) else {
        let _ = eprintln!(rt; "usage: tally [1 | 2 | 3 | 4]");
        return;
    };
    if let Err(fault) = write_lines(&rt, most) {
        let _ = fail(&mut rt.stderr(), b"tally: standard output", fault);
    }
}
