// Files read in portions, and the parts that take them: 4,080 bytes are as many whole blocks as groups of fifteen values.
use crate::texts::sum;
use std::io::Read;
use system::{Output, read_full};

const PORTION: usize = 4080;

// A part of the board, or the whole path, at work on a record.
pub(crate) trait Part: Drop {
    // Takes a portion; all that is handed out is written where that is wanted.
    fn take(&mut self, out: &mut Output, portion: &mut [u8], writing: bool);

    // Tells its counts, and the state that it came to.
    fn tell(&self, out: &mut Output);
}

// Plays a record by a part, from the first portion to the end.
pub(crate) fn play<P: Part>(mut part: P, out: &mut Output, record: &mut impl Read, writing: bool) {
    let mut portion = [0u8; PORTION];
    // A loop is to end by itself, and what is read need not: so the portions are counted.
    for _ in 0..u64::MAX {
        let n = read_full(record, &mut portion);
        if n == 0 {
            break;
        }
        part.take(out, &mut portion[..n], writing);
    }
    part.tell(out);
}

// Removes the parity bit of each byte.
pub(crate) fn remove_parity(bytes: &mut [u8]) {
    for byte in bytes {
        *byte %= 128;
    }
}

// The mode `read`: no more than that, so that it can be taken off from the others.
#[derive(Clone, Copy, Default)]
pub(crate) struct Reading {
    bytes: u64,
}

impl Part for Reading {
    fn take(&mut self, _out: &mut Output, portion: &mut [u8], _writing: bool) {
        self.bytes = sum(self.bytes, portion.len());
    }

    fn tell(&self, out: &mut Output) {
        let bytes = self.bytes;
        out.print(format_args!("read: {bytes} bytes\n"));
    }
}
