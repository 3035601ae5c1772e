// The command `send`: a file of values made into blocks, the last filled up with NUL. The whole file is looked through
// first, so that nothing is written where a value is too large; then it is read again and sent. Another may write to it
// meanwhile, so what is sent last is sent only where length and checksum of both readings are the same.
use crate::checksums;
use crate::files::{Filled, fill, is_there};
use crate::texts::{Streams, Told};
use block_maker::Unmade;
use lent::first;
use std::io::{Read, Seek, SeekFrom};

// As many blocks as are written at once, their values and their bytes. A file of no more values has been read whole,
// both times, before any of it is sent.
const BLOCKS: usize = 1024;

const VALUES: usize = 15 * BLOCKS;

const BYTES: usize = 17 * BLOCKS;

// What is read of a file: how many bytes, and their checksum.
#[derive(Clone, Copy, PartialEq, Eq)]
struct Seen {
    read: u64,
    sum: u64,
}

impl Seen {
    fn nothing() -> Seen {
        Seen {
            read: 0,
            sum: checksums::EMPTY,
        }
    }

    // With these bytes after it.
    fn with(self, bytes: &[u8]) -> Seen {
        Seen {
            read: self.read.saturating_add(bytes.len() as u64),
            sum: checksums::extended(self.sum, bytes),
        }
    }
}

pub(crate) fn send<F: Read + Seek>(file: &mut F, streams: Streams) -> Result<(), Told> {
    let whole = looked_through(file, streams)?;
    file.seek(SeekFrom::Start(0))
        .map_err(|fault| streams.fail(fault))?;
    send_all(file, streams, whole)
}

// What a file holds, where it holds values, and they alone.
fn looked_through(file: &mut impl Read, streams: Streams) -> Result<Seen, Told> {
    let mut portion = [0u8; VALUES];
    let mut seen = Seen::nothing();
    // A loop is to end by itself, and what is read need not: so the portions are counted.
    for _ in 0..u64::MAX {
        let filled = fill(file, streams, &mut portion);
        let values = first(&portion, filled.count);
        are_values(streams, values, seen.read)?;
        seen = seen.with(values);
        if !filled.more? {
            break;
        }
    }
    is_there(streams, seen.read)?;
    Ok(seen)
}

// Bytes are to be values all; the first stands at this place of the file.
fn are_values(streams: Streams, bytes: &[u8], read: u64) -> Result<(), Told> {
    let at = values::first_large(bytes);
    let Some(value) = bytes.get(at) else {
        return Ok(());
    };
    let place = read.saturating_add(at as u64);
    Err(streams.complain(format_args!(
        "value {value} at place {place} is above 127; nothing is sent"
    )))
}

// Sends the values of a file, which held so much when it was looked through.
fn send_all(file: &mut impl Read, streams: Streams, whole: Seen) -> Result<(), Told> {
    let mut portion = [0u8; VALUES];
    let mut seen = Seen::nothing();
    // A loop is to end by itself, and what is read need not: so the portions are counted.
    for _ in 0..u64::MAX {
        if seen.read >= whole.read {
            break;
        }
        let filled = fill(file, streams, &mut portion);
        let values = first(&portion, filled.count);
        let before = seen.read;
        seen = seen.with(values);
        let sent = can_follow(file, streams, filled, seen, whole).and_then(|()| send_part(
            streams, values,
        ));
        streams.show_progress(before, values.len());
        sent?;
    }
    Ok(())
}

// A portion can be sent, with which so much is seen, where it is full and others follow, or where it is the last, and the
// file is the one that was looked through.
fn can_follow(
    file: &mut impl Read,
    streams: Streams,
    filled: Filled,
    seen: Seen,
    whole: Seen,
) -> Result<(), Told> {
    let more = filled.more?;
    if seen.read < whole.read {
        return is_same(streams, more);
    }
    let after = fill(file, streams, &mut [0u8; 1]);
    after.more?;
    is_same(streams, seen == whole && after.count == 0)
}

// That a file is not the same as before is a fault.
fn is_same(streams: Streams, same: bool) -> Result<(), Told> {
    if same {
        return Ok(());
    }
    Err(streams.complain("changed while it was sent"))
}

// Sends the blocks of a portion. Where a value is too large now, the file has changed.
fn send_part(streams: Streams, values: &[u8]) -> Result<(), Told> {
    let mut out = [0u8; BYTES];
    is_same(streams, make_all(values, &mut out).is_ok())?;
    streams.put(first(&out, values.len().div_ceil(15) * 17))
}

// Makes the blocks of values, one after the other.
fn make_all(values: &[u8], out: &mut [u8]) -> Result<(), Unmade> {
    for (values, block) in values.chunks(15).zip(out.chunks_exact_mut(17)) {
        block_maker::make(values, block)?;
    }
    Ok(())
}
