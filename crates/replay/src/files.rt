// Files read in portions.
use crate::texts::{Streams, Told};
use std::io::Read;

// What reading gave: how many bytes of the portion are filled, and whether there may be more after them; where reading
// failed, that is told already. A count and not the part itself, as `system::fill` gives one.
#[derive(Clone, Copy)]
pub(crate) struct Filled {
    pub(crate) count: usize,
    pub(crate) more: Result<bool, Told>,
}

// Fills a portion, unless the file ends or reading fails before. A pipe may hand out less than is asked for, so it asks
// until all is there: then a portion of values is always so many whole blocks.
pub(crate) fn fill(file: &mut impl Read, streams: Streams, portion: &mut [u8]) -> Filled {
    let filled = system::fill(file, portion);
    let count = filled.count;
    let more = match filled.fault {
        Ok(()) => Ok(count == portion.len()),
        Err(fault) => Err(streams.fail(fault)),
    };
    Filled { count, more }
}

// An empty file, one of which no bytes are read, is a fault.
pub(crate) fn is_there(streams: Streams, read: u64) -> Result<(), Told> {
    if read == 0 {
        return Err(streams.complain("empty"));
    }
    Ok(())
}
