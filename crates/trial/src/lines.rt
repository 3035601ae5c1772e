// A line of a script, put together from the portions in which the script arrives: it may begin in one and end in
// another. A line ends with LF, and the last may lack it.
use lent::{add, first};

// As many characters as a line may have, and a place more, by which a longer one is known.
pub(crate) const LONGEST: usize = 9000;

const ROOM: usize = LONGEST + 1;

// What is there of a line, and its number in the script, from 1. There is no heap, so that its characters stand in an
// array: the first `length`. Not a `Few`: its places past the bytes are 0, so that they would have to be cleared before
// each line.
#[derive(Drop)]
pub(crate) struct Line {
    room: [u8; ROOM],
    length: usize,
    pub(crate) number: u64,
}

impl Line {
    // The first of a script.
    pub(crate) fn empty() -> Line {
        Line {
            room: [0; ROOM],
            length: 0,
            number: 1,
        }
    }

    // Adds what a portion has of it, up to its end: whether that is there.
    pub(crate) fn take(&mut self, piece: &[u8]) -> bool {
        let rest = piece.strip_suffix(b"\n").unwrap_or(piece);
        self.length = add(rest, &mut self.room, self.length);
        rest.len() < piece.len()
    }

    // Its characters, as many as there is room for.
    pub(crate) fn characters(&self) -> &[u8] {
        first(&self.room, self.length)
    }

    // The next one begins. No script has more lines than a u64 counts.
    pub(crate) fn clear(&mut self) {
        self.length = 0;
        self.number = self.number.saturating_add(1);
    }
}
