// What the program writes. A line on standard error that tells a fault begins with the program's name, and one that says
// how far a file is with two dots. None begins with a file's name, so that no name can make a fault look like the other.
use lent::{add, first};
use std::fmt::{Display, InlineText};
use std::io;
use std::io::{Error, Print, Stderr, Stdout};

// What failed is told on standard error already.
#[derive(Clone, Copy)]
pub(crate) struct Told;

// What the program writes to, and the name of what it writes of.
#[derive(Clone, Copy)]
pub(crate) struct Streams<'a> {
    pub(crate) out: Stdout,
    pub(crate) err: Stderr,
    pub(crate) name: &'a [u8],
}

// As many bytes as may be told of a file in a line on standard error, and as many as such a line may have, with a name of
// the longest.
const WORDS: usize = 140;

const LONGEST: usize = 4096 + 160;

// How far a file is between two lines that say so.
const STRIDE: u64 = 1048576;

// A byte of a name as it is shown: of a control, as a line break is one, a question mark, so that a line stays one.
fn shown(byte: u8) -> u8 {
    if byte < 32 || byte == 127 { b'?' } else { byte }
}

impl<'a> Streams<'a> {
    // The same for what has another name.
    pub(crate) fn of(self, name: &'a [u8]) -> Streams<'a> {
        Streams { name, ..self }
    }

    // Puts what a line begins with and the name, as it is shown, at the start of a text.
    fn begin(self, start: &[u8], text: &mut [u8; LONGEST]) -> usize {
        let mut used = add(start, text, 0);
        for byte in self.name {
            used = add(&[shown(*byte)], text, used);
        }
        used
    }

    // Writes a line on standard error. Where that fails, nobody can be told.
    fn say<D: Display + Drop>(self, start: &[u8], words: D) {
        let mut text = [0u8; LONGEST];
        let begun = self.begin(start, &mut text);
        let words = InlineText::<WORDS>::of(words);
        let used = add(words.as_str().as_bytes(), &mut text, begun);
        let _ = self.err.write_all(first(&text, used));
    }

    // Tells a fault of the file.
    pub(crate) fn complain<D: Display + Drop>(self, words: D) -> Told {
        self.say(b"replay: ", format_args!(": {words}\n"));
        Told
    }

    // Tells a fault of it as the system says it.
    pub(crate) fn fail(mut self, fault: Error) -> Told {
        let mut text = [0u8; LONGEST];
        let used = self.begin(b"replay: ", &mut text);
        let _ = system::fail(&mut self.err, first(&text, used), fault);
        Told
    }

    // Says how far the file is where `more` bytes after the first `before` led past a stride.
    pub(crate) fn show_progress(self, before: u64, more: usize) {
        let strides = before.saturating_add(more as u64) / STRIDE;
        if before / STRIDE != strides {
            let read = strides * STRIDE;
            self.say(b".. ", format_args!(": {read} bytes read\n"));
        }
    }

    // What is tried on standard output; a failure is told.
    fn told(self, written: io::Result<()>) -> Result<(), Told> {
        written.map_err(|fault| self.of(b"standard output").fail(fault))
    }

    // Writes a text on standard output.
    pub(crate) fn print<D: Display + Drop>(self, text: D) -> Result<(), Told> {
        self.told(self.out.print(text))
    }

    // Writes bytes there.
    pub(crate) fn put(self, bytes: &[u8]) -> Result<(), Told> {
        self.told(self.out.write_all(bytes))
    }
}

// No line that is gathered is longer.
const LINE: usize = 400;

const ROOM: usize = 4096;

// Lines gathered for standard output, so that many are written at once. Not a `Few`: its places past the bytes are 0, so
// that they would have to be cleared whenever what is gathered is written.
#[derive(Drop)]
pub(crate) struct Lines<'a> {
    streams: Streams<'a>,
    text: [u8; ROOM],
    used: usize,
}

impl<'a> Lines<'a> {
    pub(crate) fn new(streams: Streams<'a>) -> Lines<'a> {
        Lines {
            streams,
            text: [0; ROOM],
            used: 0,
        }
    }

    // Adds a line. Where it might not fit, what is gathered is written first.
    pub(crate) fn tell<D: Display + Drop>(&mut self, line: D) -> Result<(), Told> {
        if self.used > ROOM - LINE {
            self.flush()?;
        }
        let line = InlineText::<LINE>::of(line);
        self.used = add(line.as_str().as_bytes(), &mut self.text, self.used);
        Ok(())
    }

    // Writes what is gathered.
    pub(crate) fn flush(&mut self) -> Result<(), Told> {
        let used = self.used;
        self.used = 0;
        self.streams.put(first(&self.text, used))
    }
}
