// The words of a line, read one after the other, and what they name; bytes as a word of an answer.
//
// A word that names nothing of the kind that is asked for gives None, and so does one that is not there: then the line
// is no command.
//
// The program bench shows bytes, cells and codes by the same digits, in lines of its own. The two stay apart: this form is
// that of docs/TRIAL.md and may not change, and that one may.
ghost use Rattle.std.specs.Prelude.{◌<◌};
ghost use Rattle.std.specs.Option.{IfSome};

use std::str::Split;
use std::{fmt, str};

// As many bytes as a word of a block command may name.
pub(crate) const MOST: usize = 64;

// The largest number of the format: as many bytes as a piece of the line may have, and each of its outputs.
pub(crate) const LARGEST: usize = 600;

// What is left of a text that is read part by part, with a mark between two: words, or numbers within a word.
#[derive(Drop)]
pub(crate) struct Parts<'a>(Split<'a, char>);

impl<'a> Parts<'a> {
    // Those of a text.
    pub(crate) fn of(text: &'a str, mark: char) -> Parts<'a> {
        Parts(text.split(mark))
    }

    // The next part, whatever it is.
    pub(crate) fn next(&mut self) -> Option<&'a str> {
        self.0.next()
    }

    // There is to be no further part.
    pub(crate) fn end(&mut self) -> Option<()> {
        match self.0.next() {
            None => Some(()),
            Some(_) => None,
        }
    }

    // The number that the next part names.
    pub(crate) fn number(&mut self) -> Option<u8> {
        number(self.next()?)
    }

    // The same where it may be larger, up to LARGEST.
    pub(crate) fn size(&mut self) -> Option<usize> {
        decimal(self.next()?)
    }

    // Whether the next part is 1; it is to be 0 or 1.
    pub(crate) fn flag(&mut self) -> Option<bool> {
        match self.number()? {
            0 => Some(false),
            1 => Some(true),
            _ => None,
        }
    }

    // The bytes that the next part names, put at the start of some room; there is to be room for them.
    pub(crate) fn bytes<'b>(&mut self, room: &'b mut [u8]) -> Option<&'b mut [u8]> {
        bytes(self.next()?, room)
    }

    // The same where they are to be so many.
    pub(crate) fn array<const N: usize>(&mut self) -> Option<[u8; N]> {
        array(self.next()?)
    }

    // The one byte that the next part names.
    pub(crate) fn byte(&mut self) -> Option<u8> {
        byte(self.next()?)
    }
}

// Whether a digit is 1; it is to be 0 or 1.
pub(crate) fn mark_of(digit: u8) -> Option<bool> {
    match digit {
        b'0' => Some(false),
        b'1' => Some(true),
        _ => None,
    }
}

// What a lower-case hex digit is worth.
pub(crate) fn digit(c: u8) -> Option<u8>
    ensures { IfSome result (λ worth. worth < 16) }
{
    match c {
        b'0'..=b'9' => Some(c - b'0'),
        b'a'..=b'f' => Some(c - b'a' + 10),
        _ => None,
    }
}

// The byte that two of them name.
pub(crate) fn pair(high: u8, low: u8) -> Option<u8> {
    let high = digit(high)?;
    let low = digit(low)?;
    Some(16 * high + low)
}

// The bytes that a word names, put at the start of some room; `-` names none.
pub(crate) fn bytes<'a>(word: &str, room: &'a mut [u8]) -> Option<&'a mut [u8]> {
    if word == "-" {
        return room.get_mut(..0);
    }
    let (pairs, rest) = word.as_bytes().as_chunks::<2>();
    if pairs.is_empty() || !rest.is_empty() {
        return None;
    }
    let named = room.get_mut(..pairs.len())?;
    for (byte, two) in named.iter_mut().zip(pairs) {
        *byte = pair(two[0], two[1])?;
    }
    Some(named)
}

// The same where they are to be so many.
pub(crate) fn array<const N: usize>(word: &str) -> Option<[u8; N]> {
    let mut named = [0; N];
    if bytes(word, &mut named)?.len() < N {
        return None;
    }
    Some(named)
}

// The one byte that a word names.
pub(crate) fn byte(word: &str) -> Option<u8> {
    let [byte] = array::<1>(word)?;
    Some(byte)
}

// The decimal number that a word names, at most LARGEST.
fn decimal(word: &str) -> Option<usize> {
    if word.starts_with('+') || word.len() > 1 && word.starts_with('0') {
        return None;
    }
    word.parse::<usize>().ok().filter(|n| *n <= LARGEST)
}

// The same where it is to be a byte's.
pub(crate) fn number(word: &str) -> Option<u8> {
    u8::try_from(decimal(word)?).ok()
}

// Bytes as a word: two digits each, `-` for none. The bench writes them so too; each program keeps its own words, since
// the formats are two and nothing but their stored texts holds either.
#[derive(Drop)]
pub(crate) struct Hex<'a>(pub(crate) &'a [u8]);

// As many bytes as are spelled at once.
const AT_ONCE: usize = 64;

impl fmt::Display for Hex<'_> {
    fn fmt<W: fmt::Write>(&self, f: &mut fmt::Formatter<W>) -> fmt::Result {
        if self.0.is_empty() {
            return f.write_str("-");
        }
        for bytes in self.0.chunks(AT_ONCE) {
            let mut text = [[0; 2]; AT_ONCE];
            spell(bytes, &mut text);
            write_digits(f, text[..bytes.len().min(AT_ONCE)].as_flattened())?;
        }
        Ok(())
    }
}

// Puts the two digits of each byte into a text.
fn spell(bytes: &[u8], text: &mut [[u8; 2]]) {
    for (two, byte) in text.iter_mut().zip(bytes) {
        *two = [letter(*byte / 16), letter(*byte)];
    }
}

// The lower-case hex digit of a number's last four bits.
pub(crate) fn letter(number: u8) -> u8 {
    let worth = number % 16;
    if worth < 10 {
        b'0' + worth
    } else {
        b'a' - 10 + worth
    }
}

// Writes digits that are put together first: `write!` takes as long for each of them as for all.
pub(crate) fn write_digits<W: fmt::Write>(f: &mut fmt::Formatter<W>, digits: &[u8]) -> fmt::Result {
    f.write_str(str::from_utf8(digits).map_err(|_| fmt::Error)?)
}

// What may be there, as a word; `-` where it is not.
#[derive(Drop)]
pub(crate) struct OrDash<T>(pub(crate) Option<T>);

impl<T: fmt::Display> fmt::Display for OrDash<T> {
    fn fmt<W: fmt::Write>(&self, f: &mut fmt::Formatter<W>) -> fmt::Result {
        match &self.0 {
            Some(value) => write!(f, "{value}"),
            None => f.write_str("-"),
        }
    }
}

// A value of another crate as an answer has it.
#[derive(Drop)]
pub(crate) struct Shown<'a, T>(pub(crate) &'a T);
