// What the programs ask of the system: standard output, the line that tells a fault, a file's name as text, input read in
// full portions, and the program's arguments.
#![tactic(auto)]

ghost use Rattle.std.specs.Prelude.{◌≡◌, ◌≤◌, ◌++◌, ℕ, List, length, take, codes, None, Some, IsSome, IfSome, IfOk, IsUtf8, MatchResult, OnOk};
ghost use Rattle.std.specs.Io.KnownBytes.{Appends, Consumes};
ghost use Rattle.system.specs.Faults.{fault_of};

use std::env::{Env, FillError};
use std::fmt::{Display, InlineText};
use std::io::{Error, ErrorKind, Print, Read, Stdout, Write};
use std::{io, str};

// The system's number for an argument that is longer than its room.
const TOO_LONG: i32 = 36;

// Standard output, written piece by piece. From the first piece that could not be written on, nothing more is, until
// the fault is asked for.
#[derive(Drop)]
pub struct Output {
    to: Stdout,
    fault: Option<Error>,
}

impl Output {
    pub fn new(to: Stdout) -> Output
        ensures { fault_of result ≡ None }
    {
        Output { to, fault: None }
    }

    pub fn write_all(&mut self, bytes: &[u8])
        ensures { IsSome (fault_of self.old) → self.new ≡ self.old }
    {
        if self.fault.is_none() {
            self.fault = Print::write_all(&self.to, bytes).err();
        }
    }

    // A number, or any other value, as it is displayed.
    pub fn print<D: Display + Drop>(&mut self, value: D)
        ensures { IsSome (fault_of self.old) → self.new ≡ self.old }
    {
        if self.fault.is_none() {
            self.fault = self.to.print(value).err();
        }
    }

    // The fault, if there was one since it was last asked for.
    pub fn fault(&mut self) -> io::Result<()>
        ensures told { MatchResult result (λ _. fault_of self.old ≡ None) (λ fault. fault_of self.old ≡ Some fault) }
        ensures taken { fault_of self.new ≡ None }
    {
        match self.fault.take() {
            Some(fault) => Err(fault),
            None => Ok(()),
        }
    }
}

// As many bytes as a line that tells a fault may have to be written at once: a file's name of the longest, what a program
// puts before it, and what the system says.
const LINE: usize = 4096 + 160;

// A line that is put together before it is written. What does not fit is refused, so that none is written in part.
#[derive(Drop)]
struct Line {
    text: [u8; LINE],
    used: usize,
}

impl Line {
    fn text(&self) -> &[u8]
        ensures { result.now ≡ take self.now.used self.now.text }
    {
        &self.text[..self.used.min(LINE)]
    }
}

impl Write for Line {
    ghost contents = { λ line. Some (take line.used line.text) };

    fn write(&mut self, buf: &[u8]) -> io::Result<usize> {
        if self.used > LINE || buf.len() > LINE - self.used {
            return Ok(0);
        }
        let end = self.used + buf.len();
        self.text[self.used..end].copy_from_slice(buf);
        self.used = end;
        Ok(buf.len())
    }

    fn flush(&mut self) -> io::Result<()> {
        Ok(())
    }
}

// Writes a line, to standard error where a program tells a fault: what failed, as the caller names it, a colon, and what
// the system says. It is written at once, so that it does not mix with the lines of another program there; only one
// that is too long for that is written in its pieces.
pub fn fail<W: Write>(err: &mut W, what: &[u8], fault: Error) -> io::Result<()>
    ensures { OnOk result ((words : List ℕ)
        × Appends (W.contents err.old) (W.contents err.new) (what.now ++ (codes ": " ++ (words ++ codes "\n")))) }
{
    let said = InlineText::<128>::of(fault);
    let words = words(said.as_str()).as_bytes();
    let mut line = Line {
        text: [0; LINE],
        used: 0,
    };
    match tell(&mut line, what, words) {
        Ok(()) => err.write_all(line.text()),
        Err(_) => tell(err, what, words),
    }
}

// Writes the pieces of such a line.
fn tell<W: Write>(err: &mut W, what: &[u8], words: &[u8]) -> io::Result<()>
    ensures { OnOk result (Appends (W.contents err.old) (W.contents err.new) (what.now ++ (codes ": " ++ (words.now ++ codes "\n")))) }
{
    err.write_all(what)?;
    err.write_all(b": ")?;
    err.write_all(words)?;
    err.write_all(b"\n")
}

// What the system says of a fault: its words, without the number that std puts behind them.
fn words(said: &str) -> &str {
    said.split_once(" (os error ")
        .map_or(said, |(words, _)| words)
}

// A file's name as text, by which alone std opens a file.
pub fn path(name: &[u8]) -> io::Result<&str>
    ensures { MatchResult result (λ path. (path.now ≡ name.now) × IsUtf8 name.now) (λ _. ¬ (IsUtf8 name.now)) }
{
    str::from_utf8(name).map_err(|_| Error::new(ErrorKind::InvalidInput, "its name is not UTF-8"))
}

// What was read into memory: how many bytes, and the fault that ended it, where one did. A count, here and in `argument`,
// and not the part of the memory itself: `bytes` says what the memory holds after the call, and of a part that is handed
// back only a clause whose proof is written by hand would.
#[derive(Drop)]
pub struct Filled {
    pub count: usize,
    pub fault: io::Result<()>,
}

// Reads until `buf` is full, the input ends or a read fails, and puts what it reads at the start of `buf`: none of it is
// lost. A read gives as many bytes as it likes, so that no range of the library says where the next one begins.
pub fn fill<R: Read>(from: &mut R, buf: &mut [u8]) -> Filled
    ensures bound { result.count ≤ length buf.new }
    ensures bytes { Consumes (R.remaining from.old) (R.remaining from.new) (take result.count buf.new) }
{
    let mut count = 0;
    let mut fault = Ok(());
    while count < buf.len() {
        match from.read(&mut buf[count..]) {
            Ok(0) => break,
            Ok(n) => count += n,
            Err(error) => {
                fault = Err(error);
                break;
            }
        }
    }
    Filled { count, fault }
}

// The same where no fault is told: how many bytes it put at the start of `buf`.
pub fn read_full<R: Read>(from: &mut R, buf: &mut [u8]) -> usize
    ensures bound { result ≤ length buf.new }
    ensures bytes { Consumes (R.remaining from.old) (R.remaining from.new) (take result buf.new) }
{
    fill(from, buf).count
}

// Puts argument `i` at the start of `buf`: its length, none where there is no such argument, or why it is not all there.
pub fn argument(env: &impl Env, i: usize, buf: &mut [u8]) -> io::Result<Option<usize>>
    ensures { IfOk result (λ found. IfSome found (λ n. n ≤ length buf.new)) }
{
    match env.arg(i, buf) {
        Ok(n) => Ok(Some(n)),
        Err(FillError::NotPresent) => Ok(None),
        Err(FillError::TooLong) => Err(Error::from_raw_os_error(TOO_LONG)),
    }
}
