// The keeper's tool: plays records of line bytes, tells what the receiver made of each block, shows the page, and makes
// blocks of values, all in the format of docs/RECORD.md. Its arguments are pairs of a command and a file, obeyed in
// turn.
//
// texts.rt       what the program writes
// files.rt       files read in portions
// book.rt        what is told of each block and resumption, and the totals
// hut.rt         the board that plays a record
// rows.rt        the page as lines of text
// characters.rt  a cell's character as a point of Unicode
// records.rt     the commands that play a record, to its end
// blocks.rt      the command that makes blocks of a file of values
// checksums.rt   a number that tells two readings of a file apart
#![tactic(auto)]

mod blocks;
mod book;
mod characters;
mod checksums;
mod files;
mod hut;
mod records;
mod rows;
mod texts;

use book::Book;
use lent::first;
use std::env::Env;
use std::fs;
use std::rt::Files;
use system::{argument, path};
use texts::Streams;

// A command, by its whole word, so that one too long for the room here is none.
#[derive(Clone, Copy)]
enum Command {
    Replay,
    Show,
    Send,
}

fn command_of(word: &[u8]) -> Option<Command> {
    match word {
        b"replay" => Some(Command::Replay),
        b"show" => Some(Command::Show),
        b"send" => Some(Command::Send),
        _ => None,
    }
}

fn write_usage(streams: Streams) {
    let _ = streams.err.write_all(
        b"usage: replay (replay RECORD | show RECORD | send VALUES)...\n",
    );
}

// Obeys one command on the file that is named. One that cannot be opened gets a line on standard error.
fn obey(rt: &impl Files, streams: Streams, word: &[u8]) {
    let Some(command) = command_of(word) else {
        write_usage(streams);
        return;
    };
    match path(streams.name).and_then(|path| fs::open(rt, path)) {
        Ok(mut file) => {
            let _ = match command {
                Command::Replay => records::play(&mut file, streams, Some(Book::default())),
                Command::Show => records::play(&mut file, streams, None),
                Command::Send => blocks::send(&mut file, streams),
            };
        }
        Err(fault) => {
            let _ = streams.fail(fault);
        }
    }
}

// Obeys the pair whose command is argument `i` and whose file is argument `j`, where there is a command. One without a file
// makes a pair too, so that its fault is told; a command too long for the room here is none, as the empty word is.
fn obey_pair<R: Env + Files>(rt: &R, streams: Streams, i: usize, j: usize) -> Option<()> {
    let mut word = [0u8; 8];
    let mut path = [0u8; 4096];
    let k = argument(rt, i, &mut word).unwrap_or(Some(0))?;
    match argument(rt, j, &mut path) {
        Ok(Some(length)) => obey(rt, streams.of(first(&path, length)), first(&word, k)),
        Ok(None) => write_usage(streams),
        Err(_) => {
            let _ = streams.complain("File name too long");
        }
    }
    Some(())
}

// Obeys the pairs in turn; a loop is to end by itself, so they are counted. The bench has this loop too: what each says of
// a pair that is wrong differs.
fn main(rt: HostRuntime) {
    let streams = Streams {
        out: rt.stdout(),
        err: rt.stderr(),
        name: b"the name of a file",
    };
    for pair in 0..usize::MAX / 2 {
        if obey_pair(&rt, streams, 2 * pair + 1, 2 * pair + 2).is_none() {
            if pair == 0 {
                write_usage(streams);
            }
            break;
        }
    }
}
