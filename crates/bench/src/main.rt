// What `./hut bench` measures: a record is read in portions, and one part of the board, or the whole path, takes them.
// At its end a mode prints its counts and the state that it came to, in the words of the peer, docs/src/peer.rs, so
// that any difference shows. Its arguments are pairs of a mode and a file, obeyed in turn: `read`, `judge`, `receiver`,
// `links`, `screen` and `path`; with `write-` before the last five, everything that is handed out is written too, in
// order; `memory` writes the line of a process's status that has its peak memory.
//
// portions.rt   files read in portions, and what a part of the board is to them
// judging.rt    the judge, and the counts of verdicts
// receiving.rt  the receiver
// linking.rt    the links
// screening.rt  the screen
// boarding.rt   the whole path
// states.rt     the states of receiver and links as text
// pages.rt      the state of a screen as text
// memory.rt     the peak memory of a process
// texts.rt      bytes as text
#![tactic(auto)]

mod boarding;
mod judging;
mod linking;
mod memory;
mod pages;
mod portions;
mod receiving;
mod screening;
mod states;
mod texts;

use boarding::Boarding;
use judging::Judging;
use lent::{first, is, past};
use linking::Linking;
use portions::{Reading, play};
use receiving::Receiving;
use screening::Screening;
use std::env::Env;
use std::fs;
use std::fs::Files;
use std::io::{Error, Print, Read, Stderr};
use system::{Output, argument, fail, path};

// What the program writes to. The trial has the same two: what is done with them differs, so that a type for both would
// be two names.
#[derive(Drop)]
struct Streams {
    out: Output,
    err: Stderr,
}

impl Streams {
    fn write_usage(&self) {
        let _ = self.err.write_all(b"usage: bench (MODE FILE)...\n");
    }

    // Tells a fault of a file, or of what else is named.
    fn tell(&mut self, what: &[u8], fault: Error) {
        let _ = self.err.write_all(b"bench: ");
        let _ = fail(&mut self.err, what, fault);
    }

    // Plays an open file by a mode.
    fn play_by(&mut self, mode: &[u8], record: &mut impl Read) {
        let out = &mut self.out;
        let writing = is(first(mode, 6), b"write-");
        let part = if writing { past(mode, 6) } else { mode };
        match part {
            b"judge" => play(Judging::default(), out, record, writing),
            b"receiver" => play(Receiving::begun(), out, record, writing),
            b"links" => play(Linking::begun(), out, record, writing),
            b"screen" => play(Screening::begun(), out, record, writing),
            b"path" => play(Boarding::begun(), out, record, writing),
            b"read" if !writing => play(Reading::default(), out, record, writing),
            b"memory" if !writing => memory::write_peak(out, record),
            _ => self.write_usage(),
        }
    }

    // Obeys one mode on the file of that name. One that cannot be opened gets a line on standard error.
    fn obey(&mut self, files: &impl Files, mode: &[u8], name: &[u8]) {
        match path(name).and_then(|path| fs::open(files, path)) {
            Ok(mut record) => self.play_by(mode, &mut record),
            Err(fault) => self.tell(name, fault),
        }
    }

    // Obeys the pair whose mode is argument `i` and whose file is argument `j`, where there is a mode. One without a file
    // makes a pair too, so that its fault is told; a mode too long for the room here is none, as the empty word is.
    fn obey_pair(&mut self, rt: &(impl Env + Files), i: usize, j: usize) -> Option<()> {
        let mut word = [0u8; 16];
        let mut path = [0u8; 4096];
        let k = argument(rt, i, &mut word).unwrap_or(Some(0))?;
        match argument(rt, j, &mut path) {
            Ok(Some(length)) => self.obey(rt, first(&word, k), first(&path, length)),
            _ => self.write_usage(),
        }
        Some(())
    }
}

// Obeys the pairs in turn; a loop is to end by itself, so they are counted. What could not be written on standard output
// is told at the end. The keeper's tool goes over its pairs in the same way; a function for both would have to be handed
// what each makes of a pair, and be no shorter.
fn main(rt: HostRuntime) {
    let mut streams = Streams {
        out: Output::new(rt.stdout()),
        err: rt.stderr(),
    };
    for pair in 0..usize::MAX / 2 {
        if streams.obey_pair(&rt, 2 * pair + 1, 2 * pair + 2).is_none() {
            if pair == 0 {
                streams.write_usage();
            }
            break;
        }
    }
    if let Err(fault) = streams.out.fault() {
        streams.tell(b"standard output", fault);
    }
}
