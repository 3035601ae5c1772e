// The trial: runs scripts of commands, one command to a line, and answers each with one line on standard output, in the
// format of docs/TRIAL.md. With file names as arguments it runs those scripts in turn, each from the start state; with
// none it reads standard input.
//
// lines.rt      a line, put together from the portions of a script
// words.rt      the words of a line, what they name, and bytes as words
// numbering.rt  the paper's number of an answer, where its part has no call that gives it
// blocks.rt     the commands of the block code
// receiving.rt  the commands of the line receiver
// screening.rt  the commands of the screen
// loading.rt    the words that name a screen's state
// showing.rt    a screen's state as words
// linking.rt    the commands of the links
// wires.rt      the words that name a state of the links, and such a state as words
// boarding.rt   the commands of the whole board; each further family of commands is such a file
// piecing.rt    its command for a piece of the line
// telling.rt    what the board hands back as words
#![tactic(auto)]

mod blocks;
mod boarding;
mod lines;
mod linking;
mod loading;
mod numbering;
mod piecing;
mod receiving;
mod screening;
mod showing;
mod telling;
mod wires;
mod words;

use board::Board;
use lent::first;
use line_receiver::Receiver;
use lines::{LONGEST, Line};
use links::Links;
use screen_page::Screen;
use std::env::Env;
use std::fs::Files;
use std::io::{Read, Stderr};
use std::{fs, io, str};
use system::{Output, argument, fail, path};
use words::Parts;

// What the commands act on.
#[derive(Drop)]
struct State {
    receiver: Receiver,
    screen: Screen,
    links: Links,
    board: Board,
}

impl State {
    // That at the start of each script.
    fn start() -> State {
        State {
            receiver: Receiver::new(),
            screen: Screen::fresh(),
            links: Links::local(),
            board: Board::fresh(),
        }
    }
}

// Answers the command that a line is. None where it is none, which one that is too long is not; then nothing is written,
// and nothing changes.
fn obey(out: &mut Output, state: &mut State, line: &[u8]) -> Option<()> {
    if line.len() > LONGEST {
        return None;
    }
    let mut words = Parts::of(str::from_utf8(line).ok()?, ' ');
    match words.next()? {
        "make" => blocks::make(out, words),
        "judge" => blocks::judge(out, words),
        "rx" => receiving::obey(out, words, &mut state.receiver),
        "scr" => screening::obey(out, words, &mut state.screen),
        "lnk" => linking::obey(out, words, &mut state.links),
        "brd" => boarding::obey(out, words, &mut state.board),
        _ => None,
    }
}

// Answers a line, `? NUMBER` where it is no command; an empty one and a remark get no answer, however long. An answer
// that could not be written is a fault.
fn answer(out: &mut Output, state: &mut State, line: &[u8], number: u64) -> io::Result<()> {
    if matches!(line.first(), None | Some(b'#')) {
        return Ok(());
    }
    if obey(out, state, line).is_none() {
        out.print(format_args!("? {number}"));
    }
    out.write_all(b"\n");
    out.fault()
}

// What ends a script before its end: it cannot be read, or an answer cannot be written.
#[derive(Drop)]
enum Fault {
    Script(io::Error),
    Output(io::Error),
}

// Answers the lines that end in a portion; what it has of the next one waits for more.
fn answer_portion(
    out: &mut Output,
    state: &mut State,
    line: &mut Line,
    portion: &[u8],
) -> io::Result<()> {
    for piece in portion.split_inclusive(|c| *c == b'\n') {
        if line.take(piece) {
            answer(out, state, line.characters(), line.number)?;
            line.clear();
        }
    }
    Ok(())
}

// Answers each line of a script. A loop is to end by itself, and what is read need not: so the portions are counted, and
// no script has more of them than a u64 counts.
fn answer_all(out: &mut Output, script: &mut impl Read) -> Result<(), Fault> {
    let mut portion = [0u8; 65536];
    let mut line = Line::empty();
    let mut state = State::start();
    for _ in 0..u64::MAX {
        let got = script.read(&mut portion).map_err(Fault::Script)?;
        if got == 0 {
            break;
        }
        answer_portion(out, &mut state, &mut line, &portion[..got]).map_err(Fault::Output)?;
    }
    answer(out, &mut state, line.characters(), line.number).map_err(Fault::Output)
}

// What the program writes to. The bench has the same two: what is done with them differs, so that a type for both would
// be two names.
#[derive(Drop)]
struct Streams {
    out: Output,
    err: Stderr,
}

impl Streams {
    // Runs one script. `name` is for error lines.
    fn run(&mut self, script: &mut impl Read, name: &[u8]) {
        let _ = match answer_all(&mut self.out, script) {
            Ok(()) => Ok(()),
            Err(Fault::Script(error)) => fail(&mut self.err, name, error),
            Err(Fault::Output(error)) => fail(&mut self.err, b"standard output", error),
        };
    }

    // Runs the script that argument `i` names, where there is one. A script that cannot be opened gets a line on standard
    // error.
    fn run_file(&mut self, rt: &(impl Env + Files), i: usize) -> Option<()> {
        let mut word = [0u8; 4096];
        let length = match argument(rt, i, &mut word) {
            Ok(found) => found?,
            Err(fault) => {
                let _ = fail(&mut self.err, b"the name of a script", fault);
                return Some(());
            }
        };
        let name = first(&word, length);
        match path(name).and_then(|path| fs::open(rt, path)) {
            Ok(mut script) => self.run(&mut script, name),
            Err(fault) => {
                let _ = fail(&mut self.err, name, fault);
            }
        }
        Some(())
    }
}

// Runs the scripts that the arguments name, or standard input where there are none. A loop is to end by itself, so the
// arguments are counted.
fn main(rt: HostRuntime) {
    let mut streams = Streams {
        out: Output::new(rt.stdout()),
        err: rt.stderr(),
    };
    for i in 1..usize::MAX {
        if streams.run_file(&rt, i).is_none() {
            if i == 1 {
                streams.run(&mut rt.stdin(), b"standard input");
            }
            break;
        }
    }
}
