// The commands of the board: `brd fresh`, `brd on`, `brd off`, `brd ask`, `brd to local`, `brd to connected`,
// `brd line HH`, `brd key HH`, `brd socket HH`, the three that load a part (`brd rx`, `brd lnk`, `brd scr`), `brd dump`
// and `brd lines BYTES KEYBOARD MODEM SOCKET REQUESTS`. Their answers are all of one form but for `brd dump`:
// NUMBER keyboard=BYTES modem=BYTES socket=BYTES request=BYTES STATE, with used=N,N,N,N before STATE for `brd lines`.
//
// A board is larger than a screen, and a proof pays for each that a function holds: so what acts on one is small.
// piecing.rt has `brd lines`, and telling.rt writes the answers.
use crate::linking::Standard;
use crate::loading::screen_of;
use crate::piecing::lines;
use crate::receiving::state_of;
use crate::wires::links_of;
use crate::words::{Parts, Shown};
use board::{Board, Outcome};
use few::Few;
use system::Output;

// A call of the board's own.
#[derive(Clone, Copy)]
enum Call {
    On,
    Off,
    Ask,
    To(Standard),
    Line(u8),
    Key(u8),
    Socket(u8),
}

// The call that words name, behind its name.
fn call_of(name: &str, words: &mut Parts<'_>) -> Option<Call> {
    Some(match name {
        "on" => Call::On,
        "off" => Call::Off,
        "ask" => Call::Ask,
        "to" => Call::To(Standard::named(words.next()?)?),
        "line" => Call::Line(words.byte()?),
        "key" => Call::Key(words.byte()?),
        "socket" => Call::Socket(words.byte()?),
        _ => return None,
    })
}

// What comes of a call. It is made where its outcome is all that is held: a function that holds several clears each of
// them, thousands of bytes, at every command.
fn called(call: Call, now: Board) -> Outcome {
    match call {
        Call::On => now.switch_on(),
        Call::Off => now.switch_off(),
        Call::Ask => now.ask_again(),
        Call::To(Standard::Local) => now.with_local(),
        Call::To(Standard::Connected) => now.with_connected(),
        Call::Line(byte) => now.line(byte),
        Call::Key(value) => now.key(value),
        Call::Socket(value) => now.socket(value),
    }
}

// A fresh board, or one part as the words behind its name give it, and the others as they are.
fn loaded(name: &str, words: &mut Parts<'_>, now: Board) -> Option<Board> {
    let mut board = now;
    match name {
        "fresh" => board = Board::fresh(),
        "rx" => board.receiver = state_of(words)?,
        "lnk" => board.links = links_of(words)?,
        "scr" => board.screen = screen_of(words)?,
        _ => return None,
    }
    Some(board)
}

// A state that no call made is taken, and nothing is handed out.
fn taken(next: Board) -> Outcome {
    Outcome {
        next,
        answer: Ok(()),
        keyboard: Few::none(),
        modem: Few::none(),
        socket: Few::none(),
        request: Few::none(),
    }
}

// Answers a command of this family, from its second word on. None where the words are none; then the board stays as it
// is.
pub(crate) fn obey(out: &mut Output, mut words: Parts<'_>, now: &mut Board) -> Option<()> {
    match words.next()? {
        "dump" => {
            words.end()?;
            out.print(Shown(&now.screen.cells));
        }
        "lines" => lines(out, words, now)?,
        name => match call_of(name, &mut words) {
            Some(call) => {
                words.end()?;
                hand_back(out, now, called(call, *now));
            }
            None => {
                let next = loaded(name, &mut words, *now)?;
                words.end()?;
                hand_back(out, now, taken(next));
            }
        },
    }
    Some(())
}

// Tells an outcome, and keeps its board.
fn hand_back(out: &mut Output, now: &mut Board, done: Outcome) {
    out.print(Shown(&done));
    *now = done.next;
}
