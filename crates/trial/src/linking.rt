// The commands of the links: `lnk local`, `lnk connected`, `lnk to local`, `lnk to connected`, `lnk from SENDER HH` and
// `lnk set TABLE MODEM SOCKET`. Their answers are all of one form:
// NUMBER screen=BYTES keyboard=BYTES modem=BYTES socket=BYTES table=TABLE pend_modem=CODES pend_socket=CODES.
// wires.rt reads the words of a state, and writes what is in them.
use crate::numbering::Number;
use crate::wires::links_of;
use crate::words::{Hex, Parts, Shown};
use links::{Links, Outcome};
use std::fmt;
use system::Output;

// One of the two tables that the host can choose.
#[derive(Clone, Copy)]
pub(crate) enum Standard {
    Local,
    Connected,
}

impl Standard {
    // The one that a word names.
    pub(crate) fn named(word: &str) -> Option<Standard> {
        match word {
            "local" => Some(Standard::Local),
            "connected" => Some(Standard::Connected),
            _ => None,
        }
    }
}

// What comes of the words of a command.
fn outcome(words: &mut Parts<'_>, now: Links) -> Option<Outcome> {
    Some(match words.next()? {
        "to" => match Standard::named(words.next()?)? {
            Standard::Local => now.with_local(),
            Standard::Connected => now.with_connected(),
        },
        "from" => heard(words, now)?,
        "set" => taken(links_of(words)?),
        name => taken(match Standard::named(name)? {
            Standard::Local => Links::local(),
            Standard::Connected => Links::connected(),
        }),
    })
}

// SENDER HH.
fn heard(words: &mut Parts<'_>, now: Links) -> Option<Outcome> {
    let sender = words.next()?;
    let value = words.byte()?;
    match sender {
        "k" => Some(now.from_keyboard(value)),
        "m" => Some(now.from_modem(value)),
        "s" => Some(now.from_socket(value)),
        _ => None,
    }
}

// A state that no call made is taken, and nothing is sent.
fn taken(next: Links) -> Outcome {
    Outcome {
        next,
        answer: Ok(()),
        sent: links_sending::silence(),
    }
}

// Answers a command of this family, from its second word on. None where the words are none; then the links stay as they
// are. The other families have these lines too, each with its own types: a trait over them would be longer.
pub(crate) fn obey(out: &mut Output, mut words: Parts<'_>, now: &mut Links) -> Option<()> {
    let done = outcome(&mut words, *now)?;
    words.end()?;
    out.print(Shown(&done));
    *now = done.next;
    Some(())
}

// What each receiver gets, and the state.
impl fmt::Display for Shown<'_, Outcome> {
    fn fmt<W: fmt::Write>(&self, f: &mut fmt::Formatter<W>) -> fmt::Result {
        let done = self.0;
        let number = Number::of(done.answer);
        let screen = Hex(done.sent.screen.bytes());
        let keyboard = Hex(done.sent.keyboard.bytes());
        let modem = Hex(done.sent.modem.bytes());
        let socket = Hex(done.sent.socket.bytes());
        let state = Shown(&done.next);
        write!(
            f,
            "{number} screen={screen} keyboard={keyboard} modem={modem} socket={socket} {state}"
        )
    }
}
