// The commands of the line receiver: `rx new`, `rx on`, `rx off`, `rx ask`, `rx byte HH` and
// `rx set PHASE NUMBER COUNT SEEN HELD`. Their answers are all of one form:
// NUMBER passed=VALUES modem=BYTES state=PHASE,NUMBER,COUNT,SEEN,HELD.
use crate::words::{Hex, Parts, Shown};
use lent::first;
use line_receiver::{Phase, Receiver, Stepped, answer_number, silent};
use std::fmt;
use system::Output;

// What comes of the words of a command. A state that no call made is taken, and nothing goes out.
fn outcome(words: &mut Parts<'_>, now: Receiver) -> Option<Stepped> {
    Some(match words.next()? {
        "new" => silent(Receiver::new()),
        "on" => now.switch_on(),
        "off" => now.switch_off(),
        "ask" => now.ask_again(),
        "byte" => now.step(words.byte()?),
        "set" => silent(state_of(words)?),
        _ => return None,
    })
}

// PHASE NUMBER COUNT SEEN HELD, in range or not. SEEN is part of a state in waiting alone.
pub(crate) fn state_of(words: &mut Parts<'_>) -> Option<Receiver> {
    let phase = words.number()?;
    let number = words.number()?;
    let count = words.number()?;
    let seen = words.number()?;
    let held = words.array::<17>()?;
    let phase = match phase {
        0 => Phase::Off,
        1 => Phase::Collecting,
        2 => Phase::Waiting(seen),
        _ => return None,
    };
    Some(Receiver {
        held,
        count: usize::from(count),
        number,
        phase,
    })
}

// Answers a command of this family, from its second word on. None where the words are none; then the receiver stays as
// it is.
pub(crate) fn obey(out: &mut Output, mut words: Parts<'_>, now: &mut Receiver) -> Option<()> {
    let done = outcome(&mut words, *now)?;
    words.end()?;
    out.print(Shown(&done));
    *now = done.next;
    Some(())
}

// What a call handed back.
impl fmt::Display for Shown<'_, Stepped> {
    fn fmt<W: fmt::Write>(&self, f: &mut fmt::Formatter<W>) -> fmt::Result {
        let done = self.0;
        let number = answer_number(done.answer);
        let passed = Hex(done.values.bytes());
        let modem = Hex(done.request.bytes());
        let state = Shown(&done.next);
        write!(f, "{number} passed={passed} modem={modem} state={state}")
    }
}

// PHASE,NUMBER,COUNT,SEEN,HELD. A broken state may count more bytes than there are; then all of them are shown.
impl fmt::Display for Shown<'_, Receiver> {
    fn fmt<W: fmt::Write>(&self, f: &mut fmt::Formatter<W>) -> fmt::Result {
        let r = self.0;
        let (phase, seen) = match r.phase {
            Phase::Off => (0, 0),
            Phase::Collecting => (1, 0),
            Phase::Waiting(seen) => (2, seen),
        };
        let held = Hex(first(&r.held, r.count));
        write!(f, "{phase},{},{},{seen},{held}", r.number, r.count)
    }
}
