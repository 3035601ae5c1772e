// The commands of the screen: `scr fresh`, `scr byte HH`, `scr run VALUES`, `scr dump`, `scr cell ROW COLUMN` and
// `scr load CELLS CUR ATTR LAST KEPT PEND`. loading.rt reads the words of a state, and showing.rt writes them.
//
// A screen is large, and a proof pays for each that a function holds: so what acts on one is small.
use crate::loading::screen_of;
use crate::numbering::Number;
use crate::words::{OrDash, Parts, Shown};
use screen::{Ran, Refusal};
use screen_cells::Cell;
use screen_page::{Broken, Screen};
use std::fmt;
use system::Output;

// As many values as a run may have.
const LONGEST_RUN: usize = 4000;

// What comes of the words of a command, behind its name.
fn outcome(name: &str, words: &mut Parts<'_>, now: Screen) -> Option<Ran> {
    Some(match name {
        "fresh" => taken(Screen::fresh()),
        "byte" => screen::step(now, words.byte()?),
        "load" => taken(screen_of(words)?),
        _ => return None,
    })
}

// A state that no call made is taken.
fn taken(screen: Screen) -> Ran {
    Ran {
        screen,
        answer: Ok(()),
    }
}

// Answers a command of this family, from its second word on. None where the words are none; then the screen stays as it
// is.
pub(crate) fn obey(out: &mut Output, mut words: Parts<'_>, now: &mut Screen) -> Option<()> {
    match words.next()? {
        "dump" => {
            words.end()?;
            out.print(Shown(&now.cells));
        }
        "cell" => {
            let row = words.number()?;
            let column = words.number()?;
            words.end()?;
            out.print(Shown(&now.cell(row, column)));
        }
        "run" => run(out, words, now)?,
        name => {
            let done = outcome(name, &mut words, *now)?;
            words.end()?;
            let number = Number::of(done.answer);
            out.print(format_args!("{number} {}", Shown(&done.screen.pen)));
            *now = done.screen;
        }
    }
    Some(())
}

// `run VALUES`, from its values on: the place of a value too large stands in the answer too.
fn run(out: &mut Output, mut words: Parts<'_>, now: &mut Screen) -> Option<()> {
    let mut room = [0u8; LONGEST_RUN];
    let values = words.bytes(&mut room)?;
    words.end()?;
    let done = screen::run(*now, values);
    let number = Number::of(done.answer);
    let place = OrDash(match done.answer {
        Err(Refusal::TooLarge(place)) => Some(place),
        _ => None,
    });
    out.print(format_args!("{number} {place} {}", Shown(&done.screen.pen)));
    *now = done.screen;
    Some(())
}

// What reading a cell gave.
impl fmt::Display for Shown<'_, Result<Option<Cell>, Broken>> {
    fn fmt<W: fmt::Write>(&self, f: &mut fmt::Formatter<W>) -> fmt::Result {
        match self.0 {
            Ok(Some(cell)) => write!(f, "0 {}", Shown(cell)),
            Ok(None) => f.write_str("0 off"),
            Err(Broken) => f.write_str("5 -"),
        }
    }
}
