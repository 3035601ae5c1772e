// The state of the links as words: the table, and what is unfinished from modem and from socket. It is read from the
// words of a command, and written as words of an answer.
use crate::words::{Parts, Shown, mark_of};
use links::Links;
use links_hearing::{Sequences, Unfinished};
use links_wiring::{Each, Table};
use std::fmt;

// What is read of each of four things: one for each module.
fn each_of<A, T: Drop, F: Fn(&A) -> Option<T>>(four: &[A], read: F) -> Option<Each<T>>
    requires { F.IsAlwaysCallable read }
{
    match four {
        [screen, keyboard, modem, socket] => Some(Each {
            screen: read(screen)?,
            keyboard: read(keyboard)?,
            modem: read(modem)?,
            socket: read(socket)?,
        }),
        _ => None,
    }
}

// TABLE: sixteen digits, four for each sender.
fn table_of(word: &str) -> Option<Table> {
    let (fours, []) = word.as_bytes().as_chunks::<4>() else {
        return None;
    };
    each_of(fours, |four| each_of(four, |digit| mark_of(*digit)))
}

// CODES.
fn unfinished_of(words: &mut Parts<'_>) -> Option<Unfinished> {
    let mut room = [0u8; 4];
    match words.bytes(&mut room)? {
        [] => Some(Unfinished::Free),
        [0x1b] => Some(Unfinished::Escape),
        [0x1b, 0x39] => Some(Unfinished::Pro1),
        [0x1b, 0x3a] => Some(Unfinished::Pro2),
        [0x1b, 0x3a, code] => Some(Unfinished::Pro2With(*code)),
        [0x1b, 0x3b] => Some(Unfinished::Pro3),
        [0x1b, 0x3b, code] => Some(Unfinished::Pro3With(*code)),
        [0x1b, 0x3b, code, next] => Some(Unfinished::Pro3Both(*code, *next)),
        _ => None,
    }
}

// TABLE MODEM SOCKET, in range or not.
pub(crate) fn links_of(words: &mut Parts<'_>) -> Option<Links> {
    Some(Links {
        table: table_of(words.next()?)?,
        unfinished: Sequences {
            modem: unfinished_of(words)?,
            socket: unfinished_of(words)?,
        },
    })
}

// The codes of an unfinished sequence so far. The bench writes them, and the marks, so too: see `Hex`.
impl fmt::Display for Shown<'_, Unfinished> {
    fn fmt<W: fmt::Write>(&self, f: &mut fmt::Formatter<W>) -> fmt::Result {
        match self.0 {
            Unfinished::Free => f.write_str("-"),
            Unfinished::Escape => f.write_str("1b"),
            Unfinished::Pro1 => f.write_str("1b39"),
            Unfinished::Pro2 => f.write_str("1b3a"),
            Unfinished::Pro2With(code) => write!(f, "1b3a{code:02x}"),
            Unfinished::Pro3 => f.write_str("1b3b"),
            Unfinished::Pro3With(code) => write!(f, "1b3b{code:02x}"),
            Unfinished::Pro3Both(code, next) => write!(f, "1b3b{code:02x}{next:02x}"),
        }
    }
}

// Whether one module's bytes reach another.
impl fmt::Display for Shown<'_, bool> {
    fn fmt<W: fmt::Write>(&self, f: &mut fmt::Formatter<W>) -> fmt::Result {
        write!(f, "{}", u8::from(*self.0))
    }
}

// A thing for each module, as the digits of a sender or of the table.
impl<'a, T> fmt::Display for Shown<'a, Each<T>>
where
    Shown<'a, T>: fmt::Display,
{
    fn fmt<W: fmt::Write>(&self, f: &mut fmt::Formatter<W>) -> fmt::Result {
        let each: &'a Each<T> = self.0;
        let screen = Shown(&each.screen);
        let keyboard = Shown(&each.keyboard);
        let modem = Shown(&each.modem);
        let socket = Shown(&each.socket);
        write!(f, "{screen}{keyboard}{modem}{socket}")
    }
}

// All of a state.
impl fmt::Display for Shown<'_, Links> {
    fn fmt<W: fmt::Write>(&self, f: &mut fmt::Formatter<W>) -> fmt::Result {
        let table = Shown(&self.0.table);
        let modem = Shown(&self.0.unfinished.modem);
        let socket = Shown(&self.0.unfinished.socket);
        write!(f, "table={table} pend_modem={modem} pend_socket={socket}")
    }
}
