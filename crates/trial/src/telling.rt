// What the board hands back as words of an answer: what goes out to keyboard, modem and socket, the receiver's request
// to the modem, and the state after the call.
use crate::numbering::Number;
use crate::words::{Hex, Shown};
use board::{Board, Outcome};
use std::fmt;

// The bytes that go out.
#[derive(Drop)]
pub(crate) struct Handed<'a> {
    pub(crate) keyboard: &'a [u8],
    pub(crate) modem: &'a [u8],
    pub(crate) socket: &'a [u8],
    pub(crate) request: &'a [u8],
}

impl fmt::Display for Handed<'_> {
    fn fmt<W: fmt::Write>(&self, f: &mut fmt::Formatter<W>) -> fmt::Result {
        let keyboard = Hex(self.keyboard);
        let modem = Hex(self.modem);
        let socket = Hex(self.socket);
        let request = Hex(self.request);
        write!(
            f,
            "keyboard={keyboard} modem={modem} socket={socket} request={request}"
        )
    }
}

// All of a state but the cells.
impl fmt::Display for Shown<'_, Board> {
    fn fmt<W: fmt::Write>(&self, f: &mut fmt::Formatter<W>) -> fmt::Result {
        let receiver = Shown(&self.0.receiver);
        let links = Shown(&self.0.links);
        let pen = Shown(&self.0.screen.pen);
        write!(f, "rx={receiver} {links} {pen}")
    }
}

// What a call handed back.
impl fmt::Display for Shown<'_, Outcome> {
    fn fmt<W: fmt::Write>(&self, f: &mut fmt::Formatter<W>) -> fmt::Result {
        let done = self.0;
        let number = Number::of(done.answer);
        let handed = Handed {
            keyboard: done.keyboard.bytes(),
            modem: done.modem.bytes(),
            socket: done.socket.bytes(),
            request: done.request.bytes(),
        };
        let state = Shown(&done.next);
        write!(f, "{number} {handed} {state}")
    }
}
