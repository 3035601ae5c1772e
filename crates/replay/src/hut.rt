// The board that plays a record: fresh, its receiver switched on and its links connected. Everything that touches a
// board is here.
use crate::texts::{Streams, Told};
use board::Board;
use board_pieces::{Outputs, Refusal};

// As many bytes as surely suffice for a piece, so that it is not heard for room first: with at most sixteen bytes held
// before it, it brings at most sixteen values more than it has bytes, and no value sends more than five. The bench has the
// same, and begins its board so: these two lines are no shorter by another crate.
pub(crate) const ROOM: usize = 5 * (4096 + 16);

// A board, how many bytes it has heard, and how many its links have handed out.
#[derive(Clone, Copy)]
pub(crate) struct Play {
    pub(crate) board: Board,
    pub(crate) read: u64,
    pub(crate) keyboard: u64,
    pub(crate) modem: u64,
    pub(crate) socket: u64,
}

impl Play {
    pub(crate) fn begun() -> Play {
        let on = Board::fresh().switch_on().next;
        Play {
            board: on.with_connected().next,
            read: 0,
            keyboard: 0,
            modem: 0,
            socket: 0,
        }
    }

    // Takes a piece from the line, of at most 4,096 bytes, with the requests that come of it and a note of each byte. One
    // that is not taken is told, and counts as not heard.
    pub(crate) fn hear(
        &mut self,
        streams: Streams,
        piece: &[u8],
        requests: &mut [u8],
        notes: &mut [u8],
    ) -> Result<(), Told> {
        let mut keyboard = [0u8; ROOM];
        let mut modem = [0u8; ROOM];
        let mut socket = [0u8; ROOM];
        let mut outputs = Outputs {
            keyboard: &mut keyboard,
            modem: &mut modem,
            socket: &mut socket,
            requests,
        };
        let heard = board_pieces::lines_noted(self.board, piece, &mut outputs, notes);
        let count = piece.len();
        let place = self.read;
        match heard.answer {
            Ok(()) => {}
            Err(Refusal::NoRoom) => {
                return Err(streams.complain(format_args!(
                    "there is no room for what the {count} bytes from place {place} yield; they are not played"
                )));
            }
            Err(Refusal::Broken) => {
                return Err(streams.complain(format_args!(
                    "the board is broken; the {count} bytes from place {place} are not played"
                )));
            }
        }
        *self = Play {
            board: heard.next,
            read: place.saturating_add(count as u64),
            keyboard: self.keyboard.saturating_add(heard.used.keyboard as u64),
            modem: self.modem.saturating_add(heard.used.modem as u64),
            socket: self.socket.saturating_add(heard.used.socket as u64),
        };
        Ok(())
    }
}
