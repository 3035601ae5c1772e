// The command `brd lines BYTES KEYBOARD MODEM SOCKET REQUESTS`: a piece of the line, with four outputs.
use crate::numbering::Number;
use crate::telling::Handed;
use crate::words::{LARGEST, Parts, Shown};
use board::Board;
use board_pieces::Outputs;
use system::Output;

// Answers the command, from its bytes on. None where the words are none; then the board stays as it is. The outputs'
// bytes are ee before the call, so that untouched ones show.
pub(crate) fn lines(out: &mut Output, mut words: Parts<'_>, now: &mut Board) -> Option<()> {
    let mut piece = [0u8; LARGEST];
    let mut keyboard = [0xeeu8; LARGEST];
    let mut modem = [0xeeu8; LARGEST];
    let mut socket = [0xeeu8; LARGEST];
    let mut requests = [0xeeu8; LARGEST];
    let piece = words.bytes(&mut piece)?;
    let keyboard = keyboard.get_mut(..words.size()?)?;
    let modem = modem.get_mut(..words.size()?)?;
    let socket = socket.get_mut(..words.size()?)?;
    let requests = requests.get_mut(..words.size()?)?;
    words.end()?;
    let outputs = Outputs {
        keyboard,
        modem,
        socket,
        requests,
    };
    hear(out, now, piece, outputs);
    Some(())
}

// The call, and what it handed back: all bytes of each output, and how many the piece wrote to each.
fn hear(out: &mut Output, now: &mut Board, piece: &[u8], mut outputs: Outputs<'_>) {
    let done = board_pieces::lines(*now, piece, &mut outputs);
    let Outputs {
        keyboard,
        modem,
        socket,
        requests,
    } = outputs;
    let number = Number::of(done.answer);
    let handed = Handed {
        keyboard,
        modem,
        socket,
        request: requests,
    };
    out.print(format_args!(
        "{number} {handed} used={},{},{},{} {}",
        done.used.keyboard,
        done.used.modem,
        done.used.socket,
        done.used.requests,
        Shown(&done.next)
    ));
    *now = done.next;
}
