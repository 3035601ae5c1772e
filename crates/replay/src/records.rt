// The commands that play a record: `replay` tells it, and `show` shows its page alone.
use crate::book::{Book, Portion};
use crate::files::{fill, is_there};
use crate::hut::{Play, ROOM};
use crate::rows::{write_cursor, write_rows};
use crate::texts::{Streams, Told};
use lent::first;
use std::io::Read;

// Plays a record to its end, or until reading it fails or the board refuses it; what was played before is told all the
// same. It is entered in a book where it is to be told.
pub(crate) fn play(
    file: &mut impl Read,
    streams: Streams,
    mut book: Option<Book>,
) -> Result<(), Told> {
    let mut portion = [0u8; 4096];
    let mut play = Play::begun();
    let mut more = Ok(true);
    // A loop is to end by itself, and what is read need not: so the portions are counted.
    for _ in 0..u64::MAX {
        let Ok(true) = more else {
            break;
        };
        let filled = fill(file, streams, &mut portion);
        let piece = first(&portion, filled.count);
        streams.show_progress(play.read, piece.len());
        more = match play_portion(&mut play, &mut book, streams, piece)? {
            Heard::Taken => filled.more,
            Heard::Refused => Err(Told),
        };
    }
    if more.is_err() && play.read == 0 {
        return Err(Told);
    }
    tell_end(streams, more.is_ok(), book, &play)
}

// What the board made of a portion; where it refused one, that is told already.
#[derive(Clone, Copy)]
enum Heard {
    Taken,
    Refused,
}

// Plays a portion, and enters it in the book: whether the board took it, or Told alone where what is told of it could not
// be written, so that nothing more is told of the record.
fn play_portion(
    play: &mut Play,
    book: &mut Option<Book>,
    streams: Streams,
    piece: &[u8],
) -> Result<Heard, Told> {
    let mut requests = [0u8; ROOM];
    let mut notes = [0u8; 4096];
    let receiver = play.board.receiver;
    let heard = play.hear(streams, piece, &mut requests, &mut notes);
    if heard.is_err() {
        return Ok(Heard::Refused);
    }
    if let Some(book) = book {
        let portion = Portion {
            held: &receiver.held,
            bytes: piece,
            notes: first(&notes, piece.len()),
            requests: &requests,
        };
        book.enter_all(streams, portion)?;
    }
    Ok(Heard::Taken)
}

// What is told at a record's end, or where it was left. One that ends inside a block is not whole.
fn tell_end(streams: Streams, whole: bool, book: Option<Book>, play: &Play) -> Result<(), Told> {
    is_there(streams, play.read)?;
    let told = match book {
        Some(book) => tell(streams, book, play),
        None => write_rows(streams, &play.board.screen, true),
    };
    let held = play.board.receiver.count as u64;
    if whole && held > 0 {
        let place = play.read.saturating_sub(held);
        return Err(streams.complain(format_args!(
            "ends inside a block: {held} of its 17 bytes, from place {place}"
        )));
    }
    told
}

// The totals, the page and its cursor.
fn tell(streams: Streams, book: Book, play: &Play) -> Result<(), Told> {
    book.tell_totals(streams, play)?;
    write_rows(streams, &play.board.screen, false)?;
    write_cursor(streams, &play.board.screen)
}
