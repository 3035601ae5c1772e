// Line bytes many at a time: a board takes a piece of them, and what it hands out goes to four lent outputs.
//
// `lines` does what single calls of `line` would do one after the other, with the ranges tested once. Where an output
// lacks room for what the whole piece yields, nothing is taken and no output is touched: so where that is not certain
// beforehand, the piece is heard for it first (crate `board_front`), and then for good (crate `board_playing`).
// `lines_noted` hands out besides what each byte was to the receiver, for a night book.
// specs/Pieces says what both promise; proofs/ shows that hearing the piece comes to what single calls come to.
#![tactic(auto)]

ghost use Rattle.std.specs.Prelude.{◌≡◌, ◌&&◌, leb, length};
ghost use Rattle.board_passing.specs.Passing.{room_of, SameOutputs};
ghost use Rattle.board_pieces.specs.Pieces.{refused, lines_of, is_taken, LeftIn, left_in};
ghost use Rattle.board_pieces.specs.Noted.{noted, noted_of, is_noted};

use board::Board;
use board_front::{Front, Room};
pub use board_passing::Outputs;

// Why a piece is refused: the paper's 4 and 5.
#[derive(Clone, Copy, PartialEq, Eq)]
pub enum Refusal {
    NoRoom,
    Broken,
}

// What a call hands back, with the bytes written to each output.
#[derive(Clone, Copy)]
pub struct Passage {
    pub next: Board,
    // The paper's 0, or why the piece is refused.
    pub answer: Result<(), Refusal>,
    pub used: Room,
}

// Nothing is taken and nothing written.
fn refuse(board: Board, refusal: Refusal) -> Passage
    ensures { result ≡ refused board refusal }
{
    Passage {
        next: board,
        answer: Err(refusal),
        used: Room::none(),
    }
}

// A piece of line bytes: all of them or, where the board is broken or an output lacks room, none; and the notes on them,
// where there is a place for each. Places too few for all, or none at all, stay as they are.
fn hear_piece(board: Board, piece: &[u8], outputs: &mut Outputs<'_>, notes: &mut [u8]) -> Passage
    ensures value { result ≡ lines_of board piece.now (room_of outputs.old) }
    ensures left { LeftIn (is_taken board piece.now (room_of outputs.old)) board piece.now
        outputs.old outputs.new }
    ensures same { SameOutputs outputs.old outputs.new }
    ensures noted { notes.new
        ≡ left_in (is_taken board piece.now (room_of outputs.old) && leb (length piece.now) (length notes.old))
        (noted board piece.now) notes.old }
{
    if !board.in_range() {
        return refuse(board, Refusal::Broken);
    }
    let front = Front {
        receiver: board.receiver,
        links: board.links,
    };
    if !board_front::fits(front, piece, outputs.room()) {
        return refuse(board, Refusal::NoRoom);
    }
    let played = board_playing::play(board, piece, outputs, notes);
    Passage {
        next: played.next,
        answer: Ok(()),
        used: played.used,
    }
}

// A piece of line bytes: all of them or, where the board is broken or an output lacks room, none.
pub fn lines(board: Board, piece: &[u8], outputs: &mut Outputs<'_>) -> Passage
    ensures value { result ≡ lines_of board piece.now (room_of outputs.old) }
    ensures left { LeftIn (is_taken board piece.now (room_of outputs.old)) board piece.now
        outputs.old outputs.new }
    ensures same { SameOutputs outputs.old outputs.new }
{
    let mut unasked = [0; 0];
    hear_piece(board, piece, outputs, &mut unasked)
}

// The same, with a note on each byte at its place of `notes`: what it was to the receiver (specs/Notes of the crate
// `line_turns`). Where there are fewer places than bytes it lacks room too.
pub fn lines_noted(
    board: Board,
    piece: &[u8],
    outputs: &mut Outputs<'_>,
    notes: &mut [u8],
) -> Passage
    ensures value { result ≡ noted_of board piece.now (room_of outputs.old) (length notes.old) }
    ensures left { LeftIn (is_noted board piece.now (room_of outputs.old) (length notes.old)) board piece.now
        outputs.old outputs.new }
    ensures same { SameOutputs outputs.old outputs.new }
    ensures noted { notes.new
        ≡ left_in (is_noted board piece.now (room_of outputs.old) (length notes.old))
        (noted board piece.now) notes.old }
{
    if piece.len() <= notes.len() {
        hear_piece(board, piece, outputs, notes)
    } else if board.in_range() {
        refuse(board, Refusal::NoRoom)
    } else {
        refuse(board, Refusal::Broken)
    }
}
