// A piece of line bytes heard for good, in turns of many bytes (crate `line_turns`).
//
// What the links send to the screen is gathered and written there, and the rest to four lent outputs, of which each
// takes as much as fits: who hands a piece in sees to the room (`fits` of the crate `board_front`) and to the ranges.
// specs/Playing says what a piece comes to; proofs/SoFar and proofs/Gathered show that turn by turn it comes to that.
#![tactic(auto)]

ghost use Rattle.std.specs.Prelude.{◌≡◌, true, cond, [], ◌∷◌, ◌++◌, ◌+◌, ◌-◌, ◌≤◌, ◌<◌, leb, length, replicate};
ghost use Rattle.lent.specs.Memory.{written};
ghost use Rattle.links_wiring.specs.declared.Module.TheVariants.{Keyboard, Modem, Socket};
ghost use Rattle.line_turns.specs.Notes.{notes_of};
ghost use Rattle.board_front.specs.LineBytes.{to_each, asks};
ghost use Rattle.board.specs.Boards.{front_of};
ghost use Rattle.board_passing.specs.Passing.{SameOutputs};
ghost use Rattle.board_playing.specs.Playing.{played};

use board::{Board, show};
use board_front::Room;
use board_passing::{Onward, Outputs};
use lent::{add, first};
use line_turns::take_turn;

// As many values as are gathered for the screen before it is given them.
const GATHERED: usize = 4096;

// The board behind a piece, and the place behind what is written to each output.
#[derive(Clone, Copy)]
pub struct Played {
    pub next: Board,
    pub used: Room,
}

// The notes on the bytes of a turn, where bytes are noted: nothing to note but of the last.
fn note(noted: bool, notes: &mut [u8], at: usize, took: usize, last: u8)
    requires took_nonzero { 0 < took }
    requires took_in_bounds { noted ≡ true → at + took ≤ length notes.old }
    ensures { notes.new
        ≡ cond noted (written notes.old at (replicate (took - 1) 0 ++ (last ∷ []))) notes.old }
{
    if noted {
        let before = at + took - 1;
        notes[at..before].fill(0);
        notes[before] = last;
    }
}

// A piece of line bytes, and a note on each byte where `notes` has a place for each: where it has fewer, it stays as it
// is, so that who wants no notes lends a slice of no places. It is no `Option` of a slice, since its clause `noted` did
// not close: what stands at the end in bytes lent in an option, through which a loop writes. It gives no number: `lines`
// of the crate `board_pieces` does, and tests its board and the room before it comes here.
pub fn play(board: Board, piece: &[u8], outputs: &mut Outputs<'_>, notes: &mut [u8]) -> Played
    ensures value { result ≡ played board piece.now outputs.old.keyboard.now
        outputs.old.modem.now outputs.old.socket.now outputs.old.requests.now }
    ensures keys { outputs.new.keyboard.now
        ≡ written outputs.old.keyboard.now 0 (to_each Keyboard (front_of board) piece.now) }
    ensures line { outputs.new.modem.now
        ≡ written outputs.old.modem.now 0 (to_each Modem (front_of board) piece.now) }
    ensures port { outputs.new.socket.now
        ≡ written outputs.old.socket.now 0 (to_each Socket (front_of board) piece.now) }
    ensures asked { outputs.new.requests.now
        ≡ written outputs.old.requests.now 0 (asks (front_of board) piece.now) }
    ensures same { SameOutputs outputs.old outputs.new }
    ensures noted { notes.new
        ≡ cond (leb (length piece.now) (length notes.old))
        (written notes.old 0 (notes_of board.receiver piece.now)) notes.old }
{
    let noted = piece.len() <= notes.len();
    let mut screen = board.screen;
    let mut receiver = board.receiver;
    let mut state = Onward {
        links: board.links,
        gathered: 0,
        used: Room::none(),
    };
    // Not in `Few` with its count, since that would be copied with each turn: 4096 bytes for fifteen values.
    let mut gathered = [0; GATHERED];
    let mut i: usize = 0;
    // By hand, since a turn says itself how many bytes it takes.
    while i < piece.len() {
        let turn = take_turn(receiver, &piece[i..]);
        let stepped = turn.stepped;
        receiver = stepped.next;
        note(noted, notes, i, turn.took, turn.note);
        if GATHERED - 75 < state.gathered {
            screen = show(screen, first(&gathered, state.gathered));
            state.gathered = 0;
        }
        state = outputs.pass_on(&mut gathered, state, stepped.values);
        let asked = stepped.request.bytes();
        state.used.requests = add(asked, outputs.requests, state.used.requests);
        i += turn.took;
    }
    Played {
        next: Board {
            receiver,
            links: state.links,
            screen: show(screen, first(&gathered, state.gathered)),
        },
        used: state.used,
    }
}
