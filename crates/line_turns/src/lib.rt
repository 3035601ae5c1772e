// Line bytes that the receiver takes in one go: those that it only holds, and the next one (01, "The receiver").
//
// Stepping byte by byte builds and copies a whole answer for each, though all but the seventeenth of a block bring
// nothing. A turn comes to what its bytes come to one by one, and says how many they are; and it has a note on the last,
// so that a night book needs no receiver of its own. specs/Turns says what a turn is, specs/Notes what the notes are,
// and proofs/Steps shows that a turn comes to what single steps do.
#![tactic(auto)]

ghost use Rattle.std.specs.Prelude.{◌≡◌};
ghost use Rattle.line_turns.specs.Turns.{turn_of};

mod holding;
mod notes;

use holding::{Held, hold};
use line_receiver::{Receiver, Stepped};
use notes::note_on;

// What the bytes of a turn come to.
#[derive(Clone, Copy)]
pub struct Turn {
    // What the last of them hands back; where all are only held, the receiver with nothing going out.
    pub stepped: Stepped,
    // On the last of them; those before it are only held, and nothing is to be noted of them.
    pub note: u8,
    // How many they are: none only where no bytes are there.
    pub took: usize,
}

// The first bytes that are only held, and the one behind them. A broken receiver hears nothing of its byte, and comes
// back with its number.
pub fn take_turn(receiver: Receiver, bytes: &[u8]) -> Turn
    ensures { result ≡ turn_of receiver bytes.now }
{
    let Held { receiver, count } = hold(receiver, bytes);
    if count < bytes.len() {
        let stepped = receiver.step(bytes[count]);
        Turn {
            stepped,
            note: note_on(receiver.phase, stepped),
            took: count + 1,
        }
    } else {
        Turn {
            stepped: line_receiver::silent(receiver),
            note: 0,
            took: count,
        }
    }
}
