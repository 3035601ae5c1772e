// One hut, by value: the line receiver, the links and the screen, joined (01, "What the board does").
//
// A line byte goes through the receiver; each value that this passes on is handed to the links as the modem's; what
// these send to the screen is written there, and what they send to keyboard, modem and socket is handed out. The
// receiver's requests to the modem are handed out apart: they carry parity already, and what the links send does not.
// Every call takes any board and any value. A board of which any part is out of range, and a key or a socket's value
// above 127, are refused, and nothing changes. The crate `board_pieces` takes line bytes many at a time.
//
// specs/Boards says what a board is, specs/Calls what each call does to it, specs/Runs what a whole run is; proofs/
// shows that each part goes its own way in every run.
#![tactic(auto)]

ghost use Rattle.std.specs.Prelude.{◌≡◌};
ghost use Rattle.screen.specs.Calls.{ran};
ghost use Rattle.board.specs.Boards.{fresh_board, in_range};
ghost use Rattle.board.specs.Calls.{refused, joined, following, passing};
ghost use Rattle.board.specs.Calls.{at_line, switched_on, switched_off, asked_again};
ghost use Rattle.board.specs.Calls.{at_key, at_socket, with_local, with_connected};

use board_feeding::Outlet;
use board_front::{Front, Heard};
use few::Few;
use line_receiver::{Receiver, Stepped};
use links::Links;
// A call of a board is refused for what one of the links can be: the paper's 2 and 5.
pub use links::Refusal;
use screen_page::Screen;

#[derive(Clone, Copy)]
pub struct Board {
    pub receiver: Receiver,
    pub links: Links,
    pub screen: Screen,
}

#[derive(Clone, Copy)]
pub struct Outcome {
    pub next: Board,
    // The paper's 0, or why it is refused.
    pub answer: Result<(), Refusal>,
    // What the links send to each module but the screen, without parity.
    pub keyboard: Outlet,
    pub modem: Outlet,
    pub socket: Outlet,
    // The receiver's bytes for the modem, with parity: none or two.
    pub request: Few<2>,
}

// Nothing changes, and nothing is handed out.
fn refuse(board: Board, refusal: Refusal) -> Outcome
    ensures { result ≡ refused board refusal }
{
    let none = Outlet::none();
    Outcome {
        next: board,
        answer: Err(refusal),
        keyboard: none,
        modem: none,
        socket: none,
        request: Few::none(),
    }
}

// The codes that the links send to a screen, written there. It gives no number: the links send no value above 127, and
// the board's calls test their screen before they come here. A broken one comes back as it was.
pub fn show(screen: Screen, codes: &[u8]) -> Screen
    ensures { result ≡ (ran «screen» codes.now).screen }
{
    screen::run(screen, codes).screen
}

impl Board {
    // The receiver off, the links local, the screen fresh.
    pub fn fresh() -> Board
        ensures { result ≡ fresh_board }
    {
        Board {
            receiver: Receiver::new(),
            links: Links::local(),
            screen: Screen::fresh(),
        }
    }

    // Whether each part lies within its ranges.
    #[tactic(auto, unfolding(crate::specs::Boards::in_range))]
    pub fn in_range(self) -> bool
        ensures { result ≡ in_range self }
    {
        line_receiver::in_range(self.receiver) && self.links.in_range() && !self.screen.is_broken()
    }

    // The receiver and the links that have heard, the screen with its share written, and the rest handed out.
    fn join(self, heard: Heard, answer: Result<(), Refusal>) -> Outcome
        ensures { result ≡ joined self heard answer }
    {
        let shares = heard.shares;
        Outcome {
            next: Board {
                receiver: heard.front.receiver,
                links: heard.front.links,
                screen: show(self.screen, shares.screen.bytes()),
            },
            answer,
            keyboard: shares.keyboard,
            modem: shares.modem,
            socket: shares.socket,
            request: heard.request,
        }
    }

    // What the receiver hands out goes its way: its values through the links, its request out.
    #[tactic(auto, unfolding(crate::specs::Calls::following))]
    fn follow(self, stepped: Stepped) -> Outcome
        ensures { result ≡ following self stepped }
    {
        if self.in_range() {
            self.join(board_front::send_on(self.links, stepped), Ok(()))
        } else {
            refuse(self, Refusal::Broken)
        }
    }

    // What the links hand out goes its way.
    #[tactic(auto, unfolding(crate::specs::Calls::passing))]
    fn pass(self, outcome: links::Outcome) -> Outcome
        ensures { result ≡ passing self outcome }
    {
        if self.in_range() {
            let unasked = Few::none();
            let heard = Heard {
                front: Front {
                    receiver: self.receiver,
                    links: outcome.next,
                },
                shares: board_feeding::share_out(outcome.sent),
                request: unasked,
            };
            self.join(heard, outcome.answer)
        } else {
            refuse(self, Refusal::Broken)
        }
    }

    // One byte from the line.
    pub fn line(self, byte: u8) -> Outcome
        ensures { result ≡ at_line self byte }
    {
        self.follow(self.receiver.step(byte))
    }

    // The host switches the receiver on: number 0, nothing held; also when it is on.
    pub fn switch_on(self) -> Outcome
        ensures { result ≡ switched_on self }
    {
        self.follow(self.receiver.switch_on())
    }

    // The host switches the receiver off.
    pub fn switch_off(self) -> Outcome
        ensures { result ≡ switched_off self }
    {
        self.follow(self.receiver.switch_off())
    }

    // The receiver's request once more while it waits.
    pub fn ask_again(self) -> Outcome
        ensures { result ≡ asked_again self }
    {
        self.follow(self.receiver.ask_again())
    }

    // One value from the keyboard.
    pub fn key(self, value: u8) -> Outcome
        ensures { result ≡ at_key self value }
    {
        self.pass(self.links.from_keyboard(value))
    }

    // One value from the socket.
    pub fn socket(self, value: u8) -> Outcome
        ensures { result ≡ at_socket self value }
    {
        self.pass(self.links.from_socket(value))
    }

    // The host chooses the local table. It is a call of its own, as is the choice of the other: the theorem
    // `each_call_reaches_its_part`, clause `tables`, speaks of the two.
    pub fn with_local(self) -> Outcome
        ensures { result ≡ with_local self }
    {
        self.pass(self.links.with_local())
    }

    // The host chooses the connected table.
    pub fn with_connected(self) -> Outcome
        ensures { result ≡ with_connected self }
    {
        self.pass(self.links.with_connected())
    }
}
