// The sending end (02, request 8; 001, part 1, section 5.2), by value.
//
// Blocks are numbered from 0, modulo 16. The last sixteen are kept, oldest first, as they went out. The return line is
// heard byte by byte, and a request for a number that is kept is answered by SYN, SYN, 4/X and every kept block from
// that one on. A restart is a new sender; the hut must then be switched on again.
//
// Every call takes any state and hands back the next one. specs/States says what a state is, specs/Calls what is sent and
// resent, specs/Hearing what is heard, specs/Runs what a whole run is; proofs/Kept shows that the last sixteen blocks are
// kept, proofs/Asked what a request brings, and proofs/Listening that no byte heard is lost.
#![tactic(auto)]

ghost use Rattle.std.specs.Prelude.{◌≡◌, ◌≤◌, ◌<◌, length, take};
ghost use Rattle.numbers.specs.Numbers.{number_of};
ghost use Rattle.line_receiver.specs.Calls.{answer_number};
ghost use Rattle.line_sender.specs.States.{new_sender, keeping};
ghost use Rattle.line_sender.specs.Calls.{refused_for, told, sent_told, resent_told};
ghost use Rattle.line_sender.specs.Calls.{with_answer, sent_by, sent_left, reply_by, resent_by, resent_left};
ghost use Rattle.line_sender.specs.Hearing.{hear_conditions, heard_by};

mod hearing;
mod stores;

use block_maker::Unmade;
use few::Few;
use hearing::{alone, behind, silent};
use line_receiver::Broken;
pub use stores::in_range;
use stores::{begin_again, put_in, shifted};

#[derive(Clone, Copy)]
pub struct Sender {
    // The first `kept` blocks of seventeen bytes are those kept, oldest first; the others are no part of the state. One
    // array, and not sixteen of seventeen: a request is answered with a part of it as it stands. Not a `Few<272>`: the
    // array and the count are the state's form, any bytes may stand past the kept, where a `Few` has 0, and `kept` counts
    // blocks.
    pub blocks: [u8; 272],
    // 0 to 16.
    pub kept: usize,
    // The number of the next block, 0 to 15. Those kept have the numbers before it, modulo 16.
    pub next: u8,
    // Whether the byte heard last is a NACK, which is held until the next one.
    pub nack: bool,
}

// Why a call does nothing: the answer's numbers are 1, 5, 2 and 4.
#[derive(Clone, Copy, PartialEq, Eq)]
pub enum Refusal {
    WrongLength,
    Broken,
    // The lowest place of a value above 127, counted from 0.
    TooLarge(usize),
    NoRoom,
}

// What `send` hands back.
#[derive(Clone, Copy)]
pub struct Sent {
    pub sender: Sender,
    pub answer: Result<(), Refusal>,
}

// What a request is answered with.
#[derive(Clone, Copy, PartialEq, Eq)]
pub enum Reply {
    // The blocks from that one on, in so many bytes.
    Again(usize),
    NotKept,
    NoRequest,
}

// What `resend` hands back.
#[derive(Clone, Copy)]
pub struct Resent {
    pub sender: Sender,
    pub reply: Result<Reply, Refusal>,
}

// What `hear` hands back.
#[derive(Clone, Copy)]
pub struct Heard {
    pub sender: Sender,
    // Broken where the state is; it comes back as it was.
    pub answer: Result<(), Broken>,
    // The values that pass on: none, one or two.
    pub values: Few<2>,
    // A request that is now whole, to be handed to `resend`: none or two bytes.
    pub request: Few<2>,
}

impl From<Unmade> for Refusal {
    ghost from_gives = { λ unmade refusal. refusal ≡ refused_for unmade };

    fn from(unmade: Unmade) -> Refusal {
        match unmade {
            Unmade::WrongLength => Refusal::WrongLength,
            Unmade::TooLarge(place) => Refusal::TooLarge(place),
            Unmade::NoRoom => Refusal::NoRoom,
        }
    }
}

impl Sender {
    // Nothing kept, next number 0.
    pub fn new() -> Sender
        ensures { result ≡ new_sender }
    {
        Sender {
            blocks: [0; 272],
            kept: 0,
            next: 0,
            nack: false,
        }
    }

    // The first seventeen bytes are kept under the next number; of seventeen blocks the oldest goes.
    fn keep(self, block: &[u8]) -> Sender
        requires { (17 ≤ length block.now) × (self.kept < 17) }
        ensures { result ≡ keeping self (take 17 block.now) }
    {
        let next = line_codes::next_number(self.next);
        if self.kept < 16 {
            Sender {
                blocks: put_in(self.blocks, 17 * self.kept, block),
                kept: self.kept + 1,
                next,
                ..self
            }
        } else {
            Sender {
                blocks: put_in(shifted(self.blocks), 255, block),
                kept: 16,
                next,
                ..self
            }
        }
    }

    // The sender that keeps one block of these values, which stands in the output; or why there is none.
    fn make(self, values: &[u8], out: &mut [u8]) -> Result<Sender, Refusal>
        ensures made { with_answer self result ≡ sent_by self values.now out.old }
        ensures left { out.new ≡ sent_left self values.now out.old }
    {
        if values.is_empty() || 15 < values.len() {
            return Err(Refusal::WrongLength);
        }
        if !in_range(self) {
            return Err(Refusal::Broken);
        }
        block_maker::make(values, out)?;
        Ok(self.keep(out))
    }

    // One block of 1 to 15 values, in the first seventeen bytes of the output, and kept; or why there is none.
    pub fn send(self, values: &[u8], out: &mut [u8]) -> Sent
        ensures sent { result ≡ sent_by self values.now out.old }
        ensures left { out.new ≡ sent_left self values.now out.old }
        ensures given { told result.answer ≡ sent_told self values.now out.old }
    {
        match self.make(values, out) {
            Ok(sender) => Sent {
                sender,
                answer: Ok(()),
            },
            Err(refusal) => Sent {
                sender: self,
                answer: Err(refusal),
            },
        }
    }

    // What a request brings.
    fn reply(self, request: &[u8], out: &mut [u8]) -> Result<Reply, Refusal>
        ensures replied { result ≡ reply_by self request.now out.old }
        ensures left { out.new ≡ resent_left self request.now out.old }
    {
        if request.len() != 2 {
            return Err(Refusal::WrongLength);
        }
        if !in_range(self) {
            return Err(Refusal::Broken);
        }
        let code = request[1];
        let number = code % 16;
        let named = line_codes::request(number);
        if request[0] != named[0] || code != named[1] {
            return Ok(Reply::NoRequest);
        }
        let before = (number as usize + self.kept + 16 - self.next as usize) % 16;
        if self.kept <= before {
            return Ok(Reply::NotKept);
        }
        let blocks = &self.blocks[17 * before..17 * self.kept];
        let count = 3 + blocks.len();
        if out.len() < count {
            return Err(Refusal::NoRoom);
        }
        begin_again(code, blocks, out);
        Ok(Reply::Again(count))
    }

    // Two bytes as they arrived from the hut, answered into the output. The state stays.
    pub fn resend(self, request: &[u8], out: &mut [u8]) -> Resent
        ensures resent { result ≡ resent_by self request.now out.old }
        ensures left { out.new ≡ resent_left self request.now out.old }
        ensures given { told result.reply ≡ resent_told self request.now out.old }
    {
        Resent {
            sender: self,
            reply: self.reply(request, out),
        }
    }

    // One byte of the return line.
    pub fn hear(self, byte: u8) -> Heard
        ensures heard { result ≡ heard_by self byte }
        ensures given { answer_number result.answer ≡ number_of (hear_conditions self) }
    {
        if !in_range(self) {
            return Heard {
                answer: Err(Broken),
                ..silent(self)
            };
        }
        if self.nack {
            behind(self, byte)
        } else {
            alone(self, byte)
        }
    }
}
