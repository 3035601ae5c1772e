// Values handed to the links as the modem's, and what each module gets of them written behind what its output has.
//
// Each output takes as much as fits: who hands it in sees to its room (`fits` of the crate `board_front`). Plain values
// go to each module that the modem reaches as they are, and others through the links, one after the other.
// specs/Passing says what comes of values; proofs/Spread shows that one after the other they come to that.
#![tactic(auto)]

ghost use Rattle.std.specs.Prelude.{◌≡◌, true, cond, [], ◌∷◌};
ghost use Rattle.few.specs.Bytes.{contents};
ghost use Rattle.lent.specs.Memory.{written, behind};
ghost use Rattle.board_feeding.specs.Plain.{are_plain};
ghost use Rattle.board_passing.specs.Passing.{onward, handed_out, held, room_of, SameOutputs};

use board_front::Room;
use few::Few;
use lent::add;
use links::Links;

// The links behind some values, and the places behind what is written: for the screen, and in each output.
#[derive(Clone, Copy)]
pub struct Onward {
    pub links: Links,
    pub gathered: usize,
    pub used: Room,
}

// The outputs that are lent: those of keyboard, modem and socket, and that of the receiver's requests.
#[derive(Drop)]
pub struct Outputs<'a> {
    pub keyboard: &'a mut [u8],
    pub modem: &'a mut [u8],
    pub socket: &'a mut [u8],
    pub requests: &'a mut [u8],
}

// Plain values for a module that is reached; another gets nothing.
fn put_where(reached: bool, out: &mut [u8], at: usize, values: &[u8]) -> usize
    ensures value { result ≡ behind out.old at (cond reached values.now []) }
    ensures left { out.new ≡ written out.old at (cond reached values.now []) }
{
    if reached { add(values, out, at) } else { at }
}

impl Outputs<'_> {
    // The room in each.
    pub fn room(&self) -> Room
        ensures { result ≡ room_of self.now }
    {
        Room {
            keyboard: self.keyboard.len(),
            modem: self.modem.len(),
            socket: self.socket.len(),
            requests: self.requests.len(),
        }
    }

    // Plain values: each module that the modem reaches gets them as they are.
    fn pass_plain(&mut self, gathered: &mut [u8], at: Onward, values: Few<15>) -> Onward
        requires { are_plain at.links values.codes ≡ true }
        ensures value { result ≡ onward at.links (contents values) at.gathered at.used (held gathered.old self.old) }
        ensures left { held gathered.new self.new ≡ handed_out at.links (contents values) at.gathered at.used (held gathered.old self.old) }
        ensures same { SameOutputs self.old self.new }
        ensures unasked { self.new.requests.now ≡ self.old.requests.now }
    {
        let row = at.links.table.modem;
        let plain = values.bytes();
        Onward {
            gathered: put_where(row.screen, gathered, at.gathered, plain),
            used: Room {
                keyboard: put_where(row.keyboard, self.keyboard, at.used.keyboard, plain),
                modem: put_where(row.modem, self.modem, at.used.modem, plain),
                socket: put_where(row.socket, self.socket, at.used.socket, plain),
                ..at.used
            },
            ..at
        }
    }

    // Any values: they go through the links.
    fn pass_fed(&mut self, gathered: &mut [u8], at: Onward, values: Few<15>) -> Onward
        ensures value { result ≡ onward at.links (contents values) at.gathered at.used (held gathered.old self.old) }
        ensures left { held gathered.new self.new ≡ handed_out at.links (contents values) at.gathered at.used (held gathered.old self.old) }
        ensures same { SameOutputs self.old self.new }
        ensures unasked { self.new.requests.now ≡ self.old.requests.now }
    {
        let fed = board_feeding::feed(at.links, values);
        Onward {
            links: fed.links,
            gathered: add(fed.shares.screen.bytes(), gathered, at.gathered),
            used: Room {
                keyboard: add(fed.shares.keyboard.bytes(), self.keyboard, at.used.keyboard),
                modem: add(fed.shares.modem.bytes(), self.modem, at.used.modem),
                socket: add(fed.shares.socket.bytes(), self.socket, at.used.socket),
                ..at.used
            },
        }
    }

    // One value, plain or not.
    fn pass_one(&mut self, gathered: &mut [u8], at: Onward, value: u8) -> Onward
        ensures value { result ≡ onward at.links (value ∷ []) at.gathered at.used (held gathered.old self.old) }
        ensures left { held gathered.new self.new ≡ handed_out at.links (value ∷ []) at.gathered at.used (held gathered.old self.old) }
        ensures same { SameOutputs self.old self.new }
        ensures unasked { self.new.requests.now ≡ self.old.requests.now }
    {
        let one = Few::of(&[value]);
        if board_feeding::are_plain(at.links, one.codes) {
            self.pass_plain(gathered, at, one)
        } else {
            self.pass_fed(gathered, at, one)
        }
    }

    // Some values, one after the other.
    fn pass_each(&mut self, gathered: &mut [u8], at: Onward, values: &[u8]) -> Onward
        ensures value { result ≡ onward at.links values.now at.gathered at.used (held gathered.old self.old) }
        ensures left { held gathered.new self.new ≡ handed_out at.links values.now at.gathered at.used (held gathered.old self.old) }
        ensures same { SameOutputs self.old self.new }
        ensures unasked { self.new.requests.now ≡ self.old.requests.now }
    {
        let mut state = at;
        for value in values {
            state = self.pass_one(gathered, state, *value);
        }
        state
    }

    // Values, of fifteen at most: in one go where all are plain, and else one after the other, since of
    // a block with a colour or a place in it most values are plain too. It gives no number: broken links take no value, and
    // nobody gets anything.
    pub fn pass_on(&mut self, gathered: &mut [u8], at: Onward, values: Few<15>) -> Onward
        ensures value { result ≡ onward at.links (contents values) at.gathered at.used (held gathered.old self.old) }
        ensures left { held gathered.new self.new ≡ handed_out at.links (contents values) at.gathered at.used (held gathered.old self.old) }
        ensures same { SameOutputs self.old self.new }
        ensures unasked { self.new.requests.now ≡ self.old.requests.now }
    {
        if board_feeding::are_plain(at.links, values.codes) {
            self.pass_plain(gathered, at, values)
        } else {
            self.pass_each(gathered, at, values.bytes())
        }
    }
}
