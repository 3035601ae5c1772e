// The attributes in force (01, "Screen cells"): those at the start, and SO and SI. `screen_escapes` has what ESC does
// to them, and `screen_writing` the character that is written with them.
//
// specs/Attributing says what changes them, specs/Within what is in range; proofs/Written writes the start, SO and SI
// out, proofs/Stays shows that attributes in range stay so, and proofs/Mosaics that nothing is inverse while G1 is
// current. proofs/Literal has attributes in so many words, for all that is worked by hand.
#![tactic(auto)]

ghost use Rattle.std.specs.Prelude.{◌≡◌};
ghost use Rattle.screen_attributes.specs.Attributing.{start_of, shifted_out, shifted_in};

// What is serial: it is in force from the character that takes it on. Colours are 0 to 7.
#[derive(Clone, Copy)]
pub struct Zone {
    pub ground: u8,
    // A ground that waits for the character that takes it.
    pub waiting: Option<u8>,
}

// Those in force. Sets 0 and 1 are G0 and G1; colours are 0 to 7. Numbers and no enums: `in_range` of the crate
// `screen_ranges` answers for any.
#[derive(Clone, Copy)]
pub struct Attributes {
    pub set: u8,
    pub ink: u8,
    pub zone: Zone,
    pub flash: bool,
    pub inverse: bool,
}

// Those at the start.
pub fn start() -> Attributes
    ensures { result ≡ start_of }
{
    Attributes {
        set: 0,
        ink: 7,
        zone: Zone {
            ground: 0,
            waiting: None,
        },
        flash: false,
        inverse: false,
    }
}

impl Attributes {
    // SO.
    pub fn shift_out(self) -> Attributes
        ensures { result ≡ shifted_out self }
    {
        Attributes {
            set: 1,
            inverse: false,
            ..self
        }
    }

    // SI.
    pub fn shift_in(self) -> Attributes
        ensures { result ≡ shifted_in self }
    {
        Attributes { set: 0, ..self }
    }
}
