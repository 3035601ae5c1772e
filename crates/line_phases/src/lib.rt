// The phases of the line receiver, what completes a block, and the ranges of what it counts (01, "The receiver").
// specs/Phases says what each is; proofs/Seventeenth shows that it is the seventeenth byte which completes a block, and
// proofs/Written has the start and the ends of the ranges written out.
#![tactic(auto)]

ghost use Rattle.std.specs.Prelude.{◌≡◌};
ghost use Rattle.line_phases.specs.Phases.{at_start, awaits_more, in_range};

#[derive(Clone, Copy, PartialEq, Eq)]
pub enum Phase {
    Off,
    Collecting,
    // The synchronising codes seen, 0 to 2.
    Waiting(u8),
}

impl Phase {
    // That of a new receiver.
    pub fn start() -> Phase
        ensures { result ≡ at_start }
    {
        Self::Off
    }
}

// Whether a block is still incomplete with one byte more than so many.
pub fn awaits_more(count: usize) -> bool
    ensures { result ≡ awaits_more count }
{
    count < 16
}

// Whether a block's number, a count of bytes held and a phase lie within the ranges of the page.
pub fn in_range(number: u8, count: usize, phase: Phase) -> bool
    ensures { result ≡ in_range number count phase }
{
    number < 16
        && count < 17
        && match phase {
            Phase::Off | Phase::Collecting => true,
            Phase::Waiting(seen) => seen < 3,
        }
}
