// The numbers that the paper gives the answers (01, "Numbers given"), whatever made them. Those of the judge and of the
// receiver are not here: `block::Judged::number` and `line_receiver::answer_number` promise them.
use block_maker::Unmade;
use std::fmt;

#[derive(Clone, Copy)]
pub(crate) enum Number {
    Taken = 0,
    WrongLength = 1,
    TooLarge = 2,
    NoRoom = 4,
    Broken = 5,
}

impl Number {
    // That of what was taken, or of why it was not.
    pub(crate) fn of<E>(answer: Result<(), E>) -> Number
    where
        Number: From<E>,
    {
        match answer {
            Ok(()) => Number::Taken,
            Err(refusal) => Number::from(refusal),
        }
    }
}

impl fmt::Display for Number {
    fn fmt<W: fmt::Write>(&self, f: &mut fmt::Formatter<W>) -> fmt::Result {
        write!(f, "{}", *self as u8)
    }
}

impl From<Unmade> for Number {
    fn from(unmade: Unmade) -> Number {
        match unmade {
            Unmade::WrongLength => Number::WrongLength,
            Unmade::TooLarge(_) => Number::TooLarge,
            Unmade::NoRoom => Number::NoRoom,
        }
    }
}

impl From<screen::Refusal> for Number {
    fn from(refusal: screen::Refusal) -> Number {
        match refusal {
            screen::Refusal::TooLarge(_) => Number::TooLarge,
            screen::Refusal::Broken => Number::Broken,
        }
    }
}

impl From<links::Refusal> for Number {
    fn from(refusal: links::Refusal) -> Number {
        match refusal {
            links::Refusal::TooLarge => Number::TooLarge,
            links::Refusal::Broken => Number::Broken,
        }
    }
}

impl From<board_pieces::Refusal> for Number {
    fn from(refusal: board_pieces::Refusal) -> Number {
        match refusal {
            board_pieces::Refusal::NoRoom => Number::NoRoom,
            board_pieces::Refusal::Broken => Number::Broken,
        }
    }
}
