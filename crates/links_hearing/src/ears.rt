// The two modules that are heard for commands, each with its own unfinished sequence (01, "Links and commands").
// specs/Ears says which each is; proofs/Apart that they are told apart.
ghost use Rattle.std.specs.Prelude.{◌≡◌};
ghost use Rattle.links_hearing.specs.Ears.{name_of, own_of, free, going_on, both_in_range};

use crate::Unfinished;
use links_wiring::Module;

#[derive(Clone, Copy)]
pub enum Ear {
    Modem,
    Socket,
}

// The module that it is.
impl From<Ear> for Module {
    ghost from_gives = { λ ear m. m ≡ name_of ear };

    fn from(ear: Ear) -> Module {
        match ear {
            Ear::Modem => Module::Modem,
            Ear::Socket => Module::Socket,
        }
    }
}

// What is unfinished from each.
#[derive(Clone, Copy)]
pub struct Sequences {
    pub modem: Unfinished,
    pub socket: Unfinished,
}

impl Sequences {
    // Nothing from either.
    pub fn free() -> Sequences
        ensures { result ≡ free }
    {
        Sequences {
            modem: Unfinished::Free,
            socket: Unfinished::Free,
        }
    }

    // That of one ear.
    pub fn of(self, ear: Ear) -> Unfinished
        ensures { result ≡ own_of ear self.modem self.socket }
    {
        match ear {
            Ear::Modem => self.modem,
            Ear::Socket => self.socket,
        }
    }

    // With another from one ear: the other ear's stays.
    pub fn with(self, ear: Ear, unfinished: Unfinished) -> Sequences
        ensures { result ≡ going_on self ear «unfinished» }
    {
        match ear {
            Ear::Modem => Sequences {
                modem: unfinished,
                ..self
            },
            Ear::Socket => Sequences {
                socket: unfinished,
                ..self
            },
        }
    }

    // Whether each code so far of both is at most 127.
    pub fn in_range(self) -> bool
        ensures { result ≡ both_in_range self }
    {
        crate::in_range(self.modem) && crate::in_range(self.socket)
    }
}
