// The four modules, and the table of which sender's bytes reach which receiver (01, "Links and commands"; 001, part 2,
// sections 1-2-1 and 1-2-2).
//
// specs/Each, specs/Modules and specs/Tables say what a table is and what the two standard tables link; proofs/ shows
// what stands for each module after one is replaced, and what the test for a module linked to itself says.
#![tactic(auto)]

ghost use Rattle.std.specs.Prelude.{◌≡◌};
ghost use Rattle.links_wiring.specs.Each.{all, of, with, either};
ghost use Rattle.links_wiring.specs.Tables.{local_table, connected_table, self_linked};

#[derive(Clone, Copy, PartialEq, Eq)]
pub enum Module {
    Screen,
    Keyboard,
    Modem,
    Socket,
}

// One thing for each module. A `map` or `zip` would ask that its closure may be called, and no public function asks
// anything of its caller (a rule of the project): so where each is made of each, the four modules are listed.
#[derive(Clone, Copy)]
pub struct Each<T> {
    pub screen: T,
    pub keyboard: T,
    pub modem: T,
    pub socket: T,
}

// The receivers that one sender reaches.
pub type Row = Each<bool>;

// A row for each sender: `table.keyboard.screen` says whether the keyboard's bytes reach the screen, and
// `table.of(sender)` is the row of a sender.
pub type Table = Each<Row>;

impl<T: Copy> Each<T> {
    // The same for every module. By its type it can give nothing else, so no wrong program stands for it.
    pub fn all(value: T) -> Each<T>
        ensures { result ≡ all value }
    {
        Each {
            screen: value,
            keyboard: value,
            modem: value,
            socket: value,
        }
    }

    // That of one module.
    pub fn of(self, m: Module) -> T
        ensures { result ≡ of self m }
    {
        match m {
            Module::Screen => self.screen,
            Module::Keyboard => self.keyboard,
            Module::Modem => self.modem,
            Module::Socket => self.socket,
        }
    }

    // With another for one module.
    pub fn with(self, m: Module, value: T) -> Each<T>
        ensures { result ≡ with self m value }
    {
        let mut changed = self;
        match m {
            Module::Screen => changed.screen = value,
            Module::Keyboard => changed.keyboard = value,
            Module::Modem => changed.modem = value,
            Module::Socket => changed.socket = value,
        }
        changed
    }
}

impl Each<bool> {
    // One thing for each module that is marked, and another for each that is not.
    pub fn either<T: Copy>(self, marked: T, unmarked: T) -> Each<T>
        ensures { result ≡ either self marked unmarked }
    {
        Each {
            screen: if self.screen { marked } else { unmarked },
            keyboard: if self.keyboard { marked } else { unmarked },
            modem: if self.modem { marked } else { unmarked },
            socket: if self.socket { marked } else { unmarked },
        }
    }
}

impl Each<Row> {
    // Whether a module is linked to itself.
    #[tactic(auto, unfolding(crate::specs::Tables::self_linked))]
    pub fn links_itself(self) -> bool
        ensures { result ≡ self_linked self }
    {
        self.screen.screen || self.keyboard.keyboard || self.modem.modem || self.socket.socket
    }
}

// The standard tables have a function each: the theorem `the_host_chooses_a_table`, clauses `local` and `connected`, speaks
// of each. While the modem is not connected: keyboard to modem and socket, modem and socket to screen.
pub fn local_table() -> Table
    ensures { result ≡ local_table }
{
    let none = Row::all(false);
    let keys = Row {
        modem: true,
        socket: true,
        ..none
    };
    let shown = Row {
        screen: true,
        ..none
    };
    Table {
        screen: none,
        keyboard: keys,
        modem: shown,
        socket: shown,
    }
}

// While it is: keyboard to modem, modem to screen and socket, socket to modem.
pub fn connected_table() -> Table
    ensures { result ≡ connected_table }
{
    let none = Row::all(false);
    let sent = Row {
        modem: true,
        ..none
    };
    let heard = Row {
        screen: true,
        socket: true,
        ..none
    };
    Table {
        screen: none,
        keyboard: sent,
        modem: heard,
        socket: sent,
    }
}
