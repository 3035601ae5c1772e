// Which order a value gives (01, "Screen cells"; 001, part 2, chapter 2): the codes of the screen and the sequences
// that they form, apart from whatever obeys them.
//
// `hear` takes an unfinished sequence and one value, and says what is unfinished then and what is ordered. It knows no
// cursor, no attribute and no cell. specs/Sequences says the same, rule by rule, and specs/Opening which sequences
// values leave open; proofs/Worked has codes and sequences worked by hand.
#![tactic(auto)]

ghost use Rattle.std.specs.Prelude.{◌≡◌};
ghost use Rattle.screen_sequences.specs.Sequences.{does, opens, order, begins, escaped};
ghost use Rattle.screen_sequences.specs.Sequences.{dropped, again, single, followed, heard};

mod dropping;

// An unfinished sequence.
#[derive(Clone, Copy)]
pub enum Sequence {
    Free,
    // ESC.
    Escape,
    // ESC and column 2.
    Long,
    // ESC 5/B.
    Control,
    // SEP.
    Separator,
    // REP.
    Repeat,
    // SS2.
    Single,
    // US.
    Address,
    // US and the code for the row.
    Row(u8),
}

// What is to be done.
#[derive(Clone, Copy)]
pub enum Order {
    Skip,
    // BS, HT, VT, LF and CR.
    Left,
    Right,
    Up,
    Down,
    First,
    // FF and RS.
    Clear,
    Home,
    // SO and SI.
    ShiftOut,
    ShiftIn,
    // CON and COFF.
    Show,
    Hide,
    // ESC and this code.
    Pair(u8),
    // US and its two codes.
    Go { row: u8, column: u8 },
    // A character of the current set.
    Write(u8),
    // A character of G2.
    Second(u8),
    // The last character so many times more.
    Again(u8),
}

#[derive(Clone, Copy)]
pub struct Heard {
    pub sequence: Sequence,
    pub order: Order,
}

impl Heard {
    // The sequence ends, with this order.
    fn does(order: Order) -> Heard
        ensures { result ≡ does order }
    {
        Heard {
            sequence: Sequence::Free,
            order,
        }
    }

    // The sequence goes on, and nothing is ordered.
    fn opens(sequence: Sequence) -> Heard
        ensures { result ≡ opens sequence }
    {
        Heard {
            sequence,
            order: Order::Skip,
        }
    }
}

// What a C0 code orders.
fn ordered(value: u8) -> Order
    ensures { result ≡ order value }
{
    match value {
        8 => Order::Left,
        9 => Order::Right,
        10 => Order::Down,
        11 => Order::Up,
        12 => Order::Clear,
        13 => Order::First,
        14 => Order::ShiftOut,
        15 => Order::ShiftIn,
        17 => Order::Show,
        20 => Order::Hide,
        30 => Order::Home,
        _ => Order::Skip,
    }
}

// What a C0 code begins.
fn begun(value: u8) -> Sequence
    ensures { result ≡ begins value }
{
    match value {
        18 => Sequence::Repeat,
        19 => Sequence::Separator,
        25 => Sequence::Single,
        27 => Sequence::Escape,
        31 => Sequence::Address,
        _ => Sequence::Free,
    }
}

// ESC and a code.
fn pair(code: u8) -> Heard
    ensures { result ≡ escaped code }
{
    match code {
        0..=47 => Heard::opens(Sequence::Long),
        91 => Heard::opens(Sequence::Control),
        _ => Heard::does(Order::Pair(code)),
    }
}

// A code of a sequence that is dropped, up to a code from this one to 7/E.
fn skip(sequence: Sequence, from: u8, code: u8) -> Heard
    ensures { result ≡ dropped sequence from code }
{
    if from <= code && code <= 126 {
        Heard::does(Order::Skip)
    } else {
        Heard::opens(sequence)
    }
}

// REP and a code.
fn repeat(code: u8) -> Heard
    ensures { result ≡ again code }
{
    if code < 64 {
        Heard::does(Order::Skip)
    } else {
        Heard::does(Order::Again(code - 64))
    }
}

// SS2 and a code.
fn second(code: u8) -> Heard
    ensures { result ≡ single code }
{
    if code / 16 == 4 {
        Heard::does(Order::Skip)
    } else {
        Heard::does(Order::Second(code))
    }
}

// A code from 2/0, after the sequence so far.
fn follow(sequence: Sequence, code: u8) -> Heard
    ensures { result ≡ followed sequence code }
{
    match sequence {
        Sequence::Free => Heard::does(Order::Write(code)),
        Sequence::Escape => pair(code),
        Sequence::Long => skip(sequence, 48, code),
        Sequence::Control => skip(sequence, 64, code),
        Sequence::Separator => Heard::does(Order::Skip),
        Sequence::Repeat => repeat(code),
        Sequence::Single => second(code),
        Sequence::Address => Heard::opens(Sequence::Row(code)),
        Sequence::Row(row) => Heard::does(Order::Go { row, column: code }),
    }
}

// One value, after the sequence so far.
pub fn hear(sequence: Sequence, value: u8) -> Heard
    ensures { result ≡ heard sequence value }
{
    match value {
        0 => Heard::opens(sequence),
        32.. => follow(sequence, value),
        _ if sequence.is_separator() => Heard::does(Order::Skip),
        _ => Heard {
            sequence: begun(value),
            order: ordered(value),
        },
    }
}
