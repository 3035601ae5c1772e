// What each order does to the pen, and asks of the cells.
ghost use Rattle.std.specs.Prelude.{◌≡◌};
ghost use Rattle.screen_planning.specs.Obeying.{keeps, repeats, obeyed};

use crate::changing::{go, go_down, start_at, with_attributes, with_place};
use crate::{Asked, Planned};
use screen_cells::Character;
use screen_cursor::Place;
use screen_pen::Pen;
use screen_sequences::Order;

// Nothing is asked of the cells.
pub(crate) fn keep_cells(pen: Pen) -> Planned
    ensures { result ≡ keeps pen }
{
    Planned {
        pen,
        asked: Asked::Nothing,
    }
}

// The last character so many times more, if there was one.
fn repeat(last: Option<Character>, times: u8) -> Asked
    ensures { result ≡ repeats last times }
{
    match last {
        Some(character) => Asked::Put { character, times },
        None => Asked::Nothing,
    }
}

// What an order makes of the pen. A character moves it only when it is written.
#[tactic(auto, unfolding(crate::specs::Obeying::obeyed))]
fn change(pen: Pen, order: Order) -> Pen
    ensures { result ≡ (obeyed pen order).pen }
{
    let home = Place { row: 1, column: 1 };
    match order {
        Order::Left => with_place(pen, screen_motion::left(pen.here.place)),
        Order::Right => with_place(pen, screen_motion::right(pen.here.place)),
        Order::Up => with_place(pen, screen_motion::up(pen.here.place)),
        Order::Down => go_down(pen),
        Order::First => with_place(pen, screen_motion::first(pen.here.place)),
        Order::Clear | Order::Home => start_at(pen, home),
        Order::ShiftOut => with_attributes(pen, pen.here.attributes.shift_out()),
        Order::ShiftIn => with_attributes(pen, pen.here.attributes.shift_in()),
        Order::Show => Pen { shown: true, ..pen },
        Order::Hide => Pen {
            shown: false,
            ..pen
        },
        Order::Pair(code) => with_attributes(pen, screen_escapes::pair(pen.here.attributes, code)),
        Order::Go { row, column } => go(pen, screen_addresses::locate(row, column)),
        _ => pen,
    }
}

// What it asks of the cells.
#[tactic(auto, unfolding(crate::specs::Obeying::obeyed))]
fn ask(pen: Pen, order: Order) -> Asked
    ensures { result ≡ (obeyed pen order).asked }
{
    match order {
        Order::Clear => Asked::Blank,
        Order::Write(code) => Asked::Put {
            character: Character {
                set: pen.here.attributes.set,
                code,
            },
            times: 1,
        },
        Order::Second(code) => Asked::Put {
            character: Character { set: 2, code },
            times: 1,
        },
        Order::Again(times) => repeat(pen.last, times),
        _ => Asked::Nothing,
    }
}

#[tactic(auto, unfolding(crate::specs::Obeying::obeyed))]
pub(crate) fn obey(pen: Pen, order: Order) -> Planned
    ensures { result ≡ obeyed pen order }
{
    Planned {
        pen: change(pen, order),
        asked: ask(pen, order),
    }
}
