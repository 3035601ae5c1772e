// A pen with its place or its attributes changed, or moved: to a place, down, or to where US leads.
ghost use Rattle.std.specs.Prelude.{◌≡◌};
ghost use Rattle.screen_planning.specs.Changing.{with_place, with_attributes};
ghost use Rattle.screen_planning.specs.Obeying.{start_at, lowered, entering, gone};

use screen_attributes::Attributes;
use screen_cursor::Place;
use screen_pen::{Pen, Spot};

pub(crate) fn with_place(pen: Pen, place: Place) -> Pen
    ensures { result ≡ with_place pen place }
{
    let here = Spot { place, ..pen.here };
    Pen { here, ..pen }
}

pub(crate) fn with_attributes(pen: Pen, attributes: Attributes) -> Pen
    ensures { result ≡ with_attributes pen attributes }
{
    let here = Spot {
        attributes,
        ..pen.here
    };
    Pen { here, ..pen }
}

// To a place, with start attributes.
pub(crate) fn start_at(pen: Pen, place: Place) -> Pen
    ensures { result ≡ start_at pen place }
{
    let here = Spot {
        place,
        attributes: screen_attributes::start(),
    };
    Pen { here, ..pen }
}

// LF: in row 0 back to what was kept.
pub(crate) fn go_down(pen: Pen) -> Pen
    ensures { result ≡ lowered pen }
{
    if pen.here.place.row == 0 {
        Pen {
            here: pen.kept,
            ..pen
        }
    } else {
        with_place(pen, screen_motion::down(pen.here.place))
    }
}

// What US into this row keeps: what stands now, if it enters row 0 from another row.
fn enter(pen: Pen, row: u8) -> Pen
    ensures { result ≡ entering pen row }
{
    if row == 0 && pen.here.place.row != 0 {
        Pen {
            kept: pen.here,
            ..pen
        }
    } else {
        pen
    }
}

// US: to the place that its codes name, if there is one.
#[tactic(auto, unfolding(crate::specs::Obeying::gone))]
pub(crate) fn go(pen: Pen, address: Option<Place>) -> Pen
    ensures { result ≡ gone pen address }
{
    match address {
        Some(place) => start_at(enter(pen, place.row), place),
        None => pen,
    }
}
