// A character written with the attributes in force (01, "Screen cells"): the ground that it takes, and its cell. This is
// the one place where a written cell is made.
//
// specs/Writing says both; proofs/Having shows what the cell has, proofs/Stays that attributes in range stay so,
// proofs/Twice that the same character once more takes nothing more, and proofs/Mosaics that writing makes nothing
// inverse.
#![tactic(auto)]

ghost use Rattle.std.specs.Prelude.{◌≡◌};
ghost use Rattle.screen_writing.specs.Writing.{zone_after, written};

use screen_attributes::{Attributes, Zone};
use screen_cells::{Cell, Character};

// One character written: the attributes in force with and after it, and its cell.
#[derive(Clone, Copy)]
pub struct Written {
    pub attributes: Attributes,
    pub cell: Cell,
}

// What is serial with and after this character.
fn pass(zone: Zone, character: Character) -> Zone
    ensures { result ≡ zone_after zone character }
{
    match zone.waiting {
        Some(colour) if screen_cells::takes_ground(character) => Zone {
            ground: colour,
            waiting: None,
        },
        _ => zone,
    }
}

// A character is written.
pub fn write(attributes: Attributes, character: Character) -> Written
    ensures { result ≡ written attributes character }
{
    let next = Attributes {
        zone: pass(attributes.zone, character),
        ..attributes
    };
    let cell = Cell {
        character,
        ink: next.ink,
        ground: next.zone.ground,
        flash: next.flash,
        inverse: next.inverse,
    };
    Written {
        attributes: next,
        cell,
    }
}
