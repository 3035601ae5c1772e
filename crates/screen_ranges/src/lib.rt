// Whether a pen lies in the ranges of the page. The crates `screen_pen`, `screen_attributes` and `screen_sequences` say
// which do (`specs/Pens`, `specs/Within`, `specs/Sequences`), and `screen_pen`'s proofs/Stays that a pen in range stays
// so.
#![tactic(auto)]

ghost use Rattle.std.specs.Prelude.{◌≡◌};
ghost use Rattle.screen_sequences.specs.Sequences.{in_range as good_sequence};
ghost use Rattle.screen_attributes.specs.Within.{good_waiting, good_zone, good};
ghost use Rattle.screen_pen.specs.Pens.{good_last, good_spot, in_range};

use screen_attributes::{Attributes, Zone};
use screen_cells::Character;
use screen_pen::{Pen, Spot};
use screen_sequences::Sequence;

fn last_in_range(last: Option<Character>) -> bool
    ensures { result ≡ good_last last }
{
    last.is_none_or(screen_cells::is_character)
}

fn waiting_in_range(waiting: Option<u8>) -> bool
    ensures { result ≡ good_waiting waiting }
{
    waiting.is_none_or(|colour| colour <= 7)
}

fn zone_in_range(zone: Zone) -> bool
    ensures { result ≡ good_zone zone }
{
    zone.ground <= 7 && waiting_in_range(zone.waiting)
}

fn attributes_in_range(attributes: Attributes) -> bool
    ensures { result ≡ good attributes }
{
    attributes.set <= 1 && attributes.ink <= 7 && zone_in_range(attributes.zone)
}

// Whether the rules leave such a sequence unfinished.
fn sequence_in_range(sequence: Sequence) -> bool
    ensures { result ≡ good_sequence sequence }
{
    match sequence {
        Sequence::Row(row) => (32..=127).contains(&row),
        _ => true,
    }
}

// A place on the screen, with attributes in range.
#[tactic(auto, unfolding(screen_pen::specs::Pens::good_spot))]
fn spot_in_range(spot: Spot) -> bool
    ensures { result ≡ good_spot spot }
{
    spot.place.on_screen() && attributes_in_range(spot.attributes)
}

#[tactic(auto, unfolding(screen_pen::specs::Pens::in_range))]
pub fn in_range(pen: Pen) -> bool
    ensures { result ≡ in_range pen }
{
    spot_in_range(pen.here)
        && spot_in_range(pen.kept)
        && last_in_range(pen.last)
        && sequence_in_range(pen.sequence)
}
