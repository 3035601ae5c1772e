// What ESC and a code do to the attributes in force (01, "Screen cells").
//
// specs/Pairing says what each pair does; proofs/Written writes pairs out, proofs/Stays shows that attributes in range
// stay so, proofs/Grounds what a pair does to grounds, and proofs/Mosaics that none makes G1 inverse.
#![tactic(auto)]

ghost use Rattle.std.specs.Prelude.{◌≡◌};
ghost use Rattle.screen_escapes.specs.Pairing.{waits_for, column_four, column_five, paired};

use screen_attributes::{Attributes, Zone};

// ESC and a code of column 4.
fn column_four(attributes: Attributes, row: u8) -> Attributes
    ensures { result ≡ column_four attributes row }
{
    match row {
        0..=7 => Attributes {
            ink: row,
            ..attributes
        },
        8 => Attributes {
            flash: true,
            ..attributes
        },
        9 => Attributes {
            flash: false,
            ..attributes
        },
        _ => attributes,
    }
}

// This ground waits.
fn waiting_for(attributes: Attributes, colour: u8) -> Attributes
    ensures { result ≡ waits_for attributes colour }
{
    let zone = Zone {
        waiting: Some(colour),
        ..attributes.zone
    };
    Attributes { zone, ..attributes }
}

// ESC and a code of column 5. Inverse is no action in G1.
fn column_five(attributes: Attributes, row: u8) -> Attributes
    ensures { result ≡ column_five attributes row }
{
    match row {
        0..=7 => waiting_for(attributes, row),
        12 => Attributes {
            inverse: false,
            ..attributes
        },
        13 if attributes.set != 1 => Attributes {
            inverse: true,
            ..attributes
        },
        _ => attributes,
    }
}

// ESC and a code.
pub fn pair(attributes: Attributes, code: u8) -> Attributes
    ensures { result ≡ paired attributes code }
{
    match code / 16 {
        4 => column_four(attributes, code % 16),
        5 => column_five(attributes, code % 16),
        _ => attributes,
    }
}
