// The table from a remainder to the bit that it points to (001, section 5-3-4): the one of the first 128 that alone
// leaves it. Its rule (specs/Places) is shown once, over the whole table (proofs/places).
#![tactic(auto)]

ghost use Rattle.std.specs.Prelude.{◌%◌};
ghost use Rattle.block_places.specs.Places.{Pointing};
ghost use Rattle.block_validity.specs.Mending.{PointsTo};

const PLACES: [u8; 128] = [
    127, 120, 121, 95, 122, 64, 94, 23, 123, 119, 63, 111, 93, 42, 22, 33, 124, 2, 118, 5, 62, 47,
    110, 11, 92, 115, 41, 88, 21, 80, 32, 75, 125, 44, 1, 66, 117, 82, 4, 49, 61, 59, 46, 84, 109,
    57, 10, 103, 91, 8, 114, 98, 40, 101, 87, 69, 20, 107, 79, 37, 31, 55, 74, 16, 126, 112, 43,
    34, 0, 96, 65, 24, 116, 89, 81, 76, 3, 6, 48, 12, 60, 85, 58, 104, 45, 67, 83, 50, 108, 38, 56,
    17, 9, 99, 102, 70, 90, 77, 7, 13, 113, 35, 97, 25, 39, 18, 100, 71, 86, 105, 68, 51, 19, 72,
    106, 52, 78, 14, 36, 26, 30, 29, 54, 28, 73, 53, 15, 27,
];

// The table, of which its rule is known. It is lent, since by value it would be copied for each block.
fn places() -> &'static [u8; 128]
    ensures { Pointing result.now }
{
    &PLACES
}

// The bit that a remainder points to; of a byte above 127 the seven low bits count. Zero points to the parity bit
// of byte 16: it is no code bit, so that alone it leaves nothing.
pub fn place(r: u8) -> u8
    ensures { PointsTo (r % 128) result }
{
    places()[(r % 128) as usize]
}
