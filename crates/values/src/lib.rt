// Values of 0 to 127, as the maker, the screen and the links take them (01, "Numbers given", number 2).
//
// `first_large` finds the lowest place of a value above 127. specs/Large says which it is; proofs/Found shows that
// there is none exactly when every value is 0 to 127.
#![tactic(auto)]

ghost use Rattle.std.specs.Prelude.{◌≡◌};
ghost use Rattle.values.specs.Large.{first_large};

// The lowest place of a value above 127, counted from 0, or the number of values. A number and no Option:
// `the_lowest_place_is_named` of `block_demands` gives their number where there is none, by its clause `none`.
pub fn first_large(values: &[u8]) -> usize
    ensures { result ≡ first_large values.now }
{
    values
        .iter()
        .position(|value| 127 < *value)
        .unwrap_or(values.len())
}
