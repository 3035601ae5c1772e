// What Outaksel promises of the line, as `block_demands` is what it promises of a block: each function here does
// nothing, and its contract is a theorem about what `line_receiver`, `line_turns`, `line_codes` and the crates of the
// block define. It is proved in the crate whose words it speaks.
#![tactic(auto)]

pub mod pieces;
pub mod runs;
pub mod states;
