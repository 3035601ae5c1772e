// What Outaksel promises of the screen, as `block_demands` is what it promises of a block and `line_demands` of the
// line: each function here does nothing, and its contract is a theorem about what `screen` and the crates below it
// define. It is proved in those crates, whose words it speaks.
#![tactic(auto)]

pub mod cells;
pub mod changes;
pub mod pieces;
pub mod row_0;
pub mod states;
