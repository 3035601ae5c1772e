// What Outaksel promises of the links, as `block_demands` is what it promises of a block: each function here does
// nothing, and its contract is a theorem about what `links` and the crates below it define. It is proved in those
// crates, whose words it speaks.
#![tactic(auto)]

pub mod cards;
pub mod flow;
pub mod replying;
pub mod states;
