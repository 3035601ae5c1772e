// What Outaksel promises of a block, demand by demand. Each function here does nothing: its contract is a theorem about
// what the other crates define, so that the check's log names it. Its words are those of the specs/ of `numbers` and of
// the crates of the block, and it is proved in the crate whose words it speaks.
#![tactic(auto)]

pub mod demand_one;
pub mod demand_three;
pub mod demand_two;
