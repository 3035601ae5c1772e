// The three demands, as a table of contents: each line names a theorem that stands, proved, in the crate from which it
// is handed on. A theorem is the contract of a function that does nothing, and its statement is to be read there, in
// full, above two braces with nothing between them. docs/PROMISES.md says each in words, what it rests on, and which
// wrong programs it refuses.
//
// Demand 1, any bytes are taken in a finite run, is also the checker's own verdict on every function of every crate: it
// accepts only functions that end and stay within the memory lent to them, and no public one asks anything of its
// caller.
#![tactic(auto)]

pub mod bench_cards;
pub mod demand_one;
pub mod demand_three;
pub mod demand_two;
pub mod the_line_whole;
