// Laws that hold for anything, and no functions: numbers bit by bit (proofs/Xor), lists of them added bit by bit
// (proofs/Sums), and tests that the checker computes over a whole table (proofs/Computed). The other crates cite
// them.

#![tactic(auto)]
