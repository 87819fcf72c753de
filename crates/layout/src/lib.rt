// The record format. The definitions stand in specs/ and what is proved of them in proofs/; the crates above cite both.
#![tactic(auto)]

// The most bytes that a record, or a set by itself, has.
pub const LONGEST: usize = 60_000;
