// Whole lists of calls at once: on a new bench, and of a play.
#![tactic(auto)]

pub mod bench_calls;
pub mod call;
pub mod play_call;
pub mod play_calls;
