// The bench: a game's states are marked as targets, moves are barred, verdicts are asked for, and plays are run.
#![tactic(auto)]

pub mod bench;
pub mod play;
