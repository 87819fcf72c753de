// The entries of a bench, and how its verdicts are worked out.
#![tactic(auto)]

pub mod entries;
mod levels;
mod links;
mod outer;
mod position;
mod ranks;
pub mod verdicts;
