// Games, the questions that a source of a game answers, and the causes of refusal.
#![tactic(auto)]

pub mod bits;
pub mod mode;
pub mod player;
pub mod refusal;
pub mod source;
