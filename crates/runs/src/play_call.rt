// The calls of a play, as values.
use bench::play::{OpenRound, Play};

#[derive(Clone, Copy, PartialEq, Eq, Debug)]
pub enum PlayCall {
    // a move of player 1
    Commit(u8),
    // a move of player 2, and a successor
    Settle(u8, u16),
    Abandon,
}

// A play at rest, or in an open round.
pub enum Stage {
    Rest(Play),
    Round(OpenRound),
}
