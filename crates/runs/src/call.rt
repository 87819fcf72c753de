// The calls of a bench and their answers, as values.
use bench::bench::Reply;
use game::mode::Mode;
use game::player::Player;
use solver::verdicts::Tally;

#[derive(Clone, Copy, PartialEq, Eq, Debug)]
pub enum Call {
    Mark(u16),
    Unmark(u16),
    Bar(Player, u16, u8),
    Allow(Player, u16, u8),
    Solve,
    Verdict(Mode, u16),
    Moves(Mode, u16),
    Reply(u16, u8),
}

// What a call that is not refused answers.
#[derive(Clone, Copy, PartialEq, Eq, Debug)]
pub enum Answer {
    // an edit was made
    Done,
    // what solve tells
    Told(Tally),
    // the rank of a state, none where it is not winning
    Ranked(Option<u8>),
    // the moves handed out, one bit for each move
    Set(u8),
    Replied(Reply),
}
