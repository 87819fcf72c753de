// How calls and their answers are printed.
use game::refusal::Refusal;
use runs::call::{Answer, Call};
use runs::play_call::PlayCall;
use std::{fmt, io};

#[derive(Clone, Copy)]
pub struct ShownCall(pub Call);

impl fmt::Display for ShownCall {
    fn fmt<W: fmt::Write>(&self, f: &mut fmt::Formatter<W>) -> fmt::Result {
        match self.0 {
            Call::Mark(state) => write!(f, "mark at {state}"),
            Call::Unmark(state) => write!(f, "unmark at {state}"),
            Call::Bar(player, state, m) => write!(f, "bar player {player} at {state} move {m}"),
            Call::Allow(player, state, m) => write!(f, "allow player {player} at {state} move {m}"),
            Call::Solve => f.write_str("solve"),
            Call::Verdict(mode, state) => write!(f, "verdict {mode} at {state}"),
            Call::Moves(mode, state) => write!(f, "moves {mode} at {state}"),
            Call::Reply(state, a) => write!(f, "reply at {state} move {a}"),
        }
    }
}

// The program `bench_cases` prints its answers in the same words, of another type.
#[derive(Clone, Copy)]
pub struct ShownAnswer(pub Result<Answer, Refusal>);

impl fmt::Display for ShownAnswer {
    fn fmt<W: fmt::Write>(&self, f: &mut fmt::Formatter<W>) -> fmt::Result {
        match self.0 {
            Ok(Answer::Done) => f.write_str("counted"),
            Ok(Answer::Told(tally)) => write!(f, "{tally}"),
            Ok(Answer::Ranked(Some(rank))) => write!(f, "rank {rank}"),
            Ok(Answer::Ranked(None)) => f.write_str("not winning"),
            Ok(Answer::Set(moves)) => write!(f, "set {moves:02x}"),
            Ok(Answer::Replied(reply)) => write!(f, "{reply}"),
            Err(refusal) => write!(f, "{refusal}"),
        }
    }
}

#[derive(Clone, Copy)]
pub struct ShownPlayCall(pub PlayCall);

impl fmt::Display for ShownPlayCall {
    fn fmt<W: fmt::Write>(&self, f: &mut fmt::Formatter<W>) -> fmt::Result {
        match self.0 {
            PlayCall::Commit(a) => write!(f, "commit {a}"),
            PlayCall::Settle(b, successor) => write!(f, "settle {b} to {successor}"),
            PlayCall::Abandon => f.write_str("abandon"),
        }
    }
}

// What stands at the place of a call of a play. A place that nothing was written to holds the refusal that no call by itself gives.
#[derive(Clone, Copy)]
pub struct ShownPlayAnswer(pub Result<(), Refusal>);

impl fmt::Display for ShownPlayAnswer {
    fn fmt<W: fmt::Write>(&self, f: &mut fmt::Formatter<W>) -> fmt::Result {
        match self.0 {
            Ok(()) => f.write_str("taken"),
            Err(Refusal::ShortBuffer) => f.write_str("not made"),
            Err(refusal) => write!(f, "{refusal}"),
        }
    }
}

// Prints the place of a call in its list, the call, and what stands at its place among the answers.
pub fn print_line<C: fmt::Display, A: fmt::Display>(
    rt: &HostRuntime,
    place: usize,
    call: &C,
    answer: &A,
) -> io::Result<()> {
    println!(rt; "{place:>2} {call}: {answer}")
}
