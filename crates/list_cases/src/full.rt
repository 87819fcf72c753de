// A play of as many rounds as a play takes, handed over in one list.
use crate::lists::hand_over;
use crate::plays::PlayCase;
use bench::play::MOST_ROUNDS;
use game::source::Source;
use runs::call::Call;
use runs::play_call::PlayCall;
use std::alloc::{AllocError, Global};
use std::io;

// Home is the target, where every round leads from home.
const HOME: u16 = 3;

const CALLS: [Call; 2] = [Call::Mark(HOME), Call::Solve];

// All the rounds that a play takes, and the move that would open one more.
fn rounds(heap: Global) -> Result<Vec<PlayCall>, AllocError> {
    let mut calls = Vec::new(heap);
    for _ in 0..MOST_ROUNDS {
        calls.push(PlayCall::Commit(0))?;
        calls.push(PlayCall::Settle(0, HOME))?;
    }
    calls.push(PlayCall::Commit(0))?;
    Ok(calls)
}

pub fn full_play<S: Source + Drop>(rt: &HostRuntime, name: &str, source: S) -> io::Result<()> {
    let calls = rounds(rt.alloc())?;
    let plays = [PlayCase("a full play", HOME, calls.as_slice(), calls.len(), None)];
    hand_over(rt, name, source, &CALLS, 2, &plays)?;
    Ok(())
}
