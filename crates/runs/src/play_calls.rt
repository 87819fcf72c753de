// A list of calls of one play.
ghost use Rattle.std.specs.Prelude.{◌≡◌, MatchOption, MatchResult};
ghost use Rattle.game.specs.Refusals.{told};
ghost use Rattle.theory.specs.Plays.{Step};
ghost use Rattle.bench.specs.Held.{position};
ghost use Rattle.bench.specs.Rounds.{call_answer};
ghost use Rattle.runs.specs.PlayCalls.{call_of, play_of, OutOfPlace, PlayedAll, NotPlayed};

use crate::play_call::{PlayCall, Stage};
use bench::bench::Bench;
use bench::play::{OpenRound, Play};
use game::refusal::Refusal;
use game::source::Source;

// Makes one call. A call out of place is not made and has no answer: a commit in an open round, a settle or an abandon at rest.
fn make_play_call<S: Source>(
    bench: &Bench<S>,
    stage: Stage,
    call: PlayCall,
) -> (Stage, Option<Result<(), Refusal>>)
    ensures { MatchOption result.1 (OutOfPlace (play_of stage) (call_of call) × (play_of result.0 ≡ play_of stage)) (λ answer. Step (position bench.now) (play_of stage) (call_of call) (call_answer answer) (play_of result.0)) }
{
    match (stage, call) {
        (Stage::Rest(play), PlayCall::Commit(a)) => match play.commit(bench, a) {
            Ok(round) => (Stage::Round(round), Some(Ok(()))),
            Err((play, refusal)) => (Stage::Rest(play), Some(Err(refusal))),
        },
        (Stage::Round(round), PlayCall::Settle(b, successor)) => {
            match round.settle(bench, b, successor) {
                Ok(play) => (Stage::Rest(play), Some(Ok(()))),
                Err((round, refusal)) => (Stage::Round(round), Some(Err(refusal))),
            }
        }
        (Stage::Round(round), PlayCall::Abandon) => (Stage::Rest(round.abandon()), Some(Ok(()))),
        (stage, _) => (stage, None),
    }
}

// The play after a list of calls, and how many of them were made.
pub struct Played {
    pub stage: Stage,
    pub made: usize,
}

// Begins a play at a state, makes the calls of a list in their order up to the first that is out of place, and writes the answer to
// each at the same place. Where the play cannot be begun, or there are fewer places than calls, nothing is written.
pub fn make_play_calls<S: Source>(
    bench: &Bench<S>,
    state: u16,
    calls: &[PlayCall],
    answers: &mut [Result<(), Refusal>],
) -> Result<Played, Refusal>
    ensures { MatchResult result (λ played. PlayedAll (position bench.now) bench.now.solved state calls.now answers.old answers.new played.made (play_of played.stage)) (λ e. NotPlayed (position bench.now) bench.now.solved state calls.now answers.old answers.new (told e)) }
{
    let play = bench.begin(state)?;
    if answers.len() < calls.len() {
        return Err(Refusal::ShortBuffer);
    }
    let mut stage = Stage::Rest(play);
    // By number: of a slice that was written through `iter_mut` a proof knows only the length.
    for (made, call) in calls.iter().enumerate() {
        let (next, answer) = make_play_call(bench, stage, *call);
        stage = next;
        match answer {
            Some(answer) => answers[made] = answer,
            None => return Ok(Played { stage, made }),
        }
    }
    Ok(Played {
        stage,
        made: calls.len(),
    })
}
