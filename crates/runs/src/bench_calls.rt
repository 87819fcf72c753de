// A list of calls on a new bench.
ghost use Rattle.std.specs.Prelude.{◌≡◌, MatchResult};
ghost use Rattle.game.specs.Refusals.{told};
ghost use Rattle.theory.specs.Benches.{Step};
ghost use Rattle.bench.specs.Held.{game_of, held};
ghost use Rattle.runs.specs.Calls.{call_of, answer_of, RanAll, NoRoom};

use crate::call::{Answer, Call};
use bench::bench::Bench;
use game::refusal::Refusal;
use game::source::Source;

// Makes one call.
pub fn make_call<S: Source>(bench: &mut Bench<S>, call: Call) -> Result<Answer, Refusal>
    ensures source { bench.new.source ≡ bench.old.source }
    ensures step { Step (game_of bench.old) (held bench.old) (call_of call) (answer_of result) (held bench.new) }
{
    match call {
        Call::Mark(state) => bench.mark(state).map(|()| Answer::Done),
        Call::Unmark(state) => bench.unmark(state).map(|()| Answer::Done),
        Call::Bar(player, state, m) => bench.bar(player, state, m).map(|()| Answer::Done),
        Call::Allow(player, state, m) => bench.allow(player, state, m).map(|()| Answer::Done),
        Call::Solve => Ok(Answer::Told(bench.solve())),
        Call::Verdict(mode, state) => bench.verdict(mode, state).map(Answer::Ranked),
        Call::Moves(mode, state) => bench.moves(mode, state).map(Answer::Set),
        Call::Reply(state, a) => bench.reply(state, a).map(Answer::Replied),
    }
}

// Opens a bench on a source, makes all calls of a list in their order, and writes the answer to each at the same place.
// Where there are fewer places than calls, no call is made, and the source is given back. (The caller lends the places, since the library
// allocates nothing.)
pub fn make_calls<S: Source>(
    source: S,
    calls: &[Call],
    answers: &mut [Result<Answer, Refusal>],
) -> Result<Bench<S>, (S, Refusal)>
    ensures { MatchResult result (λ bench. (bench.source ≡ source) × RanAll (S.Source.game source) calls.now answers.old answers.new (held bench)) (λ e. (e.0 ≡ source) × NoRoom calls.now answers.old answers.new (told e.1)) }
{
    if answers.len() < calls.len() {
        return Err((source, Refusal::ShortBuffer));
    }
    let mut bench = Bench::open(source);
    // By number: of a slice that was written through `iter_mut` a proof knows only the length.
    for (i, call) in calls.iter().enumerate() {
        answers[i] = make_call(&mut bench, *call);
    }
    Ok(bench)
}
