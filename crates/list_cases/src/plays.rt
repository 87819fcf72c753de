// A list of calls of one play: handing it over, closing the round that it leaves open, and printing what came of it.
use crate::places::{UNTOUCHED, count_untouched};
use crate::show::{ShownPlayAnswer, ShownPlayCall, print_line};
use bench::bench::Bench;
use bench::play::{OpenRound, Play};
use game::refusal::Refusal;
use game::source::Source;
use runs::play_call::{PlayCall, Stage};
use runs::play_calls::{Played, make_play_calls};
use std::{fmt, io};

// A list of calls of one play: a label, the state at which the play begins, the calls, the number of places for answers, and how
// the caller settles a round that the list leaves open; without that, the round is abandoned.
#[derive(Clone, Copy)]
pub struct PlayCase<'a>(
    pub &'a str,
    pub u16,
    pub &'a [PlayCall],
    pub usize,
    pub Option<(u8, u16)>,
);

impl fmt::Display for PlayCase<'_> {
    fn fmt<W: fmt::Write>(&self, f: &mut fmt::Formatter<W>) -> fmt::Result {
        let PlayCase(label, from, calls, places, _) = *self;
        let calls = calls.len();
        write!(f, "{label}, from {from}: calls {calls}, places {places}")
    }
}

// Of a longer list only so many calls are printed, the last ones.
const MOST_SHOWN: usize = 16;

// What became of the round that a list left open. `Option<Option<Result<(), Refusal>>>` would say less.
#[derive(Clone, Copy)]
enum Closing {
    NoRound,
    Abandoned,
    Settled,
    // the settle was refused, and the round abandoned
    Refused(Refusal),
}

impl fmt::Display for Closing {
    fn fmt<W: fmt::Write>(&self, f: &mut fmt::Formatter<W>) -> fmt::Result {
        match *self {
            Closing::NoRound => f.write_str("at rest"),
            Closing::Abandoned => f.write_str("a round open, abandoned"),
            Closing::Settled => f.write_str("a round open, settled"),
            Closing::Refused(refusal) => write!(f, "a round open, settle {refusal}, abandoned"),
        }
    }
}

// How a play stands once no round of it is open. Three programs print a play, each in other words.
#[derive(Drop)]
struct Ending {
    closing: Closing,
    play: Play,
}

impl fmt::Display for Ending {
    fn fmt<W: fmt::Write>(&self, f: &mut fmt::Formatter<W>) -> fmt::Result {
        let closing = self.closing;
        let state = self.play.state();
        let rounds = self.play.rounds();
        let met = if self.play.met() { "met" } else { "not met" };
        write!(f, "{closing}: state {state}, rounds {rounds}, target {met}")
    }
}

// Settles an open round, or abandons it.
fn close_round<S: Source>(bench: &Bench<S>, round: OpenRound, settle: Option<(u8, u16)>) -> Ending {
    let Some((b, successor)) = settle else {
        return Ending {
            closing: Closing::Abandoned,
            play: round.abandon(),
        };
    };
    match round.settle(bench, b, successor) {
        Ok(play) => Ending {
            closing: Closing::Settled,
            play,
        },
        Err((round, refusal)) => Ending {
            closing: Closing::Refused(refusal),
            play: round.abandon(),
        },
    }
}

// How a play ends, once its open round is closed.
fn close<S: Source>(bench: &Bench<S>, stage: Stage, settle: Option<(u8, u16)>) -> Ending {
    match stage {
        Stage::Rest(play) => Ending {
            closing: Closing::NoRound,
            play,
        },
        Stage::Round(round) => close_round(bench, round, settle),
    }
}

// Prints each call with what stands at its place.
// The module `lists` has a loop like it: over calls of both types one would be longer, by the bounds of its iterator.
fn print_calls(
    rt: &HostRuntime,
    calls: &[PlayCall],
    answers: &[Result<(), Refusal>],
) -> io::Result<()> {
    let first = calls.len().saturating_sub(MOST_SHOWN);
    let pairs = calls.iter().zip(answers.iter());
    for (i, (call, answer)) in pairs.enumerate().skip(first) {
        print_line(rt, i, &ShownPlayCall(*call), &ShownPlayAnswer(*answer))?;
    }
    Ok(())
}

// How many calls of a list were made, and how the play ended.
#[derive(Drop)]
struct Finished {
    made: usize,
    ending: Ending,
}

// Hands over the list of a case, and closes the round that it leaves open.
fn finish<S: Source>(
    bench: &Bench<S>,
    case: &PlayCase,
    answers: &mut [Result<(), Refusal>],
) -> Result<Finished, Refusal> {
    let PlayCase(_, from, calls, _, settle) = *case;
    let Played { stage, made } = make_play_calls(bench, from, calls, answers)?;
    let ending = close(bench, stage, settle);
    Ok(Finished { made, ending })
}

// Hands over the list of a case, and prints it.
fn run_play<S: Source>(
    rt: &HostRuntime,
    name: &str,
    bench: &Bench<S>,
    case: &PlayCase,
) -> io::Result<()> {
    let PlayCase(_, _, calls, places, _) = *case;
    let mut answers = vec![in rt.alloc(); Err(UNTOUCHED); places]?;
    let result = finish(bench, case, answers.as_mut_slice());
    let untouched = count_untouched(answers.as_slice());
    println!(rt; "{name}, {case}, untouched {untouched}")?;
    match result {
        Ok(Finished { made, ending }) => {
            print_calls(rt, calls, answers.as_slice())?;
            println!(rt; "made {made}, {ending}")
        }
        Err(refusal) => println!(rt; "{refusal}"),
    }
}

// Hands over lists of calls of plays, one after the other, on one bench.
pub fn run_plays<S: Source>(
    rt: &HostRuntime,
    name: &str,
    bench: &Bench<S>,
    cases: &[PlayCase],
) -> io::Result<()> {
    for case in cases {
        run_play(rt, name, bench, case)?;
    }
    Ok(())
}
