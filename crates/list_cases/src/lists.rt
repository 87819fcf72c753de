// A list of calls on a new bench: handing it over, and printing what came of it.
use crate::places::{UNTOUCHED, count_untouched};
use crate::plays::{PlayCase, run_plays};
use crate::show::{ShownAnswer, ShownCall, print_line};
use game::refusal::Refusal;
use game::source::Source;
use runs::bench_calls::make_calls;
use runs::call::{Answer, Call};
use std::io;

// Prints each call with its answer.
fn print_calls(
    rt: &HostRuntime,
    calls: &[Call],
    answers: &[Result<Answer, Refusal>],
) -> io::Result<()> {
    for (i, (call, answer)) in calls.iter().zip(answers.iter()).enumerate() {
        print_line(rt, i, &ShownCall(*call), &ShownAnswer(*answer))?;
    }
    Ok(())
}

// A list of calls: the calls, the number of places for their answers, the number of places where the list is handed over again
// if the first were too few, and the plays that are run on the bench that comes back.
#[derive(Clone, Copy)]
pub struct ListCase<'a>(
    pub &'a [Call],
    pub usize,
    pub Option<usize>,
    pub &'a [PlayCase<'a>],
);

// Hands a list over with so many places for answers, prints it, and then runs plays on the bench that comes back. Where there are
// too few places, the source that comes back is passed on.
pub fn hand_over<S: Source + Drop>(
    rt: &HostRuntime,
    name: &str,
    source: S,
    calls: &[Call],
    places: usize,
    plays: &[PlayCase],
) -> io::Result<Option<S>> {
    let mut answers = vec![in rt.alloc(); Err(UNTOUCHED); places]?;
    let result = make_calls(source, calls, answers.as_mut_slice());
    let number = calls.len();
    let untouched = count_untouched(answers.as_slice());
    println!(rt; "{name}: calls {number}, places {places}, untouched {untouched}")?;
    match result {
        Ok(bench) => {
            print_calls(rt, calls, answers.as_slice())?;
            run_plays(rt, name, &bench, plays)?;
            Ok(None)
        }
        Err((source, refusal)) => {
            println!(rt; "{refusal}")?;
            Ok(Some(source))
        }
    }
}

// Hands a list over, and if there were too few places, again on the source that was given back, where the case says so.
pub fn run_list<S: Source + Drop>(
    rt: &HostRuntime,
    name: &str,
    source: S,
    case: &ListCase,
) -> io::Result<()> {
    let ListCase(calls, places, more, plays) = *case;
    let back = hand_over(rt, name, source, calls, places, plays)?;
    if let (Some(source), Some(more)) = (back, more) {
        hand_over(rt, name, source, calls, more, plays)?;
    }
    Ok(())
}
