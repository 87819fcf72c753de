// What solve tells, and the verdicts on every state.
use bench::bench::Bench;
use game::mode::Mode;
use game::refusal::Refusal;
use game::source::Source;
use solver::verdicts::Tally;
use std::{fmt, io};

// The rank and the move set of a state in one mode; a dash where it is not winning.
// The program `verdicts` has a type like it, with two dashes: a public type for both would need a text and an edit, and be longer than the two.
#[derive(Clone, Copy)]
struct Ranked(Option<(u8, u8)>);

impl fmt::Display for Ranked {
    fn fmt<W: fmt::Write>(&self, f: &mut fmt::Formatter<W>) -> fmt::Result {
        match self.0 {
            Some((rank, moves)) => write!(f, "{rank} {moves:02x}"),
            None => write!(f, "-"),
        }
    }
}

fn find_verdict<S: Source>(bench: &Bench<S>, mode: Mode, state: u16) -> Result<Ranked, Refusal> {
    match bench.verdict(mode, state)? {
        Some(rank) => Ok(Ranked(Some((rank, bench.moves(mode, state)?)))),
        None => Ok(Ranked(None)),
    }
}

// The verdicts on a state in both modes.
fn find_verdicts<S: Source>(bench: &Bench<S>, state: u16) -> Result<(Ranked, Ranked), Refusal> {
    let sure = find_verdict(bench, Mode::Sure, state)?;
    let almost = find_verdict(bench, Mode::Almost, state)?;
    Ok((sure, almost))
}

// Prints the verdicts on every state of a solved bench, and of an unsolved one nothing.
pub fn print_verdicts<S: Source>(rt: &impl Print, name: &str, bench: &Bench<S>) -> io::Result<()> {
    for state in 0..=256 {
        let Ok((sure, almost)) = find_verdicts(bench, state) else {
            break;
        };
        println!(rt; "{name}, state {state}: sure {sure}, almost {almost}")?;
    }
    Ok(())
}

// Solves, and prints how many states are sure, how many almost sure, and the outer rounds, with commas and so not by their own text.
pub fn print_tally<S: Source>(rt: &impl Print, name: &str, bench: &mut Bench<S>) -> io::Result<()> {
    let Tally {
        sure,
        almost,
        rounds,
    } = bench.solve();
    println!(rt; "{name}: sure {sure}, almost {almost}, rounds {rounds}")
}

// Solves, and prints what is told and the verdicts on every state.
pub fn print_solved<S: Source>(
    rt: &impl Print,
    name: &str,
    bench: &mut Bench<S>,
) -> io::Result<()> {
    print_tally(rt, name, bench)?;
    print_verdicts(rt, name, bench)
}
