// Reads the game in the file `game` and the target in the file `target`, solves, and prints the verdicts on every state.
#![tactic(auto)]

use bench::bench::Bench;
use game::mode::Mode;
use game::refusal::{Fault, Refusal};
use game::source::Source;
use records::table::Table;
use records::target::StateSet;
use std::alloc::Global;
use std::io::ErrorKind;
use std::{fmt, fs, io};

// The bytes of a file. A file that is not there has none.
// The program `rewrite` has the same function: it allocates, which no library crate may.
fn read_or_none(rt: &HostRuntime, path: &str) -> anyhow::Result<Vec<u8>> {
    match fs::read(rt, path) {
        Ok(bytes) => Ok(bytes),
        Err(e) if e.kind() == ErrorKind::NotFound => Ok(Vec::new(rt.alloc())),
        Err(e) => Err(e.into()),
    }
}

// One line for a refusal: its number, its place and the file.
// The program `rewrite` has a function like it: as a public type that prints itself it would need a text and an edit, and be longer.
fn print_refusal(rt: &HostRuntime, refusal: Refusal, file: &str) -> io::Result<()> {
    let number = refusal.number();
    match refusal.fault() {
        Some(Fault { place, .. }) => println!(rt; "refused {number} at {place} in {file}"),
        None => println!(rt; "refused {number} in {file}"),
    }
}

// The rank and the move set of a state in one mode, as they are printed; a dash each where the state is not winning.
// The program `bench_cases` has a type like it, with one dash: a public type for both would need a text and an edit, and be longer than the two.
#[derive(Clone, Copy)]
struct Shown(Option<(u8, u8)>);

impl fmt::Display for Shown {
    fn fmt<W: fmt::Write>(&self, f: &mut fmt::Formatter<W>) -> fmt::Result {
        match self.0 {
            Some((rank, moves)) => write!(f, "{rank} {moves:02x}"),
            None => write!(f, "- -"),
        }
    }
}

fn find_verdict<S: Source>(bench: &Bench<S>, mode: Mode, state: u16) -> Result<Shown, Refusal> {
    match bench.verdict(mode, state)? {
        Some(rank) => Ok(Shown(Some((rank, bench.moves(mode, state)?)))),
        None => Ok(Shown(None)),
    }
}

// The verdicts on a state in both modes.
fn find_verdicts<S: Source>(bench: &Bench<S>, state: u16) -> Result<(Shown, Shown), Refusal> {
    let sure = find_verdict(bench, Mode::Sure, state)?;
    let almost = find_verdict(bench, Mode::Almost, state)?;
    Ok((sure, almost))
}

// Marks the states of a set.
fn mark_all<S: Source>(
    bench: &mut Bench<S>,
    states: u16,
    target: &StateSet,
) -> Result<(), Refusal> {
    for state in (0..states).filter(|state| target.contains(*state)) {
        bench.mark(state)?;
    }
    Ok(())
}

fn print_state<S: Source>(rt: &HostRuntime, bench: &Bench<S>, state: u16) -> io::Result<()> {
    match find_verdicts(bench, state) {
        Ok((sure, almost)) => println!(rt; "{state} {sure} {almost}"),
        Err(refusal) => print_refusal(rt, refusal, "game"),
    }
}

fn print_verdicts(rt: &HostRuntime, table: Table, target: &StateSet) -> io::Result<()> {
    let states = table.states();
    let mut bench = Bench::open(table);
    if let Err(refusal) = mark_all(&mut bench, states, target) {
        return print_refusal(rt, refusal, "target");
    }
    println!(rt; "states {states} {}", bench.solve())?;
    for state in 0..states {
        print_state(rt, &bench, state)?;
    }
    Ok(())
}

fn run(rt: &HostRuntime) -> anyhow::Result<()> {
    let record = read_or_none(rt, "game")?;
    let set = read_or_none(rt, "target")?;
    let mut table = Table::new();
    if let Err(refusal) = table.open(record.as_slice()) {
        print_refusal(rt, refusal, "game")?;
        return Ok(());
    }
    match StateSet::read(set.as_slice(), table.states()) {
        Ok(target) => print_verdicts(rt, table, &target)?,
        Err(refusal) => print_refusal(rt, refusal, "target")?,
    }
    Ok(())
}

fn main(rt: HostRuntime) -> anyhow::Result<()> {
    run(&rt)
}
