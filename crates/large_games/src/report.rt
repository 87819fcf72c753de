// What is printed of a game: its size, what solve tells, and a digest of the verdicts in each mode.
use crate::games::Large;
use bench::bench::Bench;
use copies::count_supports;
use game::mode::Mode;
use game::refusal::Refusal;
use game::source::Source;
use records::table::Table;
use solver::verdicts::Tally;
use std::{fmt, io};

// The verdicts in one mode: the highest rank, the sum of (rank + 1) × (state + 1) over the winning states, and the sum of
// the move sets handed out.
#[derive(Clone, Copy)]
struct Digest {
    highest: u8,
    ranks: u32,
    moves: u32,
}

impl fmt::Display for Digest {
    fn fmt<W: fmt::Write>(&self, f: &mut fmt::Formatter<W>) -> fmt::Result {
        let highest = self.highest;
        let ranks = self.ranks;
        let moves = self.moves;
        write!(
            f,
            "highest rank {highest} sum of ranks {ranks} sum of move sets {moves}"
        )
    }
}

// The digest of the verdicts on the states below a number. It cannot pass 2^24, so nothing saturates.
// Three sums in one loop: three chains would ask each question three times.
fn sum_up<S: Source>(bench: &Bench<S>, mode: Mode, states: u16) -> Result<Digest, Refusal> {
    let mut highest = 0u8;
    let mut ranks = 0u32;
    let mut moves = 0u32;
    for state in 0..states {
        if let Some(rank) = bench.verdict(mode, state)? {
            highest = highest.max(rank);
            ranks = ranks.saturating_add((u32::from(rank) + 1) * (u32::from(state) + 1));
            moves = moves.saturating_add(u32::from(bench.moves(mode, state)?));
        }
    }
    Ok(Digest {
        highest,
        ranks,
        moves,
    })
}

// What came of a game: what solve told, and the digests in both modes.
#[derive(Clone, Copy)]
struct Solved {
    tally: Tally,
    sure: Digest,
    almost: Digest,
}

// Solves the game of a source for state 0 as the target.
fn solve<S: Source + Drop>(source: S) -> Result<Solved, Refusal> {
    let states = source.states();
    let mut bench = Bench::open(source);
    bench.mark(0)?;
    let tally = bench.solve();
    let sure = sum_up(&bench, Mode::Sure, states)?;
    let almost = sum_up(&bench, Mode::Almost, states)?;
    Ok(Solved {
        tally,
        sure,
        almost,
    })
}

fn print_solved(rt: &HostRuntime, large: Large, solved: Solved) -> io::Result<()> {
    println!(rt; "{large}: {}", solved.tally)?;
    println!(rt; "{large}: mode sure {}", solved.sure)?;
    println!(rt; "{large}: mode almost {}", solved.almost)
}

// The number alone is printed, so not by the refusal's own text.
fn print_refusal(rt: &HostRuntime, large: Large, refusal: Refusal) -> io::Result<()> {
    println!(rt; "{large}: refused {}", refusal.number())
}

fn print_table(rt: &HostRuntime, large: Large, bytes: &[u8]) -> io::Result<()> {
    let mut table = Table::new();
    if let Err(refusal) = table.open(bytes) {
        return print_refusal(rt, large, refusal);
    }
    let length = bytes.len();
    let states = table.states();
    let supports = count_supports(&table);
    println!(rt; "{large}: bytes {length} states {states} supports {supports}")?;
    match solve(table) {
        Ok(solved) => print_solved(rt, large, solved),
        Err(refusal) => print_refusal(rt, large, refusal),
    }
}

// Builds a game, opens and solves it, and prints what came of it.
pub fn print_game(rt: &HostRuntime, large: Large) -> anyhow::Result<()> {
    let record = large.record(rt.alloc())?;
    print_table(rt, large, record.as_slice())?;
    Ok(())
}
