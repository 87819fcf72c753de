// Making monitors over rings.
use crate::ask::ask_all;
use crate::build::{edited, turning};
use crate::compare::{alike, kept, print_digest, same};
use crate::games::ring;
use crate::open::{monitored, table_on};
use game::source::Source;
use monitor::Monitored;
use records::table::Table;
use std::io;

// A label and a monitor: its number of states, and the length and the changed entries of its table, which else is the
// turning one of three states, filled up with 0.
struct Case(&'static str, u16, usize, &'static [(usize, u8)]);

// Monitors that are refused over a ring of 85.
const REFUSED: [Case; 14] = [
    Case("no monitor states", 0, 0, &[]),
    Case("0 monitor states with a table", 0, 255, &[]),
    Case("9 monitor states", 9, 765, &[]),
    Case("65535 monitor states", 65535, 255, &[]),
    Case("4 monitor states", 4, 340, &[]),
    Case("8 monitor states", 8, 3, &[(0, 9)]),
    Case("no table", 3, 0, &[]),
    Case("table of 254", 3, 254, &[]),
    Case("table of 256", 3, 256, &[]),
    Case(
        "table of 256 with wrong entries",
        3,
        256,
        &[(0, 3), (255, 3)],
    ),
    Case("first entry 3", 3, 255, &[(0, 3)]),
    Case("entry 100 is 3", 3, 255, &[(100, 3)]),
    Case("last entry 255", 3, 255, &[(254, 255)]),
    Case(
        "entries 7, 200 and 254 wrong",
        3,
        255,
        &[(254, 3), (7, 4), (200, 255)],
    ),
];

const QUESTIONS: [(u16, u8, u8, u16); 10] = [
    (0, 0, 0, 0),
    (1, 0, 0, 0),
    (2, 0, 0, 0),
    (252, 0, 0, 0),
    (253, 0, 0, 0),
    (254, 0, 0, 0),
    (254, 0, 0, 1),
    (254, 1, 0, 0),
    (255, 0, 0, 0),
    (65535, 0, 0, 0),
];

// Makes a monitor, and prints what came and what the game is then. Until then it is that of the source `before`.
pub fn make<S: Source, B: Source>(
    rt: &impl Print,
    label: &str,
    game: &mut Monitored<S>,
    before: &B,
    (m, table): (u16, &[u8]),
) -> io::Result<()> {
    match game.make(m, table) {
        Ok(()) => {
            let states = game.states();
            println!(rt; "{label}: ok; states {states}")
        }
        Err(refusal) => {
            let after = kept(same(game, before));
            println!(rt; "{label}: {refusal}; {after}")
        }
    }
}

// Makes each monitor that is refused.
fn refused<B: Source>(
    rt: &HostRuntime,
    name: &str,
    game: &mut Monitored<Table>,
    before: &B,
    turns: &[u8],
) -> io::Result<()> {
    for Case(label, m, length, edits) in &REFUSED {
        let label = format!(in rt.alloc(); "{name}, {label}")?;
        let table = edited(rt.alloc(), turns, *length, edits)?;
        make(rt, label.as_str(), game, before, (*m, table.as_slice()))?;
    }
    Ok(())
}

// Prints where a play starts from a state.
fn start<S: Source>(
    rt: &impl Print,
    label: &str,
    game: &Monitored<S>,
    state: u16,
) -> io::Result<()> {
    print!(rt; "{label}, start {state}: ")?;
    match game.start(state) {
        Ok(first) => println!(rt; "{first}"),
        Err(refusal) => println!(rt; "{refusal}"),
    }
}

// Prints where plays start from some states.
fn start_all<S: Source>(
    rt: &impl Print,
    label: &str,
    game: &Monitored<S>,
    states: &[u16],
) -> io::Result<()> {
    for state in states {
        start(rt, label, game, *state)?;
    }
    Ok(())
}

// The ring of 85, as it is and under a monitor of three states.
fn ring_of_85(rt: &HostRuntime, record: &[u8], turns: &[u8]) -> io::Result<()> {
    let table = table_on(record);
    let mut game = Monitored::new(table);
    println!(rt; "ring of 85, new: {}", alike(same(&game, &table)))?;
    start_all(rt, "ring of 85, new", &game, &[0, 84, 85, 65535])?;
    refused(rt, "new", &mut game, &table, turns)?;
    make(
        rt,
        "ring of 85, 3 monitor states",
        &mut game,
        &table,
        (3, turns),
    )?;
    let before = monitored(table, 3, turns);
    refused(rt, "made", &mut game, &before, turns)?;
    print_digest(rt, "ring of 85 monitored", &game)?;
    start_all(
        rt,
        "ring of 85 monitored",
        &game,
        &[0, 1, 84, 85, 255, 65535],
    )?;
    ask_all(rt, "ring of 85 monitored", &game, &QUESTIONS)
}

pub fn ring_85(rt: &HostRuntime) -> io::Result<()> {
    let record = ring(rt.alloc(), 84)?;
    let turns = turning(rt.alloc(), 85, 3)?;
    ring_of_85(rt, record.as_slice(), turns.as_slice())
}

// Makes a monitor of m states over a ring.
fn over(rt: &impl Print, label: &str, record: &[u8], m: u16, turns: &[u8]) -> io::Result<()> {
    let table = table_on(record);
    let mut game = Monitored::new(table);
    make(rt, label, &mut game, &table, (m, turns))
}

// Makes a turning monitor of m states over the ring of the states 0 to `last`.
fn over_ring(rt: &HostRuntime, last: u8, m: u8) -> io::Result<()> {
    let n = u16::from(last) + 1;
    let record = ring(rt.alloc(), last)?;
    let turns = turning(rt.alloc(), n, m)?;
    let label = format!(in rt.alloc(); "ring of {n}, {m} monitor states")?;
    over(
        rt,
        label.as_str(),
        record.as_slice(),
        u16::from(m),
        turns.as_slice(),
    )
}

pub fn rings(rt: &HostRuntime) -> io::Result<()> {
    over_ring(rt, 85, 3)?;
    over_ring(rt, 85, 2)?;
    over_ring(rt, 31, 8)?;
    over_ring(rt, 32, 8)?;
    over_ring(rt, 127, 2)?;
    over_ring(rt, 128, 2)?;
    over_ring(rt, 255, 1)?;
    over_ring(rt, 255, 2)?;
    over_ring(rt, 0, 8)
}
