// Games under one monitor and under two.
use crate::ask::{ask_all, print_rows};
use crate::build::turning;
use crate::compare::{alike, print_digest, same};
use crate::games::{crowd, ring};
use crate::monitors::make;
use crate::open::{monitored, table_on};
use crate::show::Outcome;
use crate::writing::put_and_open;
use game::source::Source;
use monitor::Monitored;
use samples::{HIDE, SAFE_SEEN};
use std::io;

const QUESTIONS: [(u16, u8, u8, u16); 9] = [
    (0, 0, 1, 0),
    (1, 0, 1, 0),
    (1, 1, 0, 1),
    (7, 0, 0, 0),
    (8, 0, 0, 0),
    (9, 0, 0, 0),
    (0, 2, 0, 0),
    (0, 0, 200, 0),
    (65535, 0, 0, 0),
];

// Monitors of two, three and one states over game H, one in the place of another.
fn hide_monitored(rt: &impl Print, turns: &[u8]) -> io::Result<()> {
    let table = table_on(&HIDE);
    let mut game = Monitored::new(table);
    make(
        rt,
        "H, 2 monitor states",
        &mut game,
        &table,
        (2, &SAFE_SEEN),
    )?;
    print_rows(rt, "H with 2", &game)?;
    print_digest(rt, "H with 2", &game)?;
    ask_all(rt, "H with 2", &game, &QUESTIONS)?;
    make(rt, "then 3 monitor states", &mut game, &table, (3, turns))?;
    print_rows(rt, "H with 3", &game)?;
    let outcome = Outcome(game.make(3, &[0; 24]));
    println!(rt;
        "then a table for 8 states: {outcome}; states {}",
        game.states()
    )?;
    make(rt, "then 1 monitor state", &mut game, &table, (1, &[0; 4]))?;
    println!(rt; "H with 1 and H: {}", alike(same(&game, &table)))
}

pub fn hide(rt: &HostRuntime) -> io::Result<()> {
    let turns = turning(rt.alloc(), 4, 3)?;
    hide_monitored(rt, turns.as_slice())
}

// A record's game under a monitor of m states, and that game under one of l states: where a play starts from state 3 of the
// record, a digest, and the game written and opened again. The rows of a small game are printed too.
fn twice(
    rt: &HostRuntime,
    label: &str,
    record: &[u8],
    (m, first): (u16, &[u8]),
    (l, second): (u16, &[u8]),
) -> io::Result<()> {
    let inner = monitored(table_on(record), m, first);
    let start = inner.start(3).unwrap_or(0);
    let outer = monitored(inner, l, second);
    let again = outer.start(start).unwrap_or(0);
    println!(rt; "{label}, start 3: {start} then {again}")?;
    print_digest(rt, label, &outer)?;
    put_and_open(rt, label, &outer, 60000)?;
    if outer.states() < 32 {
        print_rows(rt, label, &outer)?;
    }
    Ok(())
}

pub fn monitored_twice(rt: &HostRuntime) -> io::Result<()> {
    let heap = rt.alloc();
    let turns = turning(heap, 8, 3)?;
    twice(
        rt,
        "H with 2 and 3",
        &HIDE,
        (2, &SAFE_SEEN),
        (3, turns.as_slice()),
    )?;
    let turns = turning(heap, 64, 4)?;
    let record = ring(heap, 15)?;
    let first = turning(heap, 16, 4)?;
    twice(
        rt,
        "ring of 16 with 4 and 4",
        record.as_slice(),
        (4, first.as_slice()),
        (4, turns.as_slice()),
    )?;
    let record = crowd(heap, 5)?;
    let first = turning(heap, 32, 2)?;
    twice(
        rt,
        "crowd of 5 with 2 and 4",
        record.as_slice(),
        (2, first.as_slice()),
        (4, turns.as_slice()),
    )
}
