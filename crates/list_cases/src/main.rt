// Lists of calls, each handed over at once: on game H, and on H under a monitor. Every call is printed with its answer; the file
// `stdout` has what is expected.
#![tactic(auto)]

use crate::lists::{ListCase, run_list};
use monitor::Monitored;
use records::table::Table;
use samples::HIDE;
use std::io;

mod even;
mod full;
mod lists;
mod places;
mod plays;
mod room;
mod show;
mod week;

// A monitor of two states that goes to the other one in every round, so that it tells even rounds from odd ones.
const TURNS: [u8; 8] = [1, 1, 1, 1, 0, 0, 0, 0];

// A game under the monitor. Two other programs have the like, of any monitor.
fn monitored(table: Table<'_>) -> Monitored<Table<'_>> {
    let mut game = Monitored::new(table);
    let _ = game.make(2, &TURNS);
    game
}

// Lists on a game as it is.
fn on_table(rt: &HostRuntime, table: Table, cases: &[ListCase]) -> io::Result<()> {
    for case in cases {
        run_list(rt, "H", table, case)?;
    }
    Ok(())
}

// Lists on a game under the monitor.
fn on_monitored(rt: &HostRuntime, table: Table, cases: &[ListCase]) -> io::Result<()> {
    for case in cases {
        run_list(rt, "monitored H", monitored(table), case)?;
    }
    Ok(())
}

fn main(rt: HostRuntime) -> io::Result<()> {
    let mut table = Table::new();
    if let Err(refusal) = table.open(&HIDE) {
        return println!(rt; "H: {refusal}");
    }
    on_table(&rt, table, &week::ON_HIDE)?;
    on_table(&rt, table, &room::LISTS)?;
    on_monitored(&rt, table, &week::ON_MONITORED)?;
    on_monitored(&rt, table, &even::LISTS)?;
    on_monitored(&rt, table, &room::LISTS)?;
    full::full_play(&rt, "H", table)
}
