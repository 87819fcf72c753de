// Tables opened on bytes, and games under monitors.
use crate::build::edited;
use crate::compare::{kept, same};
use game::source::Source;
use monitor::Monitored;
use records::table::Table;
use std::io;

// A table opened on a record. The program `bench_cases` has the same: a public function would need a contract and an edit, and be longer.
pub fn table_on(record: &[u8]) -> Table<'_> {
    let mut table = Table::new();
    let _ = table.open(record);
    table
}

// The game of a source under a monitor of m states. Two other programs have the like: a public function would need a contract and an
// edit, and be longer.
pub fn monitored<S: Source>(source: S, m: u16, turns: &[u8]) -> Monitored<S> {
    let mut game = Monitored::new(source);
    let _ = game.make(m, turns);
    game
}

// A label and a record: the length and the changed places of known bytes, filled up with 0.
pub struct Case(pub &'static str, pub usize, pub &'static [(usize, u8)]);

// Opens a table on the bytes that already shows another record, and prints what came and what it shows then.
pub fn open(rt: &impl Print, label: &str, shown: &[u8], bytes: &[u8]) -> io::Result<()> {
    let mut table = table_on(shown);
    let before = table_on(shown);
    match table.open(bytes) {
        Ok(()) => {
            let states = table.states();
            println!(rt; "{label}: ok; states {states}")
        }
        Err(refusal) => {
            let after = kept(same(&table, &before));
            println!(rt; "{label}: {refusal}; {after}")
        }
    }
}

// Opens a table on each case of some bytes.
pub fn open_all(rt: &HostRuntime, shown: &[u8], bytes: &[u8], cases: &[Case]) -> io::Result<()> {
    for Case(label, length, edits) in cases {
        let bytes = edited(rt.alloc(), bytes, *length, edits)?;
        open(rt, label, shown, bytes.as_slice())?;
    }
    Ok(())
}
