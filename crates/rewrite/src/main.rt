// Opens the record in the file `game`, writes its game again by the four questions alone, and says what came of it.
#![tactic(auto)]

use copies::{count_supports, rewrite};
use game::refusal::{Fault, Refusal};
use game::source::Source;
use records::table::Table;
use std::alloc::Global;
use std::io::ErrorKind;
use std::{fs, io};

// The bytes of a file. A file that is not there has none.
// The program `verdicts` has the same function: it allocates, which no library crate may.
fn read_or_none(rt: &HostRuntime, path: &str) -> anyhow::Result<Vec<u8>> {
    match fs::read(rt, path) {
        Ok(bytes) => Ok(bytes),
        Err(e) if e.kind() == ErrorKind::NotFound => Ok(Vec::new(rt.alloc())),
        Err(e) => Err(e.into()),
    }
}

// One line for a refusal: its number, and the place if it is a fault.
// The program `verdicts` has a function like it: as a public type that prints itself it would need a text and an edit, and be longer.
fn print_refusal(rt: &HostRuntime, refusal: Refusal) -> io::Result<()> {
    let number = refusal.number();
    match refusal.fault() {
        Some(Fault { place, .. }) => println!(rt; "refused {number} at {place} in game"),
        None => println!(rt; "refused {number} in game"),
    }
}

fn print_game(rt: &HostRuntime, bytes: &[u8], written: &[u8]) -> io::Result<()> {
    let mut table = Table::new();
    if let Err(refusal) = table.open(bytes) {
        return print_refusal(rt, refusal);
    }
    let length = bytes.len();
    let states = table.states();
    let supports = count_supports(&table);
    let same = if bytes == written { "yes" } else { "no" };
    println!(rt; "bytes {length} states {states} supports {supports} same {same}")
}

fn run(rt: &HostRuntime) -> anyhow::Result<()> {
    let bytes = read_or_none(rt, "game")?;
    let mut buffer = vec![in rt.alloc(); 0u8; bytes.len()]?;
    match rewrite(bytes.as_slice(), buffer.as_mut_slice()) {
        Ok(_) => print_game(rt, bytes.as_slice(), buffer.as_slice())?,
        Err(refusal) => print_refusal(rt, refusal)?,
    }
    Ok(())
}

fn main(rt: HostRuntime) -> anyhow::Result<()> {
    run(&rt)
}
