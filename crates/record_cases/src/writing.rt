// Writing records into buffers.
use crate::build::turning;
use crate::compare::{alike, bytes_digest, kept, same};
use crate::games::{crowd, limit, wide};
use crate::open::{monitored, table_on};
use crate::show::Outcome;
use game::source::Source;
use records::table::Table;
use samples::{HIDE, ONE};
use std::io;
use writer::{record_length, write};

// What each byte of a buffer is before it is written to.
const FILL: u8 = 170;

// Whether the buffer begins with the record, and is as before behind it.
fn holds(buffer: &[u8], record: &[u8]) -> bool {
    buffer
        .strip_prefix(record)
        .is_some_and(|rest| rest.iter().all(|byte| *byte == FILL))
}

// Writes a source into a buffer of so many bytes, and prints what came and what the buffer holds then. Its record is known.
fn put<S: Source>(
    rt: &HostRuntime,
    label: &str,
    source: &S,
    record: &[u8],
    room: usize,
) -> io::Result<()> {
    let mut buffer = vec![in rt.alloc(); FILL; room]?;
    match write(source, buffer.as_mut_slice()) {
        Ok(length) => {
            let after = if holds(buffer.as_slice(), record) {
                "record, rest as before"
            } else {
                "other bytes"
            };
            println!(rt; "{label} into {room}: ok {length}; {after}")
        }
        Err(refusal) => {
            let after = kept(holds(buffer.as_slice(), &[]));
            println!(rt; "{label} into {room}: {refusal}; buffer {after}")
        }
    }
}

// Writes a source into buffers of several lengths.
fn put_all<S: Source>(
    rt: &HostRuntime,
    label: &str,
    source: &S,
    record: &[u8],
    rooms: &[usize],
) -> io::Result<()> {
    let length = record_length(source);
    println!(rt; "{label}: length {length}")?;
    for room in rooms {
        put(rt, label, source, record, *room)?;
    }
    Ok(())
}

// Opens a table on a record and writes it into buffers of several lengths.
fn put_table(rt: &HostRuntime, label: &str, record: &[u8], rooms: &[usize]) -> io::Result<()> {
    put_all(rt, label, &table_on(record), record, rooms)
}

// Prints what a table that is opened on a written record shows, beside the source that was written.
fn print_again<S: Source>(rt: &impl Print, source: &S, record: &[u8]) -> io::Result<()> {
    let mut table = Table::new();
    let outcome = Outcome(table.open(record));
    let digest = bytes_digest(record);
    let alike = alike(same(&table, source));
    print!(rt; ", digest {digest}, opened {outcome}, {alike}")
}

// Writes a source into a buffer of so many bytes, opens a table on what was written, and compares the two.
pub fn put_and_open<S: Source>(
    rt: &HostRuntime,
    label: &str,
    source: &S,
    room: usize,
) -> io::Result<()> {
    let mut buffer = vec![in rt.alloc(); FILL; room]?;
    match write(source, buffer.as_mut_slice()) {
        Ok(length) => {
            let record = buffer.as_slice().get(0..length).unwrap_or(&[]);
            print!(rt; "{label} into {room}: ok {length}")?;
            print_again(rt, source, record)?;
            let after = kept(holds(buffer.as_slice(), record));
            println!(rt; ", rest {after}")
        }
        Err(refusal) => println!(rt; "{label} into {room}: {refusal}"),
    }
}

// A crowd under a monitor of eight states, whose record has 59,993 bytes.
fn crowd_short(rt: &HostRuntime, base: &[u8], turns: &[u8]) -> io::Result<()> {
    let source = monitored(table_on(base), 8, turns);
    put_all(rt, "crowd of 11 monitored", &source, &[], &[59992])?;
    put_and_open(rt, "crowd of 11 monitored", &source, 59993)?;
    put_and_open(rt, "crowd of 11 monitored", &source, 60001)
}

// With one member more in eight supports, the record has 60,001 bytes and is too long.
fn crowd_long(rt: &HostRuntime, base: &[u8], turns: &[u8]) -> io::Result<()> {
    let source = monitored(table_on(base), 8, turns);
    put_all(
        rt,
        "crowd of 12 monitored",
        &source,
        &[],
        &[0, 10, 60000, 60001, 60002],
    )
}

pub fn tables(rt: &HostRuntime) -> io::Result<()> {
    put_table(rt, "H", &HIDE, &[0, 1, 43, 44, 45, 50])?;
    put_all(rt, "new table", &Table::new(), &ONE, &[0, 7, 8, 9])?;
    let record = wide(rt.alloc())?;
    put_table(rt, "wide game", record.as_slice(), &[2242, 2243, 2300])?;
    let record = limit(rt.alloc(), 95)?;
    put_table(rt, "limit game", record.as_slice(), &[59999, 60000, 60001])
}

pub fn crowds(rt: &HostRuntime) -> io::Result<()> {
    let turns = turning(rt.alloc(), 32, 8)?;
    let base = crowd(rt.alloc(), 11)?;
    crowd_short(rt, base.as_slice(), turns.as_slice())?;
    let base = crowd(rt.alloc(), 12)?;
    crowd_long(rt, base.as_slice(), turns.as_slice())
}
