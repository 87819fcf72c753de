// The games of the cases, as records, and benches on them.
use bench::bench::Bench;
use records::table::Table;
use std::alloc::{AllocError, Global};

// At 0 both players have two moves; equal ones lead to 1 and unequal ones to 0. State 1 leads to itself.
pub const EQUAL: [u8; 30] = *b"\x01\
    \x03\x03\x01\0\0\0\x02\x01\0\0\0\x01\x01\0\0\0\x01\x01\0\0\0\x02\
    \x01\x01\x01\0\0\0\x02";

// One move each. State 0 leads to 0 or 1, and 1 to itself.
pub const DRIFT: [u8; 15] = *b"\x01\
    \x01\x01\x01\0\0\0\x03\
    \x01\x01\x01\0\0\0\x02";

// State 0 leads to itself, 1 to 0 and 2 to 1. At 3 player 1 has the moves 0 and 7 and player 2 the moves 0 and 1: move 0 of
// player 1 leads to 3, and move 7 to 1 or 2 with move 0 of player 2 and to 0 with move 1.
pub const CHAIN: [u8; 44] = *b"\x03\
    \x01\x01\x01\0\0\0\x01\
    \x01\x01\x01\0\0\0\x01\
    \x01\x01\x01\0\0\0\x02\
    \x81\x03\x01\0\0\0\x08\x01\0\0\0\x08\x01\0\0\0\x06\x01\0\0\0\x01";

// The group map of the set of two states.
fn map_of(low: u8, high: u8) -> [u8; 4] {
    let mut map = [0; 4];
    map[usize::from(low / 64)] |= 1 << (low / 8 % 8);
    map[usize::from(high / 64)] |= 1 << (high / 8 % 8);
    map
}

// Puts a row behind a record: move 0 for both players, and the support of the states `low` and `high`.
fn put_row(record: &mut Vec<u8>, low: u8, high: u8) -> Result<(), AllocError> {
    let first = 1 << (low % 8);
    let second = 1 << (high % 8);
    record.push(1)?;
    record.push(1)?;
    record.extend_from_slice(&map_of(low, high))?;
    if low / 8 == high / 8 {
        record.push(first | second)?;
    } else {
        record.push(first)?;
        record.push(second)?;
    }
    Ok(())
}

// 256 states in a line: each leads to the one below, and 0 to itself. (The program `large_games` builds the same by steps of its own.)
pub fn line(heap: Global) -> Result<Vec<u8>, AllocError> {
    let mut record = Vec::from_slice(heap, &[255])?;
    put_row(&mut record, 0, 0)?;
    for state in 1..=255u8 {
        put_row(&mut record, state - 1, state - 1)?;
    }
    Ok(record)
}

// 256 states: 0 and 1 lead to themselves, and each other state to 0 or to the one below.
pub fn stairs(heap: Global) -> Result<Vec<u8>, AllocError> {
    let mut record = Vec::from_slice(heap, &[255])?;
    put_row(&mut record, 0, 0)?;
    put_row(&mut record, 1, 1)?;
    for state in 2..=255u8 {
        put_row(&mut record, 0, state - 1)?;
    }
    Ok(record)
}

// A table opened on a record. The program `record_cases` has the same: a public function would need a contract and an edit, and be longer.
pub fn table_on(record: &[u8]) -> Table<'_> {
    let mut table = Table::new();
    let _ = table.open(record);
    table
}

// A new bench on the game of a record.
pub fn bench_on(record: &[u8]) -> Bench<Table<'_>> {
    Bench::open(table_on(record))
}

// A solved bench on the game of a record, with the target marked.
pub fn solved_on<'a>(record: &'a [u8], target: &[u16]) -> Bench<Table<'a>> {
    let mut bench = bench_on(record);
    for state in target {
        let _ = bench.mark(*state);
    }
    let _ = bench.solve();
    bench
}
