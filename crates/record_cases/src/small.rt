// The record of one state, the table that is not opened yet, and game H.
use crate::ask::{ask_all, print_rows};
use crate::compare::{alike, print_digest, same};
use crate::open::{Case, open_all, table_on};
use crate::show::Outcome;
use records::table::Table;
use samples::{HIDE, ONE};
use std::io;

// A state, a move of player 1, a move of player 2 and the number of a member.
const NEW_QUESTIONS: [(u16, u8, u8, u16); 6] = [
    (0, 0, 0, 0),
    (0, 0, 0, 1),
    (0, 1, 0, 0),
    (0, 0, 1, 0),
    (1, 0, 0, 0),
    (65535, 0, 0, 0),
];

// The record of one state and its damaged forms.
const ONE_CASES: [Case; 7] = [
    Case("one state", 8, &[]),
    Case("one state, last byte 00", 8, &[(7, 0)]),
    Case("one state, last byte 02", 8, &[(7, 2)]),
    Case("one state, last byte 03", 8, &[(7, 3)]),
    Case("one state, last byte missing", 7, &[]),
    Case("one state, a byte more", 9, &[]),
    Case("one state, counted as 256", 8, &[(0, 255)]),
];

// The record of one state with another last byte, and without it.
const ZERO_LAST: [u8; 8] = [0, 1, 1, 1, 0, 0, 0, 0];

const TWO_LAST: [u8; 8] = [0, 1, 1, 1, 0, 0, 0, 2];

const NONE_LAST: [u8; 7] = [0, 1, 1, 1, 0, 0, 0];

// Opens a table on bytes, and prints what came and all that it shows then.
fn open_and_print<'a>(
    rt: &impl Print,
    label: &str,
    table: &mut Table<'a>,
    bytes: &'a [u8],
) -> io::Result<()> {
    let outcome = Outcome(table.open(bytes));
    println!(rt; "{label}: {outcome}")?;
    print_rows(rt, label, table)
}

// A new table that is refused three times.
fn new_refused(rt: &impl Print) -> io::Result<()> {
    let mut table = Table::new();
    open_and_print(rt, "new table on 00", &mut table, &ZERO_LAST)?;
    open_and_print(rt, "new table on 02", &mut table, &TWO_LAST)?;
    open_and_print(rt, "new table on 7 bytes", &mut table, &NONE_LAST)
}

// A table that is opened, refused, opened again and refused again.
fn opened_again(rt: &impl Print) -> io::Result<()> {
    let mut table = Table::new();
    open_and_print(rt, "table on H", &mut table, &HIDE)?;
    open_and_print(rt, "then on 02", &mut table, &TWO_LAST)?;
    open_and_print(rt, "then on one state", &mut table, &ONE)?;
    open_and_print(rt, "then on no bytes", &mut table, &[])
}

pub fn one_state(rt: &HostRuntime) -> io::Result<()> {
    let table = Table::new();
    print_digest(rt, "new table", &table)?;
    print_rows(rt, "new table", &table)?;
    ask_all(rt, "new table", &table, &NEW_QUESTIONS)?;
    open_all(rt, &HIDE, &ONE, &ONE_CASES)?;
    new_refused(rt)?;
    opened_again(rt)
}

// Every question inside game H, and then some outside.
const HIDE_QUESTIONS: [(u16, u8, u8, u16); 19] = [
    (0, 0, 0, 0),
    (0, 0, 1, 0),
    (0, 1, 0, 0),
    (0, 1, 1, 0),
    (1, 0, 0, 0),
    (2, 0, 0, 0),
    (3, 0, 0, 0),
    (0, 1, 1, 1),
    (4, 0, 0, 0),
    (0, 2, 0, 0),
    (0, 0, 2, 0),
    (0, 200, 0, 0),
    (0, 0, 200, 0),
    (0, 8, 9, 0),
    (1, 1, 0, 0),
    (1, 0, 1, 0),
    (3, 0, 0, 65535),
    (256, 0, 0, 0),
    (65535, 0, 0, 0),
];

pub fn hide(rt: &impl Print) -> io::Result<()> {
    let table = table_on(&HIDE);
    let new = Table::new();
    print_digest(rt, "H", &table)?;
    print_rows(rt, "H", &table)?;
    ask_all(rt, "H", &table, &HIDE_QUESTIONS)?;
    println!(rt; "H and H: {}", alike(same(&table, &table)))?;
    println!(rt; "H and one state: {}", alike(same(&table, &new)))
}
