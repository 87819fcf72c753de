// Records at the greatest length, and a game of 256 states.
use crate::ask::ask_all;
use crate::build::edited;
use crate::compare::{bytes_digest, print_digest};
use crate::games::{limit, wide};
use crate::open::{Case, open, open_all, table_on};
use samples::{HIDE, ONE};
use std::io;

// The last row of the limit game begins at place 59,766.
const LIMIT_CASES: [Case; 5] = [
    Case("limit game", 60000, &[]),
    Case("limit game, last byte zero", 60000, &[(59999, 0)]),
    Case("limit game, last byte missing", 59999, &[]),
    Case("limit game, last row zero", 60000, &[(59766, 0)]),
    Case("limit game, a byte more", 60001, &[]),
];

const LIMIT_QUESTIONS: [(u16, u8, u8, u16); 7] = [
    (0, 0, 0, 25),
    (0, 0, 0, 26),
    (94, 0, 0, 25),
    (95, 0, 0, 25),
    (255, 7, 0, 24),
    (255, 7, 0, 25),
    (255, 7, 1, 0),
];

// The support of all states begins at place 3, and the row of state 255 at place 2,236.
const WIDE_CASES: [Case; 13] = [
    Case("wide game", 2243, &[]),
    Case("wide game cut to 7", 7, &[]),
    Case("wide game cut to 20", 20, &[]),
    Case("wide game cut to 38", 38, &[]),
    Case("wide game cut to 46", 46, &[]),
    Case("wide game cut to 2242", 2242, &[]),
    Case("wide game, group 13 zero", 2243, &[(20, 0)]),
    Case("wide game, group 31 zero", 2243, &[(38, 0)]),
    Case("wide game, 255 states", 2243, &[(0, 254)]),
    Case("wide game, group zero, state 255", 2243, &[(2242, 0)]),
    Case("wide game, empty support, state 255", 2243, &[(2241, 0)]),
    Case(
        "wide game, second move byte zero, state 255",
        2243,
        &[(2237, 0)],
    ),
    Case("wide game, a byte more", 2244, &[]),
];

// The supports of state 0, with 256 and with five members.
const WIDE_MEMBERS: [(u16, u8, u8, u16); 11] = [
    (0, 0, 1, 0),
    (0, 0, 1, 7),
    (0, 0, 1, 8),
    (0, 0, 1, 255),
    (0, 0, 1, 256),
    (0, 3, 1, 0),
    (0, 3, 1, 1),
    (0, 3, 1, 2),
    (0, 3, 1, 3),
    (0, 3, 1, 4),
    (0, 3, 1, 5),
];

// The other states of the wide game, and moves that the players have not.
const WIDE_QUESTIONS: [(u16, u8, u8, u16); 13] = [
    (1, 0, 0, 0),
    (1, 0, 0, 1),
    (1, 7, 7, 0),
    (1, 7, 7, 1),
    (1, 7, 7, 2),
    (1, 2, 5, 1),
    (8, 7, 0, 0),
    (8, 7, 0, 1),
    (255, 7, 0, 0),
    (255, 7, 0, 1),
    (256, 7, 0, 0),
    (0, 0, 0, 0),
    (0, 1, 1, 0),
];

// Opens a table on known bytes filled up with 0.
fn filled(rt: &HostRuntime, label: &str, bytes: &[u8], length: usize) -> io::Result<()> {
    let bytes = edited(rt.alloc(), bytes, length, &[])?;
    open(rt, label, &HIDE, bytes.as_slice())
}

// Prints the length of a record and a digest of its bytes.
fn print_bytes(rt: &impl Print, label: &str, bytes: &[u8]) -> io::Result<()> {
    let length = bytes.len();
    let digest = bytes_digest(bytes);
    println!(rt; "{label}, bytes {length}, digest {digest}")
}

pub fn lengths(rt: &HostRuntime) -> io::Result<()> {
    filled(rt, "60000 zero bytes", &[], 60000)?;
    filled(rt, "60001 zero bytes", &[], 60001)?;
    filled(rt, "one state, 60000 bytes", &ONE, 60000)?;
    filled(rt, "one state, 60001 bytes", &ONE, 60001)
}

// Asks about the limit game.
fn ask_limit(rt: &impl Print, record: &[u8]) -> io::Result<()> {
    let table = table_on(record);
    print_digest(rt, "limit game", &table)?;
    ask_all(rt, "limit game", &table, &LIMIT_QUESTIONS)
}

pub fn limit_game(rt: &HostRuntime) -> io::Result<()> {
    let record = limit(rt.alloc(), 95)?;
    print_bytes(rt, "limit game", record.as_slice())?;
    open_all(rt, &HIDE, record.as_slice(), &LIMIT_CASES)?;
    let longer = limit(rt.alloc(), 96)?;
    print_bytes(rt, "limit game and a group", longer.as_slice())?;
    open(rt, "limit game and a group", &HIDE, longer.as_slice())?;
    ask_limit(rt, record.as_slice())
}

// Asks about the wide game.
fn ask_wide(rt: &impl Print, record: &[u8]) -> io::Result<()> {
    let table = table_on(record);
    print_digest(rt, "wide game", &table)?;
    ask_all(rt, "wide game", &table, &WIDE_MEMBERS)?;
    ask_all(rt, "wide game", &table, &WIDE_QUESTIONS)
}

pub fn wide_game(rt: &HostRuntime) -> io::Result<()> {
    let record = wide(rt.alloc())?;
    print_bytes(rt, "wide game", record.as_slice())?;
    open_all(rt, &HIDE, record.as_slice(), &WIDE_CASES)?;
    ask_wide(rt, record.as_slice())
}
