// Faults in the record of game H.
use crate::build::edited;
use crate::open::{Case, open, open_all};
use samples::{HIDE, ONE};
use std::io;

// One fault.
const ONE_FAULT: [Case; 21] = [
    Case("zero group, state 0", 44, &[(7, 0)]),
    Case("zero group, state 0, last support", 44, &[(22, 0)]),
    Case("zero group, state 1", 44, &[(29, 0)]),
    Case("empty support, state 0", 44, &[(3, 0)]),
    Case("empty support, state 0, last support", 44, &[(18, 0)]),
    Case("empty support, state 2", 44, &[(32, 0)]),
    Case("member outside, state 0", 44, &[(7, 17)]),
    Case("member outside, state 3", 44, &[(43, 16)]),
    Case("first move byte zero, state 0", 44, &[(1, 0)]),
    Case("second move byte zero, state 0", 44, &[(2, 0)]),
    Case("first move byte zero, state 2", 44, &[(30, 0)]),
    Case("second move byte zero, state 2", 44, &[(31, 0)]),
    Case("last row of one zero byte", 38, &[(37, 0)]),
    Case("last row of one nonzero byte", 38, &[]),
    Case("last row of one byte 80", 38, &[(37, 128)]),
    Case("one byte remains", 45, &[]),
    Case("44 bytes remain", 88, &[]),
    Case("a state fewer", 44, &[(0, 2)]),
    Case("a state more", 44, &[(0, 4)]),
    Case("a move more", 44, &[(1, 7)]),
    Case("a move fewer", 44, &[(1, 1)]),
];

// Group bytes past the states of the game, at state 1, whose support begins at place 25.
const PAST_STATES: [Case; 6] = [
    Case("zero byte of group 1", 44, &[(25, 2), (29, 0)]),
    Case("nonzero byte of group 1", 44, &[(25, 2), (29, 1)]),
    Case("zero byte of group 31", 44, &[(25, 0), (28, 128), (29, 0)]),
    Case(
        "nonzero byte of group 31",
        44,
        &[(25, 0), (28, 128), (29, 1)],
    ),
    Case("groups 0 and 1, the second zero", 44, &[(25, 3), (30, 0)]),
    Case("groups 0 and 1, the second outside", 44, &[(25, 3)]),
];

// Two faults: the one that stands first is told.
const TWO_FAULTS: [Case; 13] = [
    Case("12 before 14", 44, &[(29, 0), (43, 16)]),
    Case("14 before 12", 44, &[(29, 16), (36, 0)]),
    Case("14 before 12 in one set", 44, &[(25, 3), (29, 16), (30, 0)]),
    Case("12 before 14 in one set", 44, &[(25, 3), (29, 0), (30, 1)]),
    Case("15 before 15", 44, &[(1, 0), (2, 0)]),
    Case("15 before 13", 44, &[(2, 0), (3, 0)]),
    Case("13 before 15", 44, &[(25, 0), (30, 0)]),
    Case("13 before 11", 29, &[(25, 0)]),
    Case("11 in an empty map", 28, &[(25, 0)]),
    Case("12 before 11", 30, &[(29, 0)]),
    Case("15 before 11", 24, &[(23, 0)]),
    Case("12 before 16", 50, &[(43, 0)]),
    Case("15 before 16", 50, &[(38, 0)]),
];

// Every cut: the number of states is missing, then the move bytes of a row, the map of a set or its group byte.
fn cuts(rt: &HostRuntime) -> io::Result<()> {
    for length in 0..44 {
        let bytes = edited(rt.alloc(), &HIDE, length, &[])?;
        let label = format!(in rt.alloc(); "H cut to {length}")?;
        open(rt, label.as_str(), &ONE, bytes.as_slice())?;
    }
    Ok(())
}

pub fn faults(rt: &HostRuntime) -> io::Result<()> {
    cuts(rt)?;
    open_all(rt, &ONE, &HIDE, &ONE_FAULT)?;
    open_all(rt, &ONE, &HIDE, &PAST_STATES)?;
    open_all(rt, &ONE, &HIDE, &TWO_FAULTS)
}
