// The games of the cases, as records.
use crate::build::{all, members, put_moves, put_set};
use std::alloc::{AllocError, Global};

// The states 0 to `last` in a ring: each leads to the next, and the last to 0.
pub fn ring(heap: Global, last: u8) -> Result<Vec<u8>, AllocError> {
    let mut record = Vec::from_slice(heap, &[last])?;
    for state in 0..=last {
        let next = if state < last { state + 1 } else { 0 };
        put_moves(&mut record, 1, 1)?;
        put_set(&mut record, &members(&[next]))?;
    }
    Ok(record)
}

// The row of state 1 of the wide game: all moves, and for a and b the states 8 a + b and 255 - 8 a - b.
fn put_pairs(record: &mut Vec<u8>) -> Result<(), AllocError> {
    put_moves(record, 255, 255)?;
    for low in 0..64 {
        put_set(record, &members(&[low, 255 - low]))?;
    }
    Ok(())
}

// The wide game has 256 states. At 0 player 1 has the moves 0 and 3 and player 2 the move 1; move 0 leads to all states
// and move 3 to five of them. At a state s from 2 on, move 7 of player 1 and move 0 of player 2 lead to s - 1 and s.
pub fn wide(heap: Global) -> Result<Vec<u8>, AllocError> {
    let mut record = Vec::from_slice(heap, &[255])?;
    put_moves(&mut record, 9, 2)?;
    put_set(&mut record, &all())?;
    put_set(&mut record, &members(&[5, 8, 77, 200, 255]))?;
    put_pairs(&mut record)?;
    for state in 2..=255u8 {
        put_moves(&mut record, 128, 1)?;
        put_set(&mut record, &members(&[state - 1, state]))?;
    }
    Ok(record)
}

// One state in each of the groups 0 to 24, and in group 25 if there is to be one more: in group g the state
// 8 g + (from + g) % 8.
fn spread(from: u16, more: bool) -> [u8; 32] {
    let mut groups = [0; 32];
    let count = if more { 26 } else { 25 };
    for (g, group) in groups.iter_mut().enumerate().take(count) {
        *group = 1 << ((usize::from(from) + g) % 8);
    }
    groups
}

// The limit game has 256 states with eight moves of player 1 and one of player 2. The support of move a at s is spread
// from s + a on, and has one group more at move 0 of the first `longer` states. Its record has 59,905 bytes and `longer`.
pub fn limit(heap: Global, longer: u16) -> Result<Vec<u8>, AllocError> {
    let mut record = Vec::from_slice(heap, &[255])?;
    for state in 0..256 {
        put_moves(&mut record, 255, 1)?;
        for a in 0..8 {
            put_set(&mut record, &spread(state + a, a == 0 && state < longer))?;
        }
    }
    Ok(record)
}

// The states 0 to 24, and 25 if there is to be one more.
fn crowded(more: bool) -> [u8; 32] {
    let mut groups = [0; 32];
    groups[..3].fill(255);
    groups[3] = if more { 3 } else { 1 };
    groups
}

// The crowd has 32 states with eight moves of player 1 and one of player 2. Each support has 25 states, or 26 at move 0
// of the first `longer` states.
pub fn crowd(heap: Global, longer: u16) -> Result<Vec<u8>, AllocError> {
    let mut record = Vec::from_slice(heap, &[31])?;
    for state in 0..32 {
        put_moves(&mut record, 255, 1)?;
        for a in 0..8 {
            put_set(&mut record, &crowded(a == 0 && state < longer))?;
        }
    }
    Ok(record)
}
