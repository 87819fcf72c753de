// The wide game: 162 states, told by their places on a path. The state in place p is 11 p modulo 162, so that neighbours on
// the path are in different groups of eight. Place 0 is home and place 161 the pit; these two lead to themselves. The places
// between are firm, loose or slippery, and both players have eight moves there. The record has 60,000 bytes.
use crate::build::Record;
use std::alloc::{AllocError, Global};

const PLACES: u16 = 162;

const HOME: u16 = 0;

const LAST_FIRM: u16 = 40;

const LAST_LOOSE: u16 = 80;

const PIT: u16 = 161;

// The place next to p on the side of home.
fn down(p: u16) -> u16 {
    p.saturating_sub(1)
}

// The place next to p on the side of the pit.
fn up(p: u16) -> u16 {
    p.saturating_add(1)
}

// A firm place is sure: its move p % 8 leads to the two places below. Its other even moves may lead into the pit.
fn firm(p: u16, a: u8, b: u8) -> [u16; 2] {
    if u16::from(a) == p % 8 {
        [down(down(p)), down(p)]
    } else if a % 2 == 0 && b == 7 {
        [p, PIT]
    } else {
        [down(p), up(p)]
    }
}

// A loose place is almost sure and not sure: two moves that are equal modulo 4 may lead down, and others stay.
// The moves from 4 on may lead into the pit.
fn loose(p: u16, a: u8, b: u8) -> [u16; 2] {
    if a >= 4 && b == 0 {
        [p, PIT]
    } else if a % 4 == b % 4 {
        [down(p), p]
    } else {
        [p, p]
    }
}

// A slippery place is not almost sure: move 7 of player 2 may lead up, and in the end into the pit. The pit and then one
// slippery place after the other, from the highest down, are lost in an outer round of their own.
fn slippery(p: u16, a: u8, b: u8) -> [u16; 2] {
    if b == 7 {
        [down(p), up(p)]
    } else if a == 7 {
        [HOME, p]
    } else {
        [p, up(p)]
    }
}

// The places to which two moves lead; where it is one place alone, it is given twice.
fn successors(p: u16, a: u8, b: u8) -> [u16; 2] {
    if p == HOME || p == PIT {
        [p, p]
    } else if p <= LAST_FIRM {
        firm(p, a, b)
    } else if p <= LAST_LOOSE {
        loose(p, a, b)
    } else {
        slippery(p, a, b)
    }
}

// How many moves each player has in a place. Those of the pit fill the record up to its greatest length.
fn move_counts(p: u16) -> (u8, u8) {
    match p {
        HOME => (1, 1),
        PIT => (7, 2),
        _ => (8, 8),
    }
}

// The state in a place. A remainder below 162 fits.
fn state_in(p: u16) -> u8 {
    (11 * u32::from(p) % u32::from(PLACES)) as u8
}

// The place of a state: 59 × 11 is 1 modulo 162. A remainder below 162 fits.
fn place_of(state: u16) -> u16 {
    (59 * u32::from(state) % u32::from(PLACES)) as u16
}

// Puts the row of the state in a place.
fn put_place(record: &mut Record, p: u16) -> Result<(), AllocError> {
    let (first, second) = move_counts(p);
    record.put_moves(first, second)?;
    for a in 0..first {
        for b in 0..second {
            let [x, y] = successors(p, a, b);
            record.put_support(&[state_in(x), state_in(y)])?;
        }
    }
    Ok(())
}

pub fn wide(heap: Global) -> Result<Record, AllocError> {
    let mut record = Record::begin(heap, 161)?;
    for state in 0..PLACES {
        put_place(&mut record, place_of(state))?;
    }
    Ok(record)
}
