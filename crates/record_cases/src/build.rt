// Building blocks of records and of tables. A set of states is given by 32 bytes: bit i of byte g stands for state 8 g + i.
// The program `large_games` builds its records by the same steps: as public functions of a library they would need contracts and edits,
// and be longer than both.
use std::alloc::{AllocError, Global};

// The set of some states.
pub fn members(states: &[u8]) -> [u8; 32] {
    let mut groups = [0; 32];
    for state in states {
        groups[usize::from(*state / 8)] |= 1 << (*state % 8);
    }
    groups
}

// The set of all 256 states.
pub fn all() -> [u8; 32] {
    [255; 32]
}

// The group map of a set.
fn map_of(groups: &[u8; 32]) -> [u8; 4] {
    let mut map = [0; 4];
    for (g, byte) in groups.iter().enumerate() {
        if *byte > 0 {
            map[g / 8] |= 1 << (g % 8);
        }
    }
    map
}

// Puts the two move sets of a row behind a record.
pub fn put_moves(record: &mut Vec<u8>, first: u8, second: u8) -> Result<(), AllocError> {
    record.push(first)?;
    record.push(second)?;
    Ok(())
}

// Puts a set behind a record.
pub fn put_set(record: &mut Vec<u8>, groups: &[u8; 32]) -> Result<(), AllocError> {
    record.extend_from_slice(&map_of(groups))?;
    record.extend(groups.iter().filter(|byte| **byte > 0))
}

// The bytes cut to a length, or filled up with 0, and then some of them changed.
pub fn edited(
    heap: Global,
    bytes: &[u8],
    length: usize,
    edits: &[(usize, u8)],
) -> Result<Vec<u8>, AllocError> {
    let mut copy = Vec::from_slice(heap, bytes)?;
    copy.resize(length, 0)?;
    for (place, byte) in edits {
        if let Some(old) = copy.get_mut(*place) {
            *old = *byte;
        }
    }
    Ok(copy)
}

// The table of a monitor of m states for a game of n states that goes from q to (q + t) % m where the game goes on to t.
pub fn turning(heap: Global, n: u16, m: u8) -> Result<Vec<u8>, AllocError> {
    let mut table = Vec::new(heap);
    for q in 0..m {
        for t in 0..n {
            let sum = u32::from(q) + u32::from(t);
            // a remainder below m fits
            table.push((sum % u32::from(m)) as u8)?;
        }
    }
    Ok(table)
}
