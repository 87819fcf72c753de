// Building blocks of records. The program `record_cases` has the same steps: as public functions of a library they would need contracts
// and edits, and be longer than both.
use std::alloc::{AllocError, Global};

// The bytes of a record, as far as they are built.
#[derive(Drop)]
pub struct Record {
    bytes: Vec<u8>,
}

// The groups of a set of states: bit i of byte g stands for state 8 g + i.
fn groups_of(states: &[u8]) -> [u8; 32] {
    let mut groups = [0; 32];
    for state in states {
        groups[usize::from(*state / 8)] |= 1 << (*state % 8);
    }
    groups
}

// The group map of a set.
fn map_of(groups: &[u8; 32]) -> [u8; 4] {
    let mut map = [0; 4];
    for (g, byte) in groups.iter().enumerate() {
        if *byte > 0 {
            map[g / 8] |= 1 << (g % 8);
        }
    }
    map
}

impl Record {
    // A record of a game with the states 0 to `last`, before its first row.
    pub fn begin(heap: Global, last: u8) -> Result<Record, AllocError> {
        let bytes = Vec::from_slice(heap, &[last])?;
        Ok(Record { bytes })
    }

    // Begins the row of the next state: each player has the moves below a number, which is at most 8.
    pub fn put_moves(&mut self, first: u8, second: u8) -> Result<(), AllocError> {
        for count in [first, second] {
            let moves = if count < 8 { (1 << count) - 1 } else { 255 };
            self.bytes.push(moves)?;
        }
        Ok(())
    }

    // Puts the support of the next two moves.
    pub fn put_support(&mut self, states: &[u8]) -> Result<(), AllocError> {
        let groups = groups_of(states);
        self.bytes.extend_from_slice(&map_of(&groups))?;
        self.bytes.extend(groups.iter().filter(|byte| **byte > 0))
    }

    pub fn as_slice(&self) -> &[u8] {
        self.bytes.as_slice()
    }
}
