// The large games. In each of them the target is state 0.
use crate::build::Record;
use crate::wide::wide;
use std::alloc::{AllocError, Global};
use std::fmt;
use std::str::FromStr;

// Which game is run.
#[derive(Clone, Copy)]
pub enum Large {
    Chain,
    Rounds,
    Wide,
}

// No game has the name.
#[derive(Clone, Copy)]
pub struct NoGame;

impl FromStr for Large {
    type Err = NoGame;

    fn from_str(name: &str) -> Result<Large, NoGame> {
        match name {
            "chain" => Ok(Large::Chain),
            "rounds" => Ok(Large::Rounds),
            "wide" => Ok(Large::Wide),
            _ => Err(NoGame),
        }
    }
}

impl fmt::Display for Large {
    fn fmt<W: fmt::Write>(&self, f: &mut fmt::Formatter<W>) -> fmt::Result {
        f.write_str(match self {
            Large::Chain => "chain",
            Large::Rounds => "rounds",
            Large::Wide => "wide",
        })
    }
}

impl Large {
    pub fn record(&self, heap: Global) -> Result<Record, AllocError> {
        match self {
            Large::Chain => chain(heap),
            Large::Rounds => rounds(heap),
            Large::Wide => wide(heap),
        }
    }
}

// 256 states with one move each. State 0 leads to itself, and every other one to the one below it.
// All states are sure, each with its own number as rank.
fn chain(heap: Global) -> Result<Record, AllocError> {
    let mut record = Record::begin(heap, 255)?;
    for state in 0..=255u8 {
        record.put_moves(1, 1)?;
        record.put_support(&[state.saturating_sub(1)])?;
    }
    Ok(record)
}

// 256 states with one move each. The states 0 and 255 lead to themselves, and every other one to its two neighbours.
// Only state 0 is almost sure, and each outer round takes away one state, the highest that is left.
fn rounds(heap: Global) -> Result<Record, AllocError> {
    let mut record = Record::begin(heap, 255)?;
    for state in 0..=255u8 {
        record.put_moves(1, 1)?;
        if state == 0 || state == 255 {
            record.put_support(&[state])?;
        } else {
            record.put_support(&[state - 1, state + 1])?;
        }
    }
    Ok(record)
}
