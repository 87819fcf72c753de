// Reads games and sets of states out of bytes.
#![tactic(auto)]

mod bits;
mod group_map;
mod places;
mod record;
mod row_reader;
mod set;
mod set_reader;
pub mod table;
pub mod target;
