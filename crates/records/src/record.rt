// Reading a table record: the number of states less one, and then the rows.
ghost use Rattle.std.specs.Prelude.{◌≡◌, ◌<◌, ◌≤◌, length, map, None, MatchResult};
ghost use Rattle.game.specs.Refusals.{told};
ghost use Rattle.game.specs.declared.refusal.Layer.TheVariants.{Record};
ghost use Rattle.layout.specs.Reading.{states_in, Bytes, GoodRecord};
ghost use Rattle.layout.specs.Faults.{fault, BadRecord};
ghost use Rattle.layout.specs.Placed.{Placed};

use crate::places::{Cursor, Places, Row};
use crate::row_reader::RowReader;
use game::refusal::{Fault, Layer, Refusal};
use layout::LONGEST;

// a fault that stands in no set and no row; the readers of sets and rows fill in a layer and a state of their own
fn record_fault(place: usize) -> Fault
    ensures { result ≡ record { place = place; layer = Record; state = None } }
{
    Fault {
        place,
        layer: Layer::Record,
        state: None,
    }
}

// Refuses bytes that are too many, for a record or for a set by itself. (The writer tests a length alone: a public function for both
// would need a contract and an edit, and be longer.)
pub(crate) fn check_length(bytes: &[u8]) -> Result<(), Refusal>
    ensures { MatchResult result (λ _. length bytes.now ≤ 60000) (λ e. (60000 < length bytes.now) × (told e ≡ fault 17 0 Record None)) }
{
    if bytes.len() > LONGEST {
        return Err(Refusal::TooLong(record_fault(0)));
    }
    Ok(())
}

// Refuses bytes that remain behind the end of a record, or of a set by itself.
pub(crate) fn check_end(bytes: &[u8], end: usize) -> Result<(), Refusal>
    ensures { MatchResult result (λ _. length bytes.now ≤ end) (λ e. (end < length bytes.now) × (told e ≡ fault 16 end Record None)) }
{
    if end < bytes.len() {
        return Err(Refusal::BytesRemain(record_fault(end)));
    }
    Ok(())
}

// Judges the record and notes the places of its rows and supports.
pub(crate) fn read_record(bytes: &[u8], places: &mut Places) -> Result<(), Refusal>
    ensures { MatchResult result (λ _. Bytes bytes.now × GoodRecord bytes.now × Placed bytes.now (map (λ r. r.place) places.new.rows) (map (λ r. r.first) places.new.rows) places.new.supports (states_in bytes.now) 12000) (λ e. BadRecord bytes.now (told e)) }
{
    check_length(bytes)?;
    let Some(last) = bytes.first() else {
        return Err(Refusal::EndsEarly(record_fault(0)));
    };
    let states = u16::from(*last) + 1;
    let mut cursor = Cursor::first();
    for state in 0..states {
        // a place in a record is at most 60,000, and a record has fewer supports
        places.rows[usize::from(state)] = Row {
            place: cursor.place as u16,
            first: cursor.support as u16,
        };
        let reader = RowReader {
            bytes,
            states,
            state,
        };
        cursor = reader.read_row(cursor, places)?;
    }
    check_end(bytes, cursor.place)
}
