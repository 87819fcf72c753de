// Writes the table record of any source of a game into a buffer, by the four questions of the source alone.
#![tactic(auto)]

ghost use Rattle.std.specs.Prelude.{◌≡◌, ◌≤◌, length};
ghost use Rattle.layout.specs.Writing.{record_of};
ghost use Rattle.writer.specs.Outcomes.{Writes};

use game::refusal::{Fault, Layer, Refusal};
use game::source::Source;
use layout::LONGEST;
use row::put_row;
use sink::{Count, Sink, Store};

mod row;
mod set;
mod sink;

// Puts the record of a source's game into a sink.
fn put_record<S: Source, K: Sink>(source: &S, sink: &mut K)
    requires { length (record_of (S.Source.game source.now)) ≤ K.room sink.old }
    ensures { K.takes sink.old (record_of (S.Source.game source.now)) sink.new }
{
    let states = source.states();
    // a game has at most 256 states, so the number less one fits
    sink.put((states - 1) as u8);
    for state in 0..states {
        put_row(source, state, sink);
    }
}

// How many bytes the record of a source's game has.
pub fn record_length<S: Source>(source: &S) -> usize
    ensures { result ≡ length (record_of (S.Source.game source.now)) }
{
    let mut count = Count(0);
    put_record(source, &mut count);
    count.0
}

// Writes the record of a source's game to the start of a buffer, and tells its length. A refused buffer stays as it was.
pub fn write<S: Source>(source: &S, buffer: &mut [u8]) -> Result<usize, Refusal>
    ensures { Writes (record_of (S.Source.game source.now)) buffer.old buffer.new result }
{
    let length = record_length(source);
    if length > LONGEST {
        return Err(Refusal::TooLong(Fault {
            place: 0,
            layer: Layer::Record,
            state: None,
        }));
    }
    if buffer.len() < length {
        return Err(Refusal::ShortBuffer);
    }
    put_record(source, &mut Store { buffer, at: 0 });
    Ok(length)
}
