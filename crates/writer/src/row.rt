// The bytes of the row of a state.
ghost use Rattle.std.specs.Prelude.{◌≤◌, length};
ghost use Rattle.layout.specs.Writing.{row_bytes};
ghost use Rattle.writer.specs.Rows.{replies};

use crate::set::{gather, put_set};
use crate::sink::Sink;
use game::bits::has_bit;
use game::player::Player;
use game::source::Source;

// Puts the supports of a move of player 1 into a sink.
fn put_replies<S: Source, K: Sink>(source: &S, state: u16, a: u8, sink: &mut K)
    requires { length (replies (S.Source.game source.now) state a) ≤ K.room sink.old }
    ensures { K.takes sink.old (replies (S.Source.game source.now) state a) sink.new }
{
    let moves = source.moves(Player::Two, state);
    // tried with a filter: in a generic function, a loop over it that needs an invariant gets no proof
    for b in 0..8 {
        if has_bit(moves, b) {
            put_set(&gather(source, state, a, b), sink);
        }
    }
}

// Puts the row into a sink.
pub(crate) fn put_row<S: Source, K: Sink>(source: &S, state: u16, sink: &mut K)
    requires { length (row_bytes (S.Source.game source.now) state) ≤ K.room sink.old }
    ensures { K.takes sink.old (row_bytes (S.Source.game source.now) state) sink.new }
{
    let moves = source.moves(Player::One, state);
    sink.put(moves);
    sink.put(source.moves(Player::Two, state));
    // tried with a filter: in a generic function, a loop over it that needs an invariant gets no proof
    for a in 0..8 {
        if has_bit(moves, a) {
            put_replies(source, state, a, sink);
        }
    }
}
