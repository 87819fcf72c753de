// The bytes of a set of states.
ghost use Rattle.std.specs.Prelude.{◌≡◌, ◌<◌, ◌≤◌, length};
ghost use Rattle.writer.specs.Sets.{Gathers, map_of, packed};

use crate::sink::Sink;
use game::source::Source;

// The byte of each of the 32 groups of the support of two moves.
pub(crate) fn gather<S: Source>(source: &S, state: u16, a: u8, b: u8) -> [u8; 32]
    ensures { Gathers result ((S.Source.game source.now).support state a b) }
{
    let mut groups = [0; 32];
    for k in 0..source.support_size(state, a, b) {
        let member = source.member(state, a, b, k);
        groups[usize::from(member / 8)] += 1 << (member % 8);
    }
    groups
}

// Byte j of the group map: bit i tells whether group 8 j + i has a state.
fn map_byte(groups: &[u8; 32], j: usize) -> u8
    requires { j < 4 }
    ensures { result ≡ map_of groups.now j }
{
    (0..8).map(|i| u8::from(groups[8 * j + i] > 0) << i).sum()
}

// Puts the bytes of the set into a sink.
pub(crate) fn put_set<K: Sink>(groups: &[u8; 32], sink: &mut K)
    requires { length (packed groups.now) ≤ K.room sink.old }
    ensures { K.takes sink.old (packed groups.now) sink.new }
{
    for j in 0..4 {
        sink.put(map_byte(groups, j));
    }
    // tried with a filter: in a generic function, a loop over it that needs an invariant gets no proof
    for group in groups {
        if *group > 0 {
            sink.put(*group);
        }
    }
}
