// Which states can come next after which, under the kept moves of a position.
ghost use Rattle.std.specs.Prelude.{◌≡◌, ℕ, ◌<◌, true, false, ◌||◌, slice_index_or};
ghost use Rattle.game.specs.Below.{elem};
ghost use Rattle.solver.specs.Links.{link, Linked};
ghost use Rattle.solver.specs.Positions.{meant};

use crate::position::Position;
use game::bits::has_bit;
use game::player::Player;
use game::source::Source;

// A row has a place for each of 256 states, and 64 more: rows of 256 bytes would put the same place of all of them into a quarter of a
// processor's first cache, and a state with many successors is noted in as many rows.
pub(crate) const ROW: usize = 320;

// A position, and for each state those before it: the states from which some kept moves can lead to it.
#[derive(Drop)]
pub(crate) struct Links<'a, S: Source> {
    pub(crate) position: Position<'a, S>,
    pub(crate) before: &'a [[bool; ROW]; 256],
    ghost linked: { Linked (meant S.game position) before.now },
}

impl<'a, S: Source> Links<'a, S> {
    // Marks each state before `state`; other marks stay.
    pub(crate) fn mark_before(&self, state: u16, marks: &mut [bool; 256])
        requires { state < 256 }
        ensures { (s : ℕ) → s < 256 → slice_index_or marks.new s false ≡ (slice_index_or marks.old s false || link self.now.before.now s state) }
    {
        // By number: of an array that was written through `iter_mut` a proof knows only the length.
        for s in 0..256 {
            marks[s] |= self.before[usize::from(state)][s];
        }
    }
}

// Notes the links of all states. The array is lent: a result that holds it would be 80 KiB to clear and copy once more.
pub(crate) fn note_links<S: Source>(position: Position<S>, before: &mut [[bool; ROW]; 256])
    ensures { Linked (meant S.game position.entry) before.new }
{
    for state in 0..position.source.states() {
        let first = position.entries.kept(Player::One, state);
        let second = position.entries.kept(Player::Two, state);
        for a in 0..8u8 {
            for b in 0..8u8 {
                if has_bit(first, a) && has_bit(second, b) {
                    add_support(before, position.source, state, a, b);
                }
            }
        }
    }
}

// Notes a state before each of its successors under two moves.
fn add_support<S: Source>(before: &mut [[bool; ROW]; 256], source: &S, state: u16, a: u8, b: u8)
    requires { state < 256 }
    ensures stay { (s t : ℕ) → link before.old s t ≡ true → link before.new s t ≡ true }
    ensures noted { (t : ℕ) → elem t ((S.Source.game source.now).support state a b) ≡ true → link before.new state t ≡ true }
{
    for k in 0..source.support_size(state, a, b) {
        note(
            &mut before[usize::from(source.member(state, a, b, k))],
            state,
        );
    }
}

// Notes a state in a row.
fn note(row: &mut [bool; ROW], state: u16)
    requires { state < 256 }
    ensures stay { (s : ℕ) → slice_index_or row.old s false ≡ true → slice_index_or row.new s false ≡ true }
    ensures noted { slice_index_or row.new state false ≡ true }
{
    row[usize::from(state)] = true;
}
