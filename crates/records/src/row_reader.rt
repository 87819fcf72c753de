// Reading a row: the two move sets of a state, and then its supports.
ghost use Rattle.std.specs.Prelude.{◌≡◌, ℕ, ◌+◌, ◌*◌, ◌<◌, ◌≤◌, length, Some, MatchResult, slice_index};
ghost use Rattle.game.specs.Refusals.{told};
ghost use Rattle.game.specs.declared.refusal.Layer.TheVariants.{Row};
ghost use Rattle.layout.specs.Reading.{sets_end, row_sets, row_end, GoodRow};
ghost use Rattle.layout.specs.Faults.{BadRow};

use crate::bits::count_bits;
use crate::places::{Cursor, Places};
use crate::set_reader::SetReader;
use game::refusal::{Fault, Layer, Refusal};

// The bytes that are read, how many states the game has, and the state of the row. (A set by itself stands in no row, so the reader of
// sets has an `Option` for the state. That a row begins within the bytes is asked for by a clause of each function: a type for its place
// would be made for each row.)
#[derive(Clone, Copy)]
pub(crate) struct RowReader<'a> {
    pub(crate) bytes: &'a [u8],
    pub(crate) states: u16,
    pub(crate) state: u16,
}

impl RowReader<'_> {
    fn fault(&self, place: usize) -> Fault
        ensures { result ≡ record { place = place; layer = Row; state = Some self.now.state } }
    {
        Fault {
            place,
            layer: Layer::Row,
            state: Some(self.state),
        }
    }

    // What is wrong with a row that has no two bytes: its only byte is a zero move set, or a move byte is missing.
    fn short_row(&self, at: usize) -> Refusal
        requires { (at ≤ length self.now.bytes.now) × (length self.now.bytes.now < at + 2) }
        ensures { BadRow self.now.states self.now.bytes.now at self.now.state (told result) }
    {
        match self.bytes.get(at) {
            Some(0) => Refusal::ZeroMoves(self.fault(at)),
            _ => Refusal::EndsEarly(self.fault(self.bytes.len())),
        }
    }

    // The two move bytes of the row, which begins at `at`.
    fn read_moves(&self, at: usize) -> Result<(u8, u8), Refusal>
        requires { at ≤ length self.now.bytes.now }
        ensures { MatchResult result (λ m. (at + 2 ≤ length self.now.bytes.now) × (m.0 ≡ slice_index self.now.bytes.now at) × (m.1 ≡ slice_index self.now.bytes.now (at + 1)) × (1 ≤ m.0) × (1 ≤ m.1)) (λ e. BadRow self.now.states self.now.bytes.now at self.now.state (told e)) }
    {
        let [first, second, ..] = &self.bytes[at..] else {
            return Err(self.short_row(at));
        };
        if *first == 0 {
            return Err(Refusal::ZeroMoves(self.fault(at)));
        }
        if *second == 0 {
            return Err(Refusal::ZeroMoves(self.fault(at + 1)));
        }
        Ok((*first, *second))
    }

    // Judges the row, which begins at the cursor, notes the places of its supports, and answers the cursor behind it.
    pub(crate) fn read_row(&self, from: Cursor, places: &mut Places) -> Result<Cursor, Refusal>
        requires { (from.place ≤ length self.now.bytes.now) × (length self.now.bytes.now ≤ 60000) }
        ensures rows { places.new.rows ≡ places.old.rows }
        ensures before { (j : ℕ) → j < from.support → slice_index places.new.supports j ≡ slice_index places.old.supports j }
        ensures cases { MatchResult result (λ to. (to.place ≡ row_end self.now.bytes.now from.place) × (to.support ≡ from.support + row_sets self.now.bytes.now from.place) × (to.place ≤ length self.now.bytes.now) × GoodRow self.now.states self.now.bytes.now from.place × ((k : ℕ) → k < row_sets self.now.bytes.now from.place → slice_index places.new.supports (from.support + k) ≡ sets_end self.now.bytes.now (from.place + 2) k)) (λ e. BadRow self.now.states self.now.bytes.now from.place self.now.state (told e)) }
    {
        let (first, second) = self.read_moves(from.place)?;
        let reader = SetReader {
            bytes: self.bytes,
            states: self.states,
            state: Some(self.state),
        };
        let count = usize::from(count_bits(first) * count_bits(second));
        let mut place = from.place + 2;
        // By number: of an array that was written through `iter_mut` a proof knows only the length.
        for k in 0..count {
            // a place in a record is at most 60,000
            places.supports[from.support + k] = place as u16;
            place = reader.read_support(place)?;
        }
        let support = from.support + count;
        Ok(Cursor { place, support })
    }
}
