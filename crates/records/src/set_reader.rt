// Reading a set of states: a group map of four bytes, and then one byte for each group that the map has.
ghost use Rattle.std.specs.Prelude.{◌≡◌, ℕ, ◌+◌, ◌*◌, ◌<◌, ◌≤◌, true, length, Some, MatchBool, MatchResult};
ghost use Rattle.game.specs.Below.{bit};
ghost use Rattle.game.specs.Refusals.{told};
ghost use Rattle.game.specs.declared.refusal.Layer.TheVariants.{Set};
ghost use Rattle.layout.specs.Reading.{group_place, set_end, GoodGroup, GoodSet, GoodSupport};
ghost use Rattle.layout.specs.Faults.{BadGroup, BadSet, BadSupport};

use crate::group_map::GroupMap;
use crate::set::WholeSet;
use game::bits::has_bit;
use game::refusal::{Fault, Layer, Refusal};

// The bytes that are read, how many states the game has, and the state in whose row the set stands, if it stands in a row.
#[derive(Clone, Copy)]
pub(crate) struct SetReader<'a> {
    pub(crate) bytes: &'a [u8],
    pub(crate) states: u16,
    pub(crate) state: Option<u16>,
}

impl<'a> SetReader<'a> {
    fn fault(&self, place: usize) -> Fault
        ensures { result ≡ record { place = place; layer = Set; state = self.now.state } }
    {
        Fault {
            place,
            layer: Layer::Set,
            state: self.state,
        }
    }

    // Whether the byte of a group has a state that the game has not.
    fn has_outside(&self, group: u16, byte: u8) -> bool
        requires { group < 32 }
        ensures { MatchBool result ((i : ℕ) × (i < 8) × ((bit byte i ≡ true) × (self.now.states ≤ 8 * group + i))) ((i : ℕ) → i < 8 → bit byte i ≡ true → 8 * group + i < self.now.states) }
    {
        (0..8u8).any(|i| has_bit(byte, i) && 8 * group + u16::from(i) >= self.states)
    }

    // Judges the byte of a group, which stands at `place`.
    fn read_group(&self, group: u16, place: usize) -> Result<(), Refusal>
        requires { group < 32 }
        ensures { MatchResult result (λ _. (at : ℕ) → place ≡ group_place self.now.bytes.now at group → GoodGroup self.now.states self.now.bytes.now at group) (λ e. (at : ℕ) → place ≡ group_place self.now.bytes.now at group → BadGroup self.now.states self.now.bytes.now at group self.now.state (told e)) }
    {
        let Some(byte) = self.bytes.get(place) else {
            return Err(Refusal::EndsEarly(self.fault(self.bytes.len())));
        };
        if *byte == 0 {
            return Err(Refusal::ZeroGroup(self.fault(place)));
        }
        if self.has_outside(group, *byte) {
            return Err(Refusal::MemberOutside(self.fault(place)));
        }
        Ok(())
    }

    // Judges the set that begins at `at`, and answers it. It may be empty.
    pub(crate) fn read_set(&self, at: usize) -> Result<WholeSet<'a>, Refusal>
        ensures { MatchResult result (λ set. (set.map.bytes.now ≡ self.now.bytes.now) × (set.map.at ≡ at) × GoodSet self.now.states self.now.bytes.now at) (λ e. BadSet self.now.states self.now.bytes.now at self.now.state (told e)) }
    {
        let length = self.bytes.len();
        if length < 4 || at > length - 4 {
            return Err(Refusal::EndsEarly(self.fault(length)));
        }
        let map = GroupMap::new(self.bytes, at);
        for group in 0..32u16 {
            if map.has(group) {
                self.read_group(group, map.place(group))?;
            }
        }
        Ok(WholeSet { map })
    }

    // Judges the support that begins at `at`, a set that is not empty, and answers the place behind it.
    pub(crate) fn read_support(&self, at: usize) -> Result<usize, Refusal>
        ensures { MatchResult result (λ end. (end ≡ set_end self.now.bytes.now at) × (end ≤ length self.now.bytes.now) × (at + 5 ≤ end) × GoodSupport self.now.states self.now.bytes.now at) (λ e. BadSupport self.now.states self.now.bytes.now at self.now.state (told e)) }
    {
        let end = self.read_set(at)?.end();
        if end == at + 4 {
            return Err(Refusal::EmptySupport(self.fault(at)));
        }
        Ok(end)
    }
}
