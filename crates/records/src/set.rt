// A set of states that lies in bytes.
ghost use Rattle.std.specs.Prelude.{◌≡◌, ℕ, ◌+◌, ◌*◌, ◌<◌, ◌≤◌, length, slice_index};
ghost use Rattle.game.specs.Below.{bit};
ghost use Rattle.layout.specs.Reading.{set_end, in_set};
ghost use Rattle.layout.specs.Targets.{states_of};

use crate::bits::{count_bits, find_bit};
use crate::group_map::GroupMap;

// The whole set is there: its group map, and then one byte for each group that the map has.
#[derive(Clone, Copy)]
pub(crate) struct WholeSet<'a> {
    pub(crate) map: GroupMap<'a>,
    ghost whole: { set_end map.bytes.now map.at ≤ length map.bytes.now },
}

impl<'a> WholeSet<'a> {
    ghost use Rattle.records.specs.WholeSet.{members};

    pub(crate) fn new(bytes: &'a [u8], at: usize) -> WholeSet<'a>
        requires { set_end bytes.now at ≤ length bytes.now }
        ensures of { result.map.bytes.now ≡ bytes.now }
        ensures begins { result.map.at ≡ at }
    {
        WholeSet {
            map: GroupMap::new(bytes, at),
        }
    }

    // the place behind the set
    pub(crate) fn end(&self) -> usize
        ensures { result ≡ set_end self.now.map.bytes.now self.now.map.at }
    {
        self.map.place(32)
    }

    // The byte of a group: bit i stands where the set has state 8 group + i.
    fn group(&self, group: u16) -> u8
        requires { group < 32 }
        ensures { (i : ℕ) → i < 8 → bit result i ≡ in_set self.now.map.bytes.now self.now.map.at (8 * group + i) }
    {
        if self.map.has(group) {
            self.map.bytes[self.map.place(group)]
        } else {
            0
        }
    }

    // the bytes of all groups
    pub(crate) fn groups(&self) -> [u8; 32]
        ensures { states_of result ≡ members self.now }
    {
        // By number: of an array that was written through `iter_mut` a proof knows only the length.
        let mut groups = [0; 32];
        for group in 0..32u16 {
            groups[usize::from(group)] = self.group(group);
        }
        groups
    }

    // how many members the set has: the bytes of its groups stand one after the other
    pub(crate) fn size(&self) -> u16
        ensures { result ≡ length (members self.now) }
    {
        let groups = &self.map.bytes[self.map.at + 4..self.end()];
        groups.iter().map(|byte| count_bits(*byte)).sum()
    }

    // member k, counted from 0 in ascending order, or 0
    pub(crate) fn member(&self, k: u16) -> u16
        ensures { result ≡ slice_index (members self.now) k }
    {
        // No method of iterators passes over groups by their counts, so what is left is counted down, and the place goes along: to work it
        // out at each group would run slower.
        let mut left = k;
        let mut place = self.map.at + 4;
        for group in 0..32u16 {
            if self.map.has(group) {
                let byte = self.map.bytes[place];
                let count = count_bits(byte);
                if left < count {
                    return 8 * group + find_bit(byte, left);
                }
                left -= count;
                place += 1;
            }
        }
        0
    }
}
