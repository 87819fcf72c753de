// The group map of a set: which groups of eight states the set has, and where the bytes of those groups stand.
ghost use Rattle.std.specs.Prelude.{◌≡◌, ℕ, ◌+◌, ◌<◌, ◌≤◌, length};
ghost use Rattle.game.specs.Below.{bit};
ghost use Rattle.layout.specs.Reading.{map_bit, group_place};

use crate::bits::count_below;

// The map of the set that begins at `at`: bit g stands where the set has group g.
#[derive(Clone, Copy)]
pub(crate) struct GroupMap<'a> {
    pub(crate) bytes: &'a [u8],
    pub(crate) at: usize,
    bits: u32,
    ghost head: { at + 4 ≤ length bytes.now },
    ghost groups: { (g : ℕ) → g < 32 → bit bits g ≡ map_bit bytes.now at g },
}

impl<'a> GroupMap<'a> {
    pub(crate) fn new(bytes: &'a [u8], at: usize) -> GroupMap<'a>
        requires { at + 4 ≤ length bytes.now }
        ensures of { result.bytes.now ≡ bytes.now }
        ensures begins { result.at ≡ at }
    {
        let bits = u32::from_le_bytes([bytes[at], bytes[at + 1], bytes[at + 2], bytes[at + 3]]);
        GroupMap { bytes, at, bits }
    }

    // Whether the set has the group. (`has_bit` of `game` is of a byte. That there are 32 groups is asked for by clauses, here and in the
    // modules that read sets: a type for a group would be made at each call.)
    pub(crate) fn has(&self, group: u16) -> bool
        requires { group < 32 }
        ensures { result ≡ map_bit self.now.bytes.now self.now.at group }
    {
        (self.bits >> group) % 2 == 1
    }

    // The place of the byte of the group, if the set has it: the place behind the bytes of the groups before it.
    pub(crate) fn place(&self, group: u16) -> usize
        requires { group ≤ 32 }
        ensures { result ≡ group_place self.now.bytes.now self.now.at group }
    {
        self.at + 4 + usize::from(count_below(u64::from(self.bits), group))
    }
}
