// The bits of move sets, of group bytes and of group maps, counted and found.
ghost use Rattle.std.specs.Prelude.{◌≡◌, ◌<◌, ◌≤◌, true, false, ◌&&◌, MatchOption, slice_index};
ghost use Rattle.game.specs.Below.{below, rank, bit};
ghost use Rattle.layout.specs.Reading.{moves_in, support_index};

use game::bits::has_bit;

// How many bits below bit i stand.
pub(crate) fn count_below(bits: u64, i: u16) -> u16
    requires { i < 64 }
    ensures count { result ≡ rank (bit bits) i }
    ensures few { result ≤ i }
{
    // a count of 64 bits fits
    (bits % (1 << i)).count_ones() as u16
}

// How many bits of a byte stand, in the words of the format.
pub(crate) fn count_bits(byte: u8) -> u16
    ensures count { result ≡ moves_in byte }
    ensures few { result ≤ 8 }
{
    count_below(u64::from(byte), 8)
}

// The number of the standing bit that has k standing bits below it, or 0: past the last member a source answers 0, so no `Option` is wanted.
pub(crate) fn find_bit(byte: u8, k: u16) -> u16
    ensures found { result ≡ slice_index (below (bit byte) 8) k }
    ensures few { result < 8 }
{
    (0..8u8)
        .filter(|i| has_bit(byte, *i))
        .nth(usize::from(k))
        .map_or(0, u16::from)
}

// Which of the supports of a row is that of the moves a and b, if the two move sets have them.
pub(crate) fn support_number(first: u8, second: u8, a: u8, b: u8) -> Option<u16>
    ensures { MatchOption result ((bit first a && bit second b) ≡ false) (λ k. (bit first a ≡ true) × (bit second b ≡ true) × (k ≡ support_index first second a b)) }
{
    if !has_bit(first, a) || !has_bit(second, b) {
        return None;
    }
    let before = count_below(u64::from(first), u16::from(a)) * count_bits(second);
    Some(before + count_below(u64::from(second), u16::from(b)))
}
