// The bits of a byte: a move set has a bit for each move, and a group byte one for each state of the group.
ghost use Rattle.std.specs.Prelude.{◌≡◌, ℕ, false, if◌then◌else◌, nat_eq, nat_lt};
ghost use Rattle.game.specs.Below.{bit};

// Whether bit i, of weight 2 to the power i, stands. From 8 on no bit does.
pub fn has_bit(byte: u8, i: u8) -> bool
    ensures { result ≡ bit byte i }
{
    i < 8 && (byte >> i) % 2 == 1
}

// The byte in which bit i stands too. From 8 on it is the byte itself.
pub fn with_bit(byte: u8, i: u8) -> u8
    ensures { (j : ℕ) → bit result j ≡ (if nat_eq j i then nat_lt i 8 else bit byte j) }
{
    if i < 8 && !has_bit(byte, i) {
        byte + (1 << i)
    } else {
        byte
    }
}

// The byte in which bit i does not stand.
pub fn without_bit(byte: u8, i: u8) -> u8
    ensures { (j : ℕ) → bit result j ≡ (if nat_eq j i then false else bit byte j) }
{
    if has_bit(byte, i) {
        byte - (1 << i)
    } else {
        byte
    }
}
