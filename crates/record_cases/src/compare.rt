// Whether two sources answer alike, and digests of what a source answers and of bytes.
use game::player::Player;
use game::source::Source;
use std::io;

// Whether two sources answer alike on the support of two moves, up to one member past its size.
fn same_support<A: Source, B: Source>(x: &A, y: &B, state: u16, a: u8, b: u8) -> bool {
    let size = x.support_size(state, a, b);
    y.support_size(state, a, b) == size
        && (0..=size).all(|k| x.member(state, a, b, k) == y.member(state, a, b, k))
}

// Whether two sources answer alike at a state, with moves inside and outside the game.
fn same_row<A: Source, B: Source>(x: &A, y: &B, state: u16) -> bool {
    x.moves(Player::One, state) == y.moves(Player::One, state)
        && x.moves(Player::Two, state) == y.moves(Player::Two, state)
        && (0..9).all(|a| (0..9).all(|b| same_support(x, y, state, a, b)))
}

// Whether two sources answer every question alike, at all states and at two outside.
pub fn same<A: Source, B: Source>(x: &A, y: &B) -> bool {
    let states = x.states();
    y.states() == states && (0..=states).all(|state| same_row(x, y, state)) && same_row(x, y, 65535)
}

// How it is printed whether two sources answer alike: a type with `Display` would be longer, here and below.
pub fn alike(yes: bool) -> &'static str {
    if yes { "alike" } else { "differ" }
}

// How it is printed whether something is as it was.
pub fn kept(yes: bool) -> &'static str {
    if yes { "as before" } else { "changed" }
}

// A digest with one more answer.
fn mixed(digest: u32, answer: u16) -> u32 {
    digest
        .wrapping_mul(16777619)
        .wrapping_add(u32::from(answer))
}

// A digest with all answers on the support of two moves, up to one member past its size.
fn mix_support<S: Source>(digest: u32, source: &S, state: u16, a: u8, b: u8) -> u32 {
    let size = source.support_size(state, a, b);
    (0..=size).fold(mixed(digest, size), |digest, k| {
        mixed(digest, source.member(state, a, b, k))
    })
}

// A digest with all answers at a state.
fn mix_row<S: Source>(digest: u32, source: &S, state: u16) -> u32 {
    let digest = mixed(digest, u16::from(source.moves(Player::One, state)));
    let mut digest = mixed(digest, u16::from(source.moves(Player::Two, state)));
    for a in 0..9 {
        for b in 0..9 {
            digest = mix_support(digest, source, state, a, b);
        }
    }
    digest
}

// Prints the number of states, and a digest of the answers to every question at all states and at two outside.
pub fn print_digest<S: Source>(rt: &impl Print, label: &str, source: &S) -> io::Result<()> {
    let states = source.states();
    let mut digest = mixed(0, states);
    for state in 0..=states {
        digest = mix_row(digest, source, state);
    }
    digest = mix_row(digest, source, 65535);
    println!(rt; "{label}: states {states}, digest {digest}")
}

// A digest of bytes.
pub fn bytes_digest(bytes: &[u8]) -> u32 {
    bytes
        .iter()
        .fold(0, |digest, byte| mixed(digest, u16::from(*byte)))
}
