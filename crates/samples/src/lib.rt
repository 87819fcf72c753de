// The records and monitors that several programs share.
#![tactic(auto)]

// One state, and move 0 for both players. A new table has the same bytes, which `records` keeps to itself.
pub const ONE: [u8; 8] = *b"\0\x01\x01\x01\0\0\0\x01";

// Game H: 0 hide, 1 safe, 2 wet, 3 home. The rows begin at the places 1, 23, 30 and 37.
pub const HIDE: [u8; 44] = *b"\x03\
    \x03\x03\x01\0\0\0\x01\x01\0\0\0\x02\x01\0\0\0\x08\x01\0\0\0\x04\
    \x01\x01\x01\0\0\0\x08\
    \x01\x01\x01\0\0\0\x04\
    \x01\x01\x01\0\0\0\x08";

// A monitor of two states over game H: state 1 of the game is remembered.
pub const SAFE_SEEN: [u8; 8] = *b"\0\x01\0\0\x01\x01\x01\x01";
