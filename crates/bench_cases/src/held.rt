// What a bench holds, found by calls that are taken back.
use bench::bench::Bench;
use game::bits::with_bit;
use game::mode::Mode;
use game::player::Player;
use game::refusal::Refusal;
use game::source::Source;
use std::io;

// Whether a state is in the target. One that is not is marked and unmarked.
fn is_target<S: Source>(bench: &mut Bench<S>, state: u16) -> bool {
    match bench.mark(state) {
        Ok(()) => {
            let _ = bench.unmark(state);
            false
        }
        Err(Refusal::AlreadySo) => true,
        Err(_) => false,
    }
}

// The kept moves of a player at a state. A move that is barred is allowed and barred again.
fn kept_moves<S: Source>(bench: &mut Bench<S>, player: Player, state: u16) -> u8 {
    let mut kept = 0;
    for m in 0..8u8 {
        match bench.allow(player, state, m) {
            Ok(()) => {
                let _ = bench.bar(player, state, m);
            }
            Err(Refusal::AlreadySo) => kept = with_bit(kept, m),
            Err(_) => {}
        }
    }
    kept
}

// Whether the game of a bench has a state.
fn has_state<S: Source>(bench: &Bench<S>, state: u16) -> bool {
    !matches!(bench.verdict(Mode::Sure, state), Err(Refusal::NoState(_)))
}

// Prints the kept moves of both players at every state, and whether it is in the target. The bench is unsolved then, if it
// has a state outside the target or a barred move.
pub fn print_held<S: Source>(rt: &impl Print, name: &str, bench: &mut Bench<S>) -> io::Result<()> {
    print!(rt; "{name}, held:")?;
    for state in 0..256 {
        if !has_state(bench, state) {
            break;
        }
        let first = kept_moves(bench, Player::One, state);
        let second = kept_moves(bench, Player::Two, state);
        let target = if is_target(bench, state) {
            " target"
        } else {
            ""
        };
        print!(rt; " {state} {first:02x} {second:02x}{target};")?;
    }
    println!(rt; "")
}
