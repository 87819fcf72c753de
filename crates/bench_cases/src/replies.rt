// Every reply of a bench, tried in a round.
use bench::bench::{Bench, Reply};
use bench::play::{OpenRound, Play};
use game::mode::Mode;
use game::source::Source;
use std::io;

// Whether a reply settles an open round.
fn settles<S: Source>(bench: &Bench<S>, open: OpenRound, reply: Reply) -> bool {
    match open.settle(bench, reply.b, reply.successor) {
        Ok(_) => true,
        Err((open, _)) => {
            let _ = open.abandon();
            false
        }
    }
}

// Whether a reply is right: it settles a round with the move of player 1, on a state that is not sure.
fn is_right<S: Source>(bench: &Bench<S>, play: Play, a: u8, reply: Reply) -> bool {
    play.commit(bench, a)
        .is_ok_and(|open| settles(bench, open, reply))
        && matches!(bench.verdict(Mode::Sure, reply.successor), Ok(None))
}

// Asks for a reply to every move at every state, and prints how many there are and how many of them are right.
// A loop with two counts: two chains that count would ask for each reply twice.
pub fn print_replies<S: Source>(rt: &impl Print, name: &str, bench: &Bench<S>) -> io::Result<()> {
    let mut replies = 0u16;
    let mut right = 0u16;
    for state in 0..=256 {
        for a in 0..=8 {
            if let (Ok(reply), Ok(play)) = (bench.reply(state, a), bench.begin(state)) {
                replies = replies.saturating_add(1);
                if is_right(bench, play, a, reply) {
                    right = right.saturating_add(1);
                }
            }
        }
    }
    println!(rt; "{name}: replies {replies}, right {right}")
}
