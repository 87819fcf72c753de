// Rounds of a play, printed.
use crate::show::AtRest;
use bench::bench::Bench;
use bench::play::{OpenRound, Play};
use game::source::Source;
use std::io;

// A move of player 1, and the moves of player 2 and successors with which it is tried to settle the round, until one is
// accepted. If none is, the round is abandoned.
pub struct Round(pub u8, pub &'static [(u8, u16)]);

// Settles an open round by the first that is accepted, or abandons it.
fn settle_or_abandon<S: Source>(
    rt: &impl Print,
    bench: &Bench<S>,
    mut open: OpenRound,
    tries: &[(u8, u16)],
) -> io::Result<Play> {
    for (b, successor) in tries {
        match open.settle(bench, *b, *successor) {
            Ok(play) => {
                println!(rt; ", settle {b} {successor}: {}", AtRest(&play))?;
                return Ok(play);
            }
            Err((again, refusal)) => {
                open = again;
                if let Err(e) = print!(rt; ", settle {b} {successor} {refusal}") {
                    let _ = open.abandon();
                    return Err(e);
                }
            }
        }
    }
    let play = open.abandon();
    println!(rt; ", abandon: {}", AtRest(&play))?;
    Ok(play)
}

// Plays a round that is committed on one bench and settled on another, or on the same.
pub fn play_round<S: Source, T: Source>(
    rt: &impl Print,
    name: &str,
    (first, second): (&Bench<S>, &Bench<T>),
    play: Play,
    round: &Round,
) -> io::Result<Play> {
    let Round(a, tries) = round;
    print!(rt; "{name}: commit {a}")?;
    match play.commit(first, *a) {
        Ok(open) => settle_or_abandon(rt, second, open, tries),
        Err((play, refusal)) => {
            println!(rt; " {refusal}: {}", AtRest(&play))?;
            Ok(play)
        }
    }
}
