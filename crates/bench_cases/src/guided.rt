// Plays from the moves handed out.
use crate::games::{CHAIN, line, solved_on};
use crate::show::AtRest;
use bench::bench::Bench;
use bench::play::{MOST_ROUNDS, OpenRound, Play};
use game::mode::Mode;
use game::source::Source;
use samples::HIDE;
use std::io;

// Settles an open round by the lowest move of player 2 and its highest successor, found by trying.
fn settle_first<S: Source>(bench: &Bench<S>, mut open: OpenRound) -> Play {
    for b in 0..8 {
        for successor in (0..256).rev() {
            match open.settle(bench, b, successor) {
                Ok(play) => return play,
                Err((again, _)) => open = again,
            }
        }
    }
    open.abandon()
}

// Plays a round by a move of player 1, if the move is kept.
pub fn play_on<S: Source>(bench: &Bench<S>, play: Play, a: u8) -> Play {
    match play.commit(bench, a) {
        Ok(open) => settle_first(bench, open),
        Err((play, _)) => play,
    }
}

// The lowest move of a set.
fn lowest(moves: u8) -> u8 {
    // at most 8, so it fits; the program `gate` has the same line: a public function would need a contract and an edit
    moves.trailing_zeros() as u8
}

// Plays from the moves handed out in mode sure until the target is met, or none is handed out.
fn follow<S: Source>(bench: &Bench<S>, mut play: Play) -> Play {
    for _ in 0..MOST_ROUNDS {
        if play.met() {
            break;
        }
        let Ok(moves) = bench.moves(Mode::Sure, play.state()) else {
            break;
        };
        play = play_on(bench, play, lowest(moves));
    }
    play
}

// Plays from each of some states.
pub fn print_guided<S: Source>(
    rt: &impl Print,
    name: &str,
    bench: &Bench<S>,
    states: &[u16],
) -> io::Result<()> {
    for state in states {
        if let Ok(play) = bench.begin(*state) {
            let play = follow(bench, play);
            println!(rt; "{name}: guided from {state}: {}", AtRest(&play))?;
        }
    }
    Ok(())
}

// Plays on the game of a record from some states.
fn guided_on(
    rt: &impl Print,
    name: &str,
    record: &[u8],
    target: u16,
    states: &[u16],
) -> io::Result<()> {
    let bench = solved_on(record, &[target]);
    print_guided(rt, name, &bench, states)
}

pub fn plays(rt: &HostRuntime) -> io::Result<()> {
    guided_on(rt, "guided on H", &HIDE, 3, &[0, 1, 2, 3])?;
    guided_on(rt, "guided on chain", &CHAIN, 0, &[3, 2, 1, 0])?;
    let record = line(rt.alloc())?;
    guided_on(rt, "guided on line", record.as_slice(), 0, &[255, 128])
}
