// How a bench and a play are used: a gate controller that hides, waits and goes home.
// States: 0 hidden, 1 safe, 2 wet, 3 home. Hidden, the controller may wait (move 0) or run (move 1), and the surroundings may look away
// (move 0) or look (move 1): wait and look away leads to 0, wait and look to 1, run and look away to 3, run and look to 2.
#![tactic(auto)]

use bench::bench::Bench;
use bench::play::{OpenRound, Play};
use game::mode::Mode;
use game::player::Player;
use game::refusal::Refusal;
use game::source::Source;
use records::table::Table;
use samples::HIDE;
use std::io;

// The controller wants to be home, and the surroundings are not allowed to look.
fn prepare<S: Source>(bench: &mut Bench<S>) -> Result<(), Refusal> {
    bench.mark(3)?;
    bench.bar(Player::Two, 0, 1)
}

// The lowest move of a set.
fn lowest(moves: u8) -> u8 {
    // at most 8, so it fits; the program `bench_cases` has the same line: a public function would need a contract and an edit
    moves.trailing_zeros() as u8
}

// Settles an open round; if that is refused, the round is given up.
fn settle_or_abandon<S: Source>(bench: &Bench<S>, round: OpenRound, b: u8, successor: u16) -> Play {
    match round.settle(bench, b, successor) {
        Ok(play) => play,
        Err((round, _)) => round.abandon(),
    }
}

// The number alone is printed, so not by the refusal's own text.
fn print_refusal(rt: &HostRuntime, refusal: Refusal) -> io::Result<()> {
    println!(rt; "refused {}", refusal.number())
}

// Three programs print a play, each in other words.
fn print_play(rt: &HostRuntime, play: &Play) -> io::Result<()> {
    let state = play.state();
    let rounds = play.rounds();
    let met = if play.met() { "yes" } else { "no" };
    println!(rt; "play at {state} rounds {rounds} met {met}")
}

// One round by a move of player 1: player 2 answers with move 0, and the controller gets home.
fn print_round<S: Source>(rt: &HostRuntime, bench: &Bench<S>, play: Play, a: u8) -> io::Result<()> {
    match play.commit(bench, a) {
        Ok(round) => print_play(rt, &settle_or_abandon(bench, round, 0, 3)),
        Err((play, _)) => print_play(rt, &play),
    }
}

// Plays from the moves handed out at the state where the play stands.
fn print_plays<S: Source>(rt: &HostRuntime, bench: &Bench<S>, play: Play) -> io::Result<()> {
    print_play(rt, &play)?;
    match bench.moves(Mode::Sure, play.state()) {
        Ok(moves) => print_round(rt, bench, play, lowest(moves)),
        Err(refusal) => print_refusal(rt, refusal),
    }
}

fn run<S: Source>(rt: &HostRuntime, bench: &mut Bench<S>) -> io::Result<()> {
    if let Err(refusal) = prepare(bench) {
        return print_refusal(rt, refusal);
    }
    println!(rt; "{}", bench.solve())?;
    match bench.begin(0) {
        Ok(play) => print_plays(rt, bench, play),
        Err(refusal) => print_refusal(rt, refusal),
    }
}

fn main(rt: HostRuntime) -> io::Result<()> {
    let mut table = Table::new();
    match table.open(&HIDE) {
        Ok(()) => {
            let mut bench = Bench::open(table);
            run(&rt, &mut bench)
        }
        Err(refusal) => print_refusal(&rt, refusal),
    }
}
