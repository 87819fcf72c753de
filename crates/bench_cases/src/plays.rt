// Plays, round by round.
use crate::calls::{Edit, make_edit};
use crate::games::{CHAIN, solved_on};
use crate::guided::{play_on, print_guided};
use crate::rounds::{Round, play_round};
use crate::show::AtRest;
use bench::bench::Bench;
use bench::play::{MOST_ROUNDS, Play};
use game::player::Player;
use game::source::Source;
use samples::{HIDE, ONE};
use std::io;

// On H with the target 3.
const HIDE_ROUNDS: [Round; 9] = [
    Round(2, &[]),
    Round(255, &[]),
    Round(0, &[]),
    Round(
        0,
        &[(0, 1), (1, 0), (2, 0), (255, 65535), (0, 65535), (0, 0)],
    ),
    Round(1, &[(0, 2), (1, 3), (1, 1), (8, 3)]),
    Round(0, &[(1, 1)]),
    Round(1, &[]),
    Round(0, &[(0, 3)]),
    Round(0, &[(0, 2), (0, 3)]),
];

// On H with the target 3 and player 2's move 1 barred at 0, by the moves handed out.
const BARRED_ROUNDS: [Round; 2] = [
    Round(1, &[(1, 2), (1, 0), (0, 2), (0, 3)]),
    Round(0, &[(0, 3)]),
];

// On H with the target 1, which is met on the way.
const MET_ROUNDS: [Round; 2] = [Round(0, &[(1, 1)]), Round(0, &[(0, 3)])];

// On the chain, by the moves handed out.
const CHAIN_ROUNDS: [Round; 5] = [
    Round(1, &[]),
    Round(7, &[(0, 3), (0, 0), (1, 2), (0, 2)]),
    Round(7, &[]),
    Round(0, &[(1, 1), (0, 1)]),
    Round(0, &[(0, 0)]),
];

// Begins a play, and plays rounds.
fn play_rounds<S: Source>(
    rt: &impl Print,
    name: &str,
    bench: &Bench<S>,
    state: u16,
    rounds: &[Round],
) -> io::Result<()> {
    let mut play = match bench.begin(state) {
        Ok(play) => play,
        Err(refusal) => return println!(rt; "{name}: begin {state}: {refusal}"),
    };
    println!(rt; "{name}: begin {state}: {}", AtRest(&play))?;
    for round in rounds {
        play = play_round(rt, name, (bench, bench), play, round)?;
    }
    Ok(())
}

pub fn scripts(rt: &impl Print) -> io::Result<()> {
    let mut bench = solved_on(&HIDE, &[3]);
    play_rounds(rt, "play on H", &bench, 0, &HIDE_ROUNDS)?;
    let bar = Edit::Bar(Player::Two, 0, 1);
    make_edit(rt, "play on H, 2 without 1", &mut bench, bar)?;
    let _ = bench.solve();
    play_rounds(rt, "play on H, 2 without 1", &bench, 0, &BARRED_ROUNDS)?;
    print_guided(rt, "play on H, 2 without 1", &bench, &[0, 1, 2])?;
    let bench = solved_on(&HIDE, &[1]);
    play_rounds(rt, "play on H for 1", &bench, 0, &MET_ROUNDS)?;
    let bench = solved_on(&CHAIN, &[0]);
    play_rounds(rt, "play on chain", &bench, 3, &CHAIN_ROUNDS)
}

// A bench that is edited after the play was begun: a round goes by what the bench that it is handed keeps, solved or not.
pub fn edited(rt: &impl Print) -> io::Result<()> {
    let name = "edited";
    let mut bench = solved_on(&HIDE, &[3]);
    let whole = solved_on(&HIDE, &[]);
    let Ok(play) = bench.begin(0) else {
        return Ok(());
    };
    make_edit(rt, name, &mut bench, Edit::Bar(Player::One, 0, 0))?;
    let play = play_round(rt, name, (&bench, &bench), play, &Round(0, &[]))?;
    let play = play_round(rt, name, (&whole, &bench), play, &Round(0, &[(0, 0)]))?;
    let play = play_round(rt, name, (&bench, &whole), play, &Round(1, &[(0, 3)]))?;
    let _ = play_round(rt, name, (&whole, &bench), play, &Round(0, &[(0, 3)]))?;
    Ok(())
}

// A play of H that is handed a bench on the game of one state, at a state that this game lacks.
fn lacking<S: Source, T: Source>(
    rt: &impl Print,
    hide: &Bench<S>,
    one: &Bench<T>,
) -> io::Result<()> {
    let name = "lacking";
    let Ok(play) = hide.begin(3) else {
        return Ok(());
    };
    let play = play_round(rt, name, (one, one), play, &Round(0, &[]))?;
    let play = play_round(rt, name, (hide, one), play, &Round(0, &[(0, 3), (0, 0)]))?;
    let _ = play_round(rt, name, (hide, hide), play, &Round(0, &[(0, 3)]))?;
    Ok(())
}

// A play at state 0, which both games have, and at which H alone has move 1.
fn common<S: Source, T: Source>(
    rt: &impl Print,
    hide: &Bench<S>,
    one: &Bench<T>,
) -> io::Result<()> {
    let name = "common";
    let Ok(play) = one.begin(0) else {
        return Ok(());
    };
    let play = play_round(rt, name, (one, hide), play, &Round(1, &[]))?;
    let play = play_round(rt, name, (hide, one), play, &Round(1, &[(0, 0), (1, 0)]))?;
    let _ = play_round(rt, name, (hide, hide), play, &Round(1, &[(0, 3)]))?;
    Ok(())
}

pub fn other_bench(rt: &impl Print) -> io::Result<()> {
    let hide = solved_on(&HIDE, &[3]);
    let one = solved_on(&ONE, &[]);
    lacking(rt, &hide, &one)?;
    common(rt, &hide, &one)
}

// The last round, and what comes after it.
const LAST_ROUNDS: [Round; 6] = [
    Round(0, &[]),
    Round(1, &[]),
    Round(0, &[(0, 1), (0, 0)]),
    Round(0, &[(0, 0)]),
    Round(1, &[]),
    Round(255, &[]),
];

// A play of 4,000 rounds.
pub fn full(rt: &impl Print) -> io::Result<()> {
    let name = "full";
    let one = solved_on(&ONE, &[]);
    let hide = solved_on(&HIDE, &[3]);
    let Ok(mut play) = one.begin(0) else {
        return Ok(());
    };
    for _ in 1..MOST_ROUNDS {
        play = play_on(&one, play, 0);
    }
    println!(rt; "{name}: {}", AtRest(&play))?;
    for round in &LAST_ROUNDS {
        play = play_round(rt, name, (&one, &one), play, round)?;
    }
    play = play_round(rt, name, (&hide, &hide), play, &Round(1, &[]))?;
    let _ = play_round(rt, name, (&hide, &hide), play, &Round(2, &[]))?;
    Ok(())
}
