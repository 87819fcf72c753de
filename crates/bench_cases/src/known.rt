// The known games.
use crate::calls::{Edit, Question, ask, make_edit};
use crate::cases::{Case, solve_all};
use crate::games::{CHAIN, DRIFT, EQUAL, bench_on};
use crate::verdicts::print_solved;
use game::player::Player;
use samples::{HIDE, ONE};
use std::io;

const GAMES: [Case; 4] = [
    Case("H", &HIDE, &[Edit::Mark(3)]),
    Case("equal moves", &EQUAL, &[Edit::Mark(1)]),
    Case("drift", &DRIFT, &[Edit::Mark(1)]),
    Case("chain", &CHAIN, &[Edit::Mark(0)]),
];

// Empty targets, and targets of all states.
const TARGETS: [Case; 6] = [
    Case("H for none", &HIDE, &[]),
    Case("equal moves for none", &EQUAL, &[]),
    Case("one state for none", &ONE, &[]),
    Case(
        "H for all",
        &HIDE,
        &[Edit::Mark(0), Edit::Mark(1), Edit::Mark(2), Edit::Mark(3)],
    ),
    Case(
        "equal moves for all",
        &EQUAL,
        &[Edit::Mark(1), Edit::Mark(0)],
    ),
    Case("one state for all", &ONE, &[Edit::Mark(0)]),
];

// Bars at state 0 of H, and others.
const BARS: [Case; 7] = [
    Case(
        "H, 2 without 0",
        &HIDE,
        &[Edit::Mark(3), Edit::Bar(Player::Two, 0, 0)],
    ),
    Case(
        "H, 1 without 0",
        &HIDE,
        &[Edit::Mark(3), Edit::Bar(Player::One, 0, 0)],
    ),
    Case(
        "H, 1 without 1",
        &HIDE,
        &[Edit::Mark(3), Edit::Bar(Player::One, 0, 1)],
    ),
    Case(
        "H, 1 without 0, 2 without 1",
        &HIDE,
        &[
            Edit::Bar(Player::One, 0, 0),
            Edit::Bar(Player::Two, 0, 1),
            Edit::Mark(3),
        ],
    ),
    Case(
        "equal moves, 2 without 0",
        &EQUAL,
        &[Edit::Mark(1), Edit::Bar(Player::Two, 0, 0)],
    ),
    Case(
        "equal moves, 1 without 1",
        &EQUAL,
        &[Edit::Mark(1), Edit::Bar(Player::One, 0, 1)],
    ),
    Case(
        "chain, 1 without 7",
        &CHAIN,
        &[Edit::Bar(Player::One, 3, 7), Edit::Mark(0)],
    ),
];

pub fn games(rt: &impl Print) -> io::Result<()> {
    solve_all(rt, &GAMES)
}

pub fn targets(rt: &impl Print) -> io::Result<()> {
    solve_all(rt, &TARGETS)
}

// H with player 2's move 1 barred at 0, where the other move cannot be barred too.
fn hide_barred(rt: &impl Print) -> io::Result<()> {
    let name = "H, 2 without 1";
    let mut bench = bench_on(&HIDE);
    make_edit(rt, name, &mut bench, Edit::Mark(3))?;
    make_edit(rt, name, &mut bench, Edit::Bar(Player::Two, 0, 1))?;
    print_solved(rt, name, &mut bench)?;
    make_edit(rt, name, &mut bench, Edit::Bar(Player::Two, 0, 0))?;
    ask(
        rt,
        name,
        &bench,
        &[Question::Reply(0, 1), Question::Reply(2, 0)],
    )
}

pub fn bars(rt: &impl Print) -> io::Result<()> {
    hide_barred(rt)?;
    solve_all(rt, &BARS)
}
