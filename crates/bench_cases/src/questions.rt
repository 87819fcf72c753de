// Questions to benches on game H, answered and refused.
use crate::calls::{Edit, Question, ask, make_edit};
use crate::games::{bench_on, solved_on};
use crate::verdicts::print_tally;
use game::mode::Mode;
use game::player::Player;
use samples::HIDE;
use std::io;

// Without a target no state is winning.
const NEW: [Question; 14] = [
    Question::Verdict(Mode::Sure, 0),
    Question::Verdict(Mode::Almost, 3),
    Question::Verdict(Mode::Sure, 4),
    Question::Verdict(Mode::Almost, 65535),
    Question::Moves(Mode::Sure, 0),
    Question::Moves(Mode::Almost, 4),
    Question::Moves(Mode::Sure, 65535),
    Question::Reply(0, 0),
    Question::Reply(0, 255),
    Question::Reply(4, 0),
    Question::Reply(65535, 255),
    Question::Begin(0),
    Question::Begin(4),
    Question::Begin(65535),
];

// With the target 3, states 1 and 3 are winning, and they are sure.
const MARKED: [Question; 13] = [
    Question::Verdict(Mode::Sure, 3),
    Question::Verdict(Mode::Sure, 256),
    Question::Moves(Mode::Sure, 3),
    Question::Moves(Mode::Sure, 0),
    Question::Moves(Mode::Almost, 2),
    Question::Moves(Mode::Almost, 255),
    Question::Reply(0, 1),
    Question::Reply(0, 2),
    Question::Reply(3, 0),
    Question::Reply(3, 255),
    Question::Reply(256, 8),
    Question::Begin(3),
    Question::Begin(256),
];

const SOLVED: [Question; 35] = [
    Question::Verdict(Mode::Sure, 0),
    Question::Verdict(Mode::Almost, 0),
    Question::Verdict(Mode::Sure, 1),
    Question::Verdict(Mode::Almost, 1),
    Question::Verdict(Mode::Sure, 3),
    Question::Verdict(Mode::Sure, 4),
    Question::Verdict(Mode::Almost, 256),
    Question::Verdict(Mode::Almost, 65535),
    Question::Moves(Mode::Sure, 1),
    Question::Moves(Mode::Almost, 1),
    Question::Moves(Mode::Sure, 3),
    Question::Moves(Mode::Sure, 0),
    Question::Moves(Mode::Almost, 0),
    Question::Moves(Mode::Almost, 2),
    Question::Moves(Mode::Sure, 4),
    Question::Moves(Mode::Almost, 65535),
    Question::Reply(0, 0),
    Question::Reply(0, 1),
    Question::Reply(2, 0),
    Question::Reply(1, 0),
    Question::Reply(3, 0),
    Question::Reply(1, 1),
    Question::Reply(3, 255),
    Question::Reply(0, 2),
    Question::Reply(0, 8),
    Question::Reply(0, 255),
    Question::Reply(2, 1),
    Question::Reply(4, 0),
    Question::Reply(4, 1),
    Question::Reply(65535, 255),
    Question::Begin(0),
    Question::Begin(3),
    Question::Begin(4),
    Question::Begin(256),
    Question::Begin(65535),
];

// Player 1's move 1 is barred at 0.
const BARRED: [Question; 3] = [
    Question::Reply(0, 1),
    Question::Reply(0, 0),
    Question::Reply(0, 7),
];

pub fn unsolved(rt: &impl Print) -> io::Result<()> {
    let mut bench = bench_on(&HIDE);
    ask(rt, "new", &bench, &NEW)?;
    make_edit(rt, "marked", &mut bench, Edit::Mark(3))?;
    ask(rt, "marked", &bench, &MARKED)
}

pub fn solved(rt: &impl Print) -> io::Result<()> {
    let mut bench = solved_on(&HIDE, &[3]);
    ask(rt, "solved", &bench, &SOLVED)?;
    let bar = Edit::Bar(Player::One, 0, 1);
    make_edit(rt, "barred", &mut bench, bar)?;
    ask(rt, "barred", &bench, &BARRED)?;
    print_tally(rt, "barred", &mut bench)?;
    ask(rt, "barred", &bench, &BARRED)
}
