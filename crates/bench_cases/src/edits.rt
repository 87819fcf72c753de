// Edits of benches on game H, refused and accepted.
use crate::calls::{Edit, Question, ask, make_edit, make_edits};
use crate::games::solved_on;
use crate::held::print_held;
use crate::verdicts::{print_solved, print_tally, print_verdicts};
use game::mode::Mode;
use game::player::Player;
use samples::HIDE;
use std::io;

// All are refused while 3 is the target and player 2's move 1 is barred at 0.
const REFUSED: [Edit; 34] = [
    Edit::Mark(4),
    Edit::Mark(255),
    Edit::Mark(256),
    Edit::Mark(65535),
    Edit::Mark(3),
    Edit::Unmark(4),
    Edit::Unmark(256),
    Edit::Unmark(65535),
    Edit::Unmark(0),
    Edit::Bar(Player::One, 4, 0),
    Edit::Bar(Player::Two, 4, 1),
    Edit::Bar(Player::Two, 65535, 255),
    Edit::Bar(Player::One, 0, 2),
    Edit::Bar(Player::One, 0, 8),
    Edit::Bar(Player::Two, 0, 255),
    Edit::Bar(Player::One, 3, 1),
    Edit::Bar(Player::Two, 0, 1),
    Edit::Bar(Player::Two, 0, 0),
    Edit::Bar(Player::One, 1, 0),
    Edit::Bar(Player::Two, 3, 0),
    Edit::Allow(Player::One, 4, 0),
    Edit::Allow(Player::Two, 4, 1),
    Edit::Allow(Player::Two, 65535, 255),
    Edit::Allow(Player::One, 256, 0),
    Edit::Allow(Player::One, 0, 2),
    Edit::Allow(Player::Two, 0, 7),
    Edit::Allow(Player::One, 0, 8),
    Edit::Allow(Player::Two, 1, 255),
    Edit::Allow(Player::One, 0, 0),
    Edit::Allow(Player::One, 0, 1),
    Edit::Allow(Player::Two, 0, 0),
    Edit::Allow(Player::Two, 3, 0),
    Edit::Allow(Player::One, 3, 0),
    Edit::Bar(Player::One, 65535, 0),
];

// Each is accepted on the bench that the ones before have left.
const ACCEPTED: [Edit; 10] = [
    Edit::Mark(1),
    Edit::Mark(0),
    Edit::Unmark(0),
    Edit::Unmark(1),
    Edit::Bar(Player::Two, 0, 1),
    Edit::Allow(Player::Two, 0, 1),
    Edit::Bar(Player::One, 0, 0),
    Edit::Bar(Player::Two, 0, 0),
    Edit::Allow(Player::One, 0, 0),
    Edit::Unmark(3),
];

const QUESTIONS: [Question; 4] = [
    Question::Verdict(Mode::Sure, 0),
    Question::Moves(Mode::Almost, 3),
    Question::Reply(0, 0),
    Question::Begin(0),
];

// Refused edits of a solved bench, which stays as it is, and then of an unsolved one.
pub fn refused(rt: &impl Print) -> io::Result<()> {
    let name = "refused";
    let mut bench = solved_on(&HIDE, &[3]);
    make_edit(rt, name, &mut bench, Edit::Bar(Player::Two, 0, 1))?;
    print_solved(rt, name, &mut bench)?;
    make_edits(rt, name, &mut bench, &REFUSED)?;
    print_verdicts(rt, name, &bench)?;
    print_held(rt, name, &mut bench)?;
    make_edits(rt, "refused, unsolved", &mut bench, &REFUSED)?;
    print_held(rt, name, &mut bench)?;
    print_solved(rt, name, &mut bench)
}

// Accepted edits of a solved bench, each of which makes it unsolved.
pub fn accepted(rt: &impl Print) -> io::Result<()> {
    let name = "accepted";
    let mut bench = solved_on(&HIDE, &[3]);
    for edit in &ACCEPTED {
        make_edit(rt, name, &mut bench, *edit)?;
        ask(rt, name, &bench, &QUESTIONS)?;
        print_held(rt, name, &mut bench)?;
        print_tally(rt, name, &mut bench)?;
        print_verdicts(rt, name, &bench)?;
    }
    Ok(())
}
