// Calls on game H under the monitor that tells even rounds from odd ones: state 2 s is the game's state s in an even round, and
// state 2 s + 1 the same in an odd one.
use crate::lists::ListCase;
use crate::plays::PlayCase;
use game::mode::Mode;
use game::player::Player;
use runs::call::Call;
use runs::play_call::PlayCall;

const CALLS: [Call; 38] = [
    // home in an even round
    Call::Mark(6),
    Call::Mark(8),
    Call::Solve,
    Call::Verdict(Mode::Sure, 7),
    Call::Verdict(Mode::Sure, 3),
    Call::Verdict(Mode::Sure, 2),
    Call::Verdict(Mode::Sure, 0),
    Call::Verdict(Mode::Almost, 0),
    Call::Verdict(Mode::Sure, 4),
    Call::Reply(0, 1),
    Call::Reply(1, 1),
    Call::Reply(5, 0),
    Call::Reply(2, 0),
    Call::Moves(Mode::Sure, 1),
    // safe or home in an odd round, or wet in an even one: the two modes differ in the rank of state 0
    Call::Unmark(6),
    Call::Mark(3),
    Call::Mark(7),
    Call::Mark(4),
    Call::Bar(Player::Two, 1, 2),
    Call::Mark(4),
    Call::Moves(Mode::Sure, 0),
    Call::Solve,
    Call::Verdict(Mode::Sure, 0),
    Call::Verdict(Mode::Almost, 0),
    Call::Moves(Mode::Sure, 0),
    Call::Moves(Mode::Almost, 0),
    Call::Reply(0, 0),
    // home in an even round again, and player 2 is left move 1 alone at hide in an even round
    Call::Unmark(3),
    Call::Unmark(7),
    Call::Unmark(4),
    Call::Mark(6),
    Call::Bar(Player::Two, 0, 0),
    Call::Bar(Player::Two, 0, 1),
    Call::Solve,
    Call::Verdict(Mode::Sure, 0),
    Call::Verdict(Mode::Sure, 1),
    Call::Moves(Mode::Sure, 1),
    Call::Moves(Mode::Almost, 1),
];

// Every round that is settled before the target is met is by a move handed out.
const HOME: [PlayCall; 11] = [
    PlayCall::Commit(0),
    PlayCall::Settle(0, 0),
    PlayCall::Commit(0),
    PlayCall::Settle(0, 1),
    PlayCall::Settle(1, 3),
    PlayCall::Commit(1),
    PlayCall::Commit(0),
    PlayCall::Abandon,
    PlayCall::Commit(0),
    PlayCall::Settle(0, 7),
    PlayCall::Settle(0, 6),
];

// The target is met, the play goes on, and its last round is left open.
const PAST_HOME: [PlayCall; 5] = [
    PlayCall::Commit(1),
    PlayCall::Settle(0, 6),
    PlayCall::Commit(0),
    PlayCall::Settle(0, 7),
    PlayCall::Commit(0),
];

const SHORT_WAY: [PlayCall; 4] = [
    PlayCall::Commit(0),
    PlayCall::Settle(0, 7),
    PlayCall::Commit(0),
    PlayCall::Settle(0, 6),
];

const TWO_COMMITS: [PlayCall; 3] = [
    PlayCall::Commit(0),
    PlayCall::Commit(0),
    PlayCall::Settle(0, 6),
];

const PLAYS: [PlayCase; 6] = [
    PlayCase("home in an even round", 1, &HOME, 11, None),
    PlayCase("past home", 1, &PAST_HOME, 6, Some((0, 6))),
    PlayCase("the short way", 2, &SHORT_WAY, 4, None),
    PlayCase("a commit in a round", 7, &TWO_COMMITS, 3, Some((0, 6))),
    PlayCase("no such state", 8, &PAST_HOME, 6, None),
    PlayCase("no place", 7, &PAST_HOME, 4, None),
];

pub const LISTS: [ListCase; 1] = [ListCase(&CALLS, 38, None, &PLAYS)];
