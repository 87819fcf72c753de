// A week of edits and questions, handed over at once.
use crate::lists::ListCase;
use crate::plays::PlayCase;
use game::mode::Mode;
use game::player::Player;
use runs::call::Call;
use runs::play_call::PlayCall;

const WEEK: [Call; 60] = [
    // nothing is solved
    Call::Verdict(Mode::Sure, 0),
    Call::Moves(Mode::Almost, 3),
    Call::Reply(0, 1),
    // the target is empty
    Call::Solve,
    Call::Verdict(Mode::Almost, 3),
    // home becomes the target; state 7 is there under the monitor alone
    Call::Mark(3),
    Call::Mark(7),
    Call::Mark(3),
    Call::Unmark(2),
    Call::Unmark(65535),
    Call::Verdict(Mode::Sure, 3),
    Call::Solve,
    Call::Verdict(Mode::Sure, 0),
    Call::Verdict(Mode::Sure, 1),
    Call::Verdict(Mode::Sure, 2),
    Call::Verdict(Mode::Sure, 3),
    Call::Verdict(Mode::Almost, 0),
    Call::Verdict(Mode::Almost, 1),
    Call::Moves(Mode::Sure, 0),
    Call::Moves(Mode::Sure, 1),
    Call::Moves(Mode::Almost, 3),
    Call::Reply(0, 1),
    Call::Reply(0, 0),
    Call::Reply(1, 0),
    Call::Reply(0, 2),
    // states and moves that are not there; refused edits leave the verdicts
    Call::Verdict(Mode::Almost, 8),
    Call::Moves(Mode::Sure, 256),
    Call::Reply(8, 0),
    Call::Bar(Player::One, 8, 0),
    Call::Allow(Player::Two, 65535, 0),
    Call::Bar(Player::Two, 0, 2),
    Call::Allow(Player::Two, 0, 8),
    Call::Allow(Player::Two, 0, 1),
    Call::Verdict(Mode::Sure, 1),
    // player 2 is left move 0 alone at hide
    Call::Bar(Player::Two, 0, 1),
    Call::Reply(0, 1),
    Call::Bar(Player::Two, 0, 1),
    Call::Bar(Player::Two, 0, 0),
    Call::Solve,
    Call::Verdict(Mode::Sure, 0),
    Call::Moves(Mode::Sure, 0),
    Call::Moves(Mode::Almost, 0),
    Call::Reply(0, 9),
    // another target, and player 1 is left move 0 alone at hide
    Call::Unmark(3),
    Call::Mark(2),
    Call::Bar(Player::One, 0, 1),
    Call::Allow(Player::Two, 0, 1),
    Call::Solve,
    Call::Verdict(Mode::Sure, 2),
    Call::Verdict(Mode::Almost, 0),
    Call::Reply(0, 1),
    // the first target again, and player 2 is left move 1 alone at hide
    Call::Unmark(2),
    Call::Mark(3),
    Call::Allow(Player::One, 0, 1),
    Call::Bar(Player::Two, 0, 0),
    Call::Solve,
    Call::Verdict(Mode::Sure, 0),
    Call::Moves(Mode::Sure, 0),
    Call::Verdict(Mode::Almost, 0),
    Call::Moves(Mode::Almost, 0),
];

// Every round that is settled before home is reached is by a move handed out.
const HOME: [PlayCall; 14] = [
    PlayCall::Commit(2),
    PlayCall::Commit(1),
    PlayCall::Abandon,
    PlayCall::Commit(0),
    PlayCall::Settle(0, 0),
    PlayCall::Settle(1, 2),
    PlayCall::Settle(1, 1),
    PlayCall::Commit(1),
    PlayCall::Commit(0),
    PlayCall::Settle(0, 65535),
    PlayCall::Settle(1, 3),
    PlayCall::Settle(0, 3),
    PlayCall::Commit(0),
    PlayCall::Settle(0, 3),
];

// Move 1 at hide is kept, but not handed out.
const STRAY: [PlayCall; 5] = [
    PlayCall::Commit(1),
    PlayCall::Settle(1, 2),
    PlayCall::Commit(0),
    PlayCall::Settle(0, 3),
    PlayCall::Settle(0, 2),
];

const LEFT_OPEN: [PlayCall; 2] = [PlayCall::Commit(8), PlayCall::Commit(0)];

const TWO_COMMITS: [PlayCall; 4] = [
    PlayCall::Commit(0),
    PlayCall::Settle(1, 0),
    PlayCall::Commit(1),
    PlayCall::Settle(1, 1),
];

const PLAYS: [PlayCase; 15] = [
    PlayCase("home by way of safe", 0, &HOME, 14, None),
    PlayCase("a place too few", 0, &HOME, 13, None),
    PlayCase("into the wet", 0, &STRAY, 8, None),
    PlayCase("a round left open", 0, &LEFT_OPEN, 2, None),
    PlayCase("a round left open", 0, &LEFT_OPEN, 3, Some((1, 1))),
    PlayCase("a round left open", 0, &LEFT_OPEN, 2, Some((0, 0))),
    PlayCase("a round left open", 0, &LEFT_OPEN, 2, Some((1, 3))),
    PlayCase("a commit in a round", 0, &TWO_COMMITS, 4, None),
    PlayCase(
        "a settle at rest",
        1,
        &[PlayCall::Settle(1, 1), PlayCall::Commit(0)],
        2,
        None,
    ),
    PlayCase("an abandon at rest", 2, &[PlayCall::Abandon], 1, None),
    PlayCase("no calls", 3, &[], 0, None),
    PlayCase("no calls", 2, &[], 2, None),
    PlayCase("no such state", 4, &HOME, 14, None),
    PlayCase("no such state and no place", 65535, &LEFT_OPEN, 0, None),
    PlayCase("no place", 0, &LEFT_OPEN, 0, None),
];

// Under the monitor, state 0 is hide in an even round, 1 hide in an odd one, 3 safe in an odd one, and so on.
const SAFE_IN_ODD: [PlayCall; 12] = [
    PlayCall::Commit(1),
    PlayCall::Settle(0, 3),
    PlayCall::Abandon,
    PlayCall::Commit(3),
    PlayCall::Commit(0),
    PlayCall::Settle(1, 0),
    PlayCall::Settle(0, 0),
    PlayCall::Commit(0),
    PlayCall::Settle(0, 1),
    PlayCall::Settle(1, 3),
    PlayCall::Commit(0),
    PlayCall::Settle(0, 6),
];

const MONITORED_PLAYS: [PlayCase; 1] = [PlayCase(
    "safe in an odd round",
    1,
    &SAFE_IN_ODD,
    12,
    None,
)];

// The week on game H, and the same week on H under the monitor.
pub const ON_HIDE: [ListCase; 1] = [ListCase(&WEEK, 60, None, &PLAYS)];

pub const ON_MONITORED: [ListCase; 1] = [ListCase(&WEEK, 60, None, &MONITORED_PLAYS)];
