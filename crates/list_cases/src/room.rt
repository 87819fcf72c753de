// Lists with too few places for answers, with more than they need, and lists of no calls.
use crate::lists::ListCase;
use crate::plays::PlayCase;
use game::mode::Mode;
use game::player::Player;
use runs::call::Call;
use runs::play_call::PlayCall;

// The last call is an edit, so the bench comes back unsolved.
const CALLS: [Call; 5] = [
    Call::Mark(3),
    Call::Solve,
    Call::Verdict(Mode::Sure, 1),
    Call::Verdict(Mode::Sure, 8),
    Call::Bar(Player::Two, 0, 1),
];

const PLAY_CALLS: [PlayCall; 2] = [PlayCall::Commit(8), PlayCall::Commit(0)];

// Plays that cannot be begun on an unsolved bench.
const UNSOLVED: [PlayCase; 3] = [
    PlayCase("an edit after solve", 3, &PLAY_CALLS, 2, None),
    PlayCase("no such state before unsolved", 8, &PLAY_CALLS, 2, None),
    PlayCase("unsolved before no place", 3, &PLAY_CALLS, 1, None),
];

const NO_SOLVE: [PlayCase; 1] = [PlayCase("no solve", 0, &[], 0, None)];

// A place too few and then just enough, no place and then more than are needed, and no calls.
pub const LISTS: [ListCase; 4] = [
    ListCase(&CALLS, 4, Some(5), &UNSOLVED),
    ListCase(&CALLS, 0, Some(8), &UNSOLVED),
    ListCase(&[], 0, None, &NO_SOLVE),
    ListCase(&[], 3, None, &NO_SOLVE),
];
