// Benches on monitored games.
use crate::calls::Edit;
use crate::cases::solve;
use crate::games::{DRIFT, table_on};
use crate::guided::print_guided;
use bench::bench::Bench;
use game::player::Player;
use game::source::Source;
use monitor::Monitored;
use records::table::Table;
use samples::{HIDE, SAFE_SEEN};
use std::io;

// A monitor of two states over a game of two states: it goes on in every round.
const EVEN_ODD: [u8; 4] = *b"\x01\x01\0\0";

// A monitor of three states over a game of eight states: it goes on in every round.
const THREE_TURNS: [u8; 24] = *b"\x01\x01\x01\x01\x01\x01\x01\x01\
    \x02\x02\x02\x02\x02\x02\x02\x02\
    \0\0\0\0\0\0\0\0";

// Opens a bench on a source, makes the edits, solves, and plays from some states.
fn solve_source<S: Source + Drop>(
    rt: &impl Print,
    name: &str,
    source: S,
    edits: &[Edit],
    states: &[u16],
) -> io::Result<()> {
    let mut bench = Bench::open(source);
    solve(rt, name, &mut bench, edits)?;
    print_guided(rt, name, &bench, states)
}

// The game of a source under a monitor of m states. Two other programs have the like: a public function would need a contract and an
// edit, and be longer.
fn monitored<S: Source>(source: S, m: u16, turns: &[u8]) -> Monitored<S> {
    let mut game = Monitored::new(source);
    let _ = game.make(m, turns);
    game
}

// The game of a record under a monitor of two states.
fn with_two<'a>(record: &'a [u8], turns: &[u8]) -> Monitored<Table<'a>> {
    monitored(table_on(record), 2, turns)
}

// Home after safe is wanted: state 3 of H and state 1 of the monitor.
pub fn once(rt: &impl Print) -> io::Result<()> {
    let game = with_two(&HIDE, &SAFE_SEEN);
    let edits = [Edit::Mark(8), Edit::Mark(7)];
    solve_source(rt, "H with 2", game, &edits, &[3])?;
    let game = with_two(&HIDE, &SAFE_SEEN);
    let edits = [
        Edit::Bar(Player::Two, 0, 0),
        Edit::Bar(Player::Two, 0, 1),
        Edit::Bar(Player::Two, 1, 1),
        Edit::Bar(Player::Two, 8, 1),
        Edit::Mark(7),
    ];
    solve_source(rt, "H with 2, barred", game, &edits, &[0, 1, 2])?;
    let game = with_two(&DRIFT, &EVEN_ODD);
    solve_source(rt, "drift with 2", game, &[Edit::Mark(3)], &[2, 0])
}

// Home after safe is wanted, at the first state of the second monitor.
pub fn twice(rt: &impl Print) -> io::Result<()> {
    let game = monitored(with_two(&HIDE, &SAFE_SEEN), 3, &THREE_TURNS);
    let edits = [
        Edit::Mark(24),
        Edit::Mark(21),
        Edit::Bar(Player::Two, 0, 0),
        Edit::Bar(Player::Two, 4, 1),
        Edit::Bar(Player::Two, 23, 1),
    ];
    solve_source(rt, "H with 2 and 3", game, &edits, &[0, 4, 23])
}
