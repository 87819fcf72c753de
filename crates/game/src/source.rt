// What a source of a game answers. The solver, the writer and the monitored game are written once for every source.
ghost use Rattle.std.specs.Prelude.{◌≡◌, length, slice_index};
ghost use Rattle.game.specs.Games.{Game, WellFormed};

use crate::player::Player;

// The most states that a game has.
pub const MOST_STATES: u16 = 256;

// A source means one game, and each answer is the one that this game gives.
// A question that names a state, a move or a member outside the game is answered 0.
pub trait Source {
    ghost game: { Self → Game };

    ghost valid: { (x : Self) → WellFormed (game x) };

    // the number of states
    fn states(&self) -> u16
        ensures { result ≡ (game self.now).size };

    // the move set of a player at a state, one bit for each move
    fn moves(&self, player: Player, state: u16) -> u8
        ensures { result ≡ (game self.now).choices player state };

    // how many states the support of two moves has
    fn support_size(&self, state: u16, a: u8, b: u8) -> u16
        ensures { result ≡ length ((game self.now).support state a b) };

    // member k of the support of two moves, counted from 0 in ascending order
    fn member(&self, state: u16, a: u8, b: u8, k: u16) -> u16
        ensures { result ≡ slice_index ((game self.now).support state a b) k };
}
