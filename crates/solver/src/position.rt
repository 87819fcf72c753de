// A position, and where the moves at its states lead.
ghost use Rattle.std.specs.Prelude.{◌≡◌, ℕ, true};
ghost use Rattle.game.specs.Below.{bit};
ghost use Rattle.theory.specs.Laws.{Exactly};
ghost use Rattle.theory.specs.Ranking.{Within};
ghost use Rattle.theory.specs.Verdicts.{Stay};
ghost use Rattle.solver.specs.Moves.{CanLead};
ghost use Rattle.solver.specs.Positions.{meant};

use crate::entries::Entries;
use crate::ranks::Ranks;
use game::bits::{has_bit, with_bit};
use game::player::Player;
use game::source::Source;

// The game of a source, with the kept moves and the target of entries.
#[derive_where(Clone, Copy)]
pub(crate) struct Position<'a, S> {
    pub(crate) source: &'a S,
    pub(crate) entries: &'a Entries,
}

// Ranks and a level go together here and in a step, but ranks are written between two levels: a struct of both would be made at each call.
impl<S: Source> Position<'_, S> {
    // All kept moves of player 1 that lead from a state into the ranks up to `level`, whatever player 2 replies.
    // Inlined: most callers ask for all ranks, and the level then needs no test.
    #[inline(always)]
    pub(crate) fn moves_into(&self, state: u16, ranks: &Ranks, level: u8) -> u8
        ensures { (a : ℕ) → Exactly (bit result a ≡ true) (Stay (meant S.game self.now) (Within ranks.now.at level) state a) }
    {
        let first = self.entries.kept(Player::One, state);
        let second = self.entries.kept(Player::Two, state);
        let mut moves = 0;
        // Loops in loops that are left by a label: chains of `all` and `any` in one another would hide which test decides.
        'moves: for a in 0..8u8 {
            if !has_bit(first, a) {
                continue;
            }
            for b in 0..8u8 {
                if !has_bit(second, b) {
                    continue;
                }
                for k in 0..self.source.support_size(state, a, b) {
                    if !ranks.within(self.source.member(state, a, b, k), level) {
                        continue 'moves;
                    }
                }
            }
            moves = with_bit(moves, a);
        }
        moves
    }

    // Whether, whatever player 2 replies, some move in `moves` can lead from a state into the ranks up to `level`.
    // Inlined into a sweep it would run slower.
    #[inline(never)]
    pub(crate) fn can_lead(&self, state: u16, moves: u8, ranks: &Ranks, level: u8) -> bool
        ensures { Exactly (result ≡ true) (CanLead (meant S.game self.now) moves (Within ranks.now.at level) state) }
    {
        let second = self.entries.kept(Player::Two, state);
        // Loops in loops that are left by a label: chains of `all` and `any` in one another would hide which test decides.
        'replies: for b in 0..8u8 {
            if !has_bit(second, b) {
                continue;
            }
            for a in 0..8u8 {
                if !has_bit(moves, a) {
                    continue;
                }
                for k in 0..self.source.support_size(state, a, b) {
                    if ranks.within(self.source.member(state, a, b, k), level) {
                        continue 'replies;
                    }
                }
            }
            return false;
        }
        true
    }
}
