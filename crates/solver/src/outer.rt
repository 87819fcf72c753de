// The almost-sure states: sets of states, each the union of the levels of the one before, until one is its own.
ghost use Rattle.std.specs.Prelude.{◌≡◌, ℕ, Some};
ghost use Rattle.theory.specs.Laws.{Exactly};
ghost use Rattle.theory.specs.Positions.{Playable};
ghost use Rattle.theory.specs.Ranking.{Within, rank_at, RankFull};
ghost use Rattle.theory.specs.Verdicts.{Level, Outer as OuterSet, OuterRounds};
ghost use Rattle.solver.specs.Positions.{meant};
ghost use Rattle.solver.specs.Steps.{StaysIn, HasStates};

use crate::levels::{Step, levels};
use crate::links::Links;
use crate::ranks::{HIGHEST, Ranks};
use game::source::{MOST_STATES, Source};

// A set of states, those that have a rank, and at each of them the moves that stay in the set. (Two arrays: ranks are used by themselves.)
#[derive(Drop)]
pub(crate) struct Outer<'a, S: Source> {
    pub(crate) links: &'a Links<'a, S>,
    pub(crate) ranks: Ranks,
    pub(crate) stay: [u8; 256],
    ghost stays: { StaysIn (meant S.game links.now.position) ranks.at stay },
    ghost states: { HasStates (meant S.game links.now.position) ranks.at },
}

impl<'a, S: Source> Outer<'a, S> {
    // the set of the states that have a rank
    fn new(links: &'a Links<'a, S>, ranks: Ranks) -> Self
        requires { HasStates (meant S.game links.now.position) ranks.at }
        ensures position { result.links.now.position ≡ links.now.position }
        ensures ranks { result.ranks ≡ ranks }
    {
        let mut stay = [0; 256];
        // By number: of an array that was written through `iter_mut` a proof knows only the length.
        for state in 0..MOST_STATES {
            if ranks.within(state, HIGHEST) {
                stay[usize::from(state)] = links.position.moves_into(state, &ranks, HIGHEST);
            }
        }
        Outer { links, ranks, stay }
    }
}

// The step of the levels of a set: player 1 stays in the set and touches the levels so far.
impl<'a, S: Source> Step<S> for Outer<'a, S> {
    ghost position = { λ outer. meant S.game outer.links.now.position };

    ghost set = { λ outer. Some outer.ranks.at };

    ghost has_states = { λ outer. outer.states };

    fn links(&self) -> &Links<'_, S> {
        self.links
    }

    fn enters(&self, state: u16, ranks: &Ranks, level: u8) -> bool {
        self.ranks.within(state, HIGHEST)
            && self
                .links
                .position
                .can_lead(state, self.stay[usize::from(state)], ranks, level)
    }
}

// The almost-sure states with their stay moves, their levels, and the number of outer rounds.
#[derive(Drop)]
pub(crate) struct AlmostSure<'a, S: Source> {
    pub(crate) outer: Outer<'a, S>,
    pub(crate) levels: Ranks,
    pub(crate) rounds: u16,
}

impl<'a, S: Source> AlmostSure<'a, S> {
    // the almost-sure states of the position of the links
    pub(crate) fn new(links: &'a Links<'a, S>) -> Self
        ensures position { result.outer.links.now.position ≡ links.now.position }
        ensures rounds { Playable (meant S.game links.now.position) → OuterRounds (meant S.game links.now.position) result.rounds }
        ensures outer { Playable (meant S.game links.now.position) → (s : ℕ) → Exactly (Within result.outer.ranks.at 255 s) (OuterSet (meant S.game links.now.position) result.rounds s) }
        ensures levels { Playable (meant S.game links.now.position) → (s : ℕ) → RankFull (Level (meant S.game links.now.position) (Within result.outer.ranks.at 255)) s (rank_at result.levels.at s) }
    {
        let mut outer = Outer::new(
            links,
            Ranks::zero_where(links.position.source.states(), |_| true),
        );
        let mut inner = levels(&outer);
        for rounds in 0..MOST_STATES {
            if inner.covers(&outer.ranks) {
                return AlmostSure {
                    outer,
                    levels: inner,
                    rounds,
                };
            }
            outer = Outer::new(links, inner);
            inner = levels(&outer);
        }
        AlmostSure {
            outer,
            levels: inner,
            rounds: MOST_STATES,
        }
    }
}
