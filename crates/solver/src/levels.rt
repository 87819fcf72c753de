// Ranks, worked out level by level.
ghost use Rattle.std.specs.Prelude.{◌≡◌, ℕ, ◌+◌, ◌<◌, true, false, List, Some, None, Option};
ghost use Rattle.theory.specs.Laws.{Exactly};
ghost use Rattle.theory.specs.Layers.{Enters};
ghost use Rattle.theory.specs.Positions.{Position, Playable, State};
ghost use Rattle.theory.specs.Ranking.{Within, rank_at, step_of, layers_of, RankUpto, RankFull};
ghost use Rattle.solver.specs.Links.{Spares};
ghost use Rattle.solver.specs.Positions.{meant};
ghost use Rattle.solver.specs.Steps.{HasStates, AllStates};

use crate::links::Links;
use crate::ranks::{HIGHEST, Ranks};
use game::source::Source;

// How a state enters the next level at a position.
pub(crate) trait Step<S: Source> {
    // the position whose levels are worked out
    ghost position: { Self → Position };

    // the set whose levels are worked out, none for sure ranks
    ghost set: { Self → Option (List (Option ℕ)) };

    // the links of the position
    fn links(&self) -> &Links<'_, S>
        ensures { meant S.game result.now.position ≡ position self.now };

    // whether a state enters the level after `level`
    fn enters(&self, state: u16, ranks: &Ranks, level: u8) -> bool
        requires { State (position self.now) state }
        ensures { Exactly (result ≡ true) (step_of (position self.now) (set self.now) (Within ranks.now.at level) state) };

    // the members of the set are states of the game
    ghost has_states: { (x : Self) → AllStates (position x) (set x) };
}

// The step of sure ranks: player 1 forces the state into the levels so far.
#[derive(Drop)]
pub(crate) struct Force<'a, S: Source> {
    pub(crate) links: &'a Links<'a, S>,
}

impl<'a, S: Source> Step<S> for Force<'a, S> {
    ghost position = { λ step. meant S.game step.links.now.position };

    ghost set = { λ _. None };

    ghost has_states = { λ _. tt };

    fn links(&self) -> &Links<'_, S> {
        self.links
    }

    fn enters(&self, state: u16, ranks: &Ranks, level: u8) -> bool {
        self.links.position.moves_into(state, ranks, level) != 0
    }
}

// Gives the rank `level` + 1 to each state that enters there. Whether there was one.
// A state that is not marked is not looked at; after the sweep those are marked that can enter in the next one.
fn sweep<S: Source, T: Step<S>>(
    step: &T,
    marks: &mut [bool; 256],
    ranks: &mut Ranks,
    level: u8,
) -> bool
    requires low { level < 255 }
    requires spares { Spares (layers_of (T.position step.now) (T.set step.now)) level marks.old }
    requires ranks { (s : ℕ) → RankUpto (layers_of (T.position step.now) (T.set step.now)) level s (rank_at ranks.old.at s) }
    ensures marks { Spares (layers_of (T.position step.now) (T.set step.now)) (level + 1) marks.new }
    ensures ranks { (s : ℕ) → RankUpto (layers_of (T.position step.now) (T.set step.now)) (level + 1) s (rank_at ranks.new.at s) }
    ensures entered { result ≡ false → (s : ℕ) → Enters (layers_of (T.position step.now) (T.set step.now)) (level + 1) s → ⊥ }
{
    let links = step.links();
    let mut entered = false;
    let mut next = [false; 256];
    for state in 0..links.position.source.states() {
        if marks[usize::from(state)]
            && !ranks.within(state, HIGHEST)
            && step.enters(state, ranks, level)
        {
            ranks.give(state, level + 1);
            links.mark_before(state, &mut next);
            entered = true;
        }
    }
    *marks = next;
    entered
}

// All ranks, each the level at which its state enters. Those of level 0 are the target.
pub(crate) fn levels<S: Source, T: Step<S>>(step: &T) -> Ranks
    ensures states { HasStates (T.position step.now) result.at }
    ensures ranks { Playable (T.position step.now) → (s : ℕ) → RankFull (layers_of (T.position step.now) (T.set step.now)) s (rank_at result.at s) }
{
    let position = step.links().position;
    let mut ranks = Ranks::zero_where(position.source.states(), |s| position.entries.target(s));
    let mut marks = [true; 256];
    for level in 0..HIGHEST {
        if !sweep(step, &mut marks, &mut ranks, level) {
            break;
        }
    }
    ranks
}
