// The ranks of states, while they are worked out.
ghost use Rattle.std.specs.Prelude.{◌≡◌, ℕ, ◌<◌, ◌≤◌, true, Some, length, slice_set};
ghost use Rattle.game.specs.Below.{rank};
ghost use Rattle.theory.specs.Laws.{Exactly};
ghost use Rattle.theory.specs.Ranking.{rank_at, up_to, Within};
ghost use Rattle.solver.specs.Ranks.{ZeroWhere};

use game::source::MOST_STATES;

// The highest rank: a game has at most 256 states, and each rank up to the highest one of a game has a state of its own.
pub(crate) const HIGHEST: u8 = 255;

// The rank of each state, none where it has none.
#[derive(Drop)]
pub(crate) struct Ranks {
    pub(crate) at: [Option<u8>; 256],
    ghost whole: { length at ≡ 256 },
}

impl Ranks {
    // rank 0 for each state below `states` that passes the test, and no other rank
    pub(crate) fn zero_where<F: Fn(u16) -> bool>(states: u16, test: F) -> Self
        requires few { states ≤ 256 }
        requires callable { F.IsAlwaysCallable test }
        ensures { ZeroWhere (F.post test) states result.at }
    {
        let mut ranks = Ranks { at: [None; 256] };
        for state in 0..states {
            if test(state) {
                ranks.give(state, 0);
            }
        }
        ranks
    }

    // the rank of a state
    pub(crate) fn rank(&self, state: u16) -> Option<u8>
        ensures { result ≡ rank_at self.now.at state }
    {
        self.at.get(usize::from(state)).copied().flatten()
    }

    // whether a state has a rank, and it is at most `level`
    pub(crate) fn within(&self, state: u16, level: u8) -> bool
        ensures { result ≡ up_to level (rank_at self.now.at state) }
    {
        self.rank(state).is_some_and(|rank| rank <= level)
    }

    // gives a state a rank
    // (A state below 256 is asked for by a clause, here and in `links` and `verdicts`: a type for it would be made at each call.)
    pub(crate) fn give(&mut self, state: u16, rank: u8)
        requires { state < 256 }
        ensures { self.new.at ≡ slice_set self.old.at state (Some rank) }
    {
        self.at[usize::from(state)] = Some(rank);
    }

    // how many of the first states have a rank
    pub(crate) fn count(&self, states: u16) -> u16
        ensures { result ≡ rank (λ s. up_to 255 (rank_at self.now.at s)) states }
    {
        // at most `states`, so it fits
        (0..states).filter(|s| self.within(*s, HIGHEST)).count() as u16
    }

    // whether each state that has a rank in `outer` has one here
    pub(crate) fn covers(&self, outer: &Ranks) -> bool
        ensures { Exactly (result ≡ true) ((s : ℕ) → s < 256 → Within outer.now.at 255 s → Within self.now.at 255 s) }
    {
        (0..MOST_STATES).all(|s| !outer.within(s, HIGHEST) || self.within(s, HIGHEST))
    }
}
