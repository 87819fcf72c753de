// All verdicts of a bench, worked out from its source, its kept moves and its target.
ghost use Rattle.std.specs.Prelude.{◌≡◌, ℕ, ◌<◌, true, if◌then◌else◌, slice_index};
ghost use Rattle.game.specs.Below.{bit};
ghost use Rattle.game.specs.declared.mode.Mode.{Mode};
ghost use Rattle.game.specs.declared.player.Player.{Player};
ghost use Rattle.theory.specs.Benches.{Counts};
ghost use Rattle.theory.specs.Laws.{Exactly};
ghost use Rattle.theory.specs.Positions.{Playable};
ghost use Rattle.theory.specs.Ranking.{rank_at, up_to, RankSays, MovesSay};
ghost use Rattle.theory.specs.Verdicts.{SureRank, AlmostRank, OuterRounds};
ghost use Rattle.solver.specs.Entries.{kept_in, target_in, verdict_in, position_of, rank_of, moves_of};
ghost use Rattle.solver.specs.Moves.{LowerMove};
ghost use Rattle.solver.specs.Positions.{meant};

use crate::entries::{Entries, NO_VERDICT, Verdict};
use crate::levels::{Force, levels};
use crate::links::{Links, ROW, note_links};
use crate::outer::{AlmostSure, Outer};
use crate::position::Position;
use crate::ranks::Ranks;
use game::source::Source;
use std::fmt;

// How many states are sure, how many almost sure, and the number of outer rounds.
#[derive(Clone, Copy, PartialEq, Eq, Debug)]
pub struct Tally {
    pub sure: u16,
    pub almost: u16,
    pub rounds: u16,
}

impl fmt::Display for Tally {
    ghost use Rattle.std.specs.Prelude.{Some};
    ghost use Rattle.solver.specs.Texts.{tally_text};

    ghost output = { λ tally. Some (tally_text tally) };

    fn fmt<W: fmt::Write>(&self, f: &mut fmt::Formatter<W>) -> fmt::Result {
        let Tally {
            sure,
            almost,
            rounds,
        } = self;
        write!(f, "sure {sure} almost {almost} rounds {rounds}")
    }
}

// The verdict on a state in mode sure. At a rank above 0 all moves are handed out that lead into lower ranks.
fn sure_verdict<S: Source>(position: &Position<S>, ranks: &Ranks, state: u16) -> Verdict
    ensures rank { rank_of result ≡ rank_at ranks.now.at state }
    ensures moves { (a : ℕ) → Exactly (bit (moves_of result) a ≡ true) (LowerMove (meant S.game position.now) ranks.now.at state a) }
{
    let Some(rank) = ranks.rank(state) else {
        return NO_VERDICT;
    };
    let moves = if rank > 0 {
        position.moves_into(state, ranks, rank - 1)
    } else {
        0
    };
    Verdict {
        rank: Some(rank),
        moves,
    }
}

// The verdict on a state in mode almost. Outside the target all moves are handed out that stay among the almost-sure states.
fn almost_verdict(entries: &Entries, levels: &Ranks, stay: &[u8; 256], state: u16) -> Verdict
    requires { state < 256 }
    ensures rank { rank_of result ≡ rank_at levels.now.at state }
    ensures moves { moves_of result ≡ (if target_in entries.now.at state then 0 else (if up_to 255 (rank_at levels.now.at state) then slice_index stay.now state else 0)) }
{
    let Some(rank) = levels.rank(state) else {
        return NO_VERDICT;
    };
    let moves = if entries.target(state) {
        0
    } else {
        stay[usize::from(state)]
    };
    Verdict {
        rank: Some(rank),
        moves,
    }
}

// Works out the verdicts on all states, and puts them into the entries; kept moves and target stay. It answers for any entries, so what it
// says of a position is on the condition that the position is playable; a bench has that in its type.
pub fn work_out<S: Source>(source: &S, entries: &mut Entries) -> Tally
    ensures kept { (p : Player) (s : ℕ) → kept_in entries.new.at p s ≡ kept_in entries.old.at p s }
    ensures target { (s : ℕ) → target_in entries.new.at s ≡ target_in entries.old.at s }
    ensures ranks { Playable (position_of (S.Source.game source.now) entries.old.at) → (mode : Mode) (s : ℕ) → s < (S.Source.game source.now).size → RankSays (position_of (S.Source.game source.now) entries.old.at) mode s (rank_of (verdict_in entries.new.at mode s)) }
    ensures moves { Playable (position_of (S.Source.game source.now) entries.old.at) → (mode : Mode) (s : ℕ) → s < (S.Source.game source.now).size → MovesSay (position_of (S.Source.game source.now) entries.old.at) mode s (moves_of (verdict_in entries.new.at mode s)) }
    ensures sure { Playable (position_of (S.Source.game source.now) entries.old.at) → Counts (λ s. (k : ℕ) × SureRank (position_of (S.Source.game source.now) entries.old.at) k s) (S.Source.game source.now).size result.sure }
    ensures almost { Playable (position_of (S.Source.game source.now) entries.old.at) → Counts (λ s. (k : ℕ) × AlmostRank (position_of (S.Source.game source.now) entries.old.at) k s) (S.Source.game source.now).size result.almost }
    ensures rounds { Playable (position_of (S.Source.game source.now) entries.old.at) → OuterRounds (position_of (S.Source.game source.now) entries.old.at) result.rounds }
{
    let position = Position { source, entries };
    let mut before = [[false; ROW]; 256];
    note_links(position, &mut before);
    let links = Links {
        position,
        before: &before,
    };
    let sure = levels(&Force { links: &links });
    let AlmostSure {
        outer: Outer { stay, .. },
        levels: almost,
        rounds,
    } = AlmostSure::new(&links);
    let states = source.states();
    for state in 0..states {
        let position = Position { source, entries };
        let first = sure_verdict(&position, &sure, state);
        let second = almost_verdict(entries, &almost, &stay, state);
        entries.set_verdicts(state, first, second);
    }
    Tally {
        sure: sure.count(states),
        almost: almost.count(states),
        rounds,
    }
}
