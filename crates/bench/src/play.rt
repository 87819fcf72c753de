// A play against a bench, at rest or in an open round.
ghost use Rattle.std.specs.Prelude.{◌≡◌, ◌<◌, ◌≤◌};
ghost use Rattle.game.specs.Below.{elem};
ghost use Rattle.theory.specs.Plays.{Step, rests, opened, commit as to_commit, settle as to_settle};

use crate::bench::Bench;
use game::bits::has_bit;
use game::player::Player;
use game::refusal::Refusal;
use game::source::Source;

// The most rounds that a play settles.
pub const MOST_ROUNDS: u16 = 4000;

// A play at rest: its state, the number of its settled rounds, and whether the target was met.
// It comes of `begin` and of the calls of a play alone, and cannot be copied.
#[derive(Drop)]
pub struct Play {
    pub(crate) state: u16,
    pub(crate) rounds: u16,
    pub(crate) met: bool,
    ghost few: { rounds ≤ 4000 },
}

// An open round: the play as it was at rest, and the move that player 1 committed.
// It has to be given back by `settle` or `abandon`: the check refuses a program that lets one lapse.
pub struct OpenRound {
    play: Play,
    a: u8,
    ghost room: { play.rounds < 4000 },
}

impl Play {
    ghost use Rattle.bench.specs.Held.{position};
    ghost use Rattle.bench.specs.Rounds.{rest_of, moved_answer, after_commit};

    // where the play stands
    pub fn state(&self) -> u16
        ensures { result ≡ self.now.state }
    {
        self.state
    }

    // how many rounds were settled
    pub fn rounds(&self) -> u16
        ensures { result ≡ self.now.rounds }
    {
        self.rounds
    }

    // whether the target was met, at the start or after a settled round
    pub fn met(&self) -> bool
        ensures { result ≡ self.now.met }
    {
        self.met
    }

    // Commits player 1 to a move, which opens a round.
    pub fn commit<S: Source>(self, bench: &Bench<S>, a: u8) -> Result<OpenRound, (Play, Refusal)>
        ensures { Step (position bench.now) (rests (rest_of self)) (to_commit a) (moved_answer result) (after_commit result) }
    {
        if !has_bit(bench.entries.kept(Player::One, self.state), a) {
            return Err((self, Refusal::NotKept(a)));
        }
        if self.rounds == MOST_ROUNDS {
            return Err((self, Refusal::PlayFull));
        }
        Ok(OpenRound { play: self, a })
    }
}

impl OpenRound {
    ghost use Rattle.bench.specs.Held.{position};
    ghost use Rattle.bench.specs.Rounds.{rest_of, rest_in, moved_answer, after_settle};

    // Settles the round by a move of player 2 and a successor.
    pub fn settle<S: Source>(
        self,
        bench: &Bench<S>,
        b: u8,
        successor: u16,
    ) -> Result<Play, (OpenRound, Refusal)>
        ensures { Step (position bench.now) (opened (rest_in self) self.a) (to_settle b successor) (moved_answer result) (after_settle result) }
    {
        let state = self.play.state;
        if !has_bit(bench.entries.kept(Player::Two, state), b) {
            return Err((self, Refusal::NotKept(b)));
        }
        if !can_lead(&bench.source, state, self.a, b, successor) {
            return Err((self, Refusal::NotSuccessor(successor)));
        }
        let OpenRound { play, a: _ } = self;
        Ok(Play {
            state: successor,
            rounds: play.rounds + 1,
            met: play.met || bench.entries.target(successor),
        })
    }

    // Gives the round up: the play is at rest as before the commit.
    pub fn abandon(self) -> Play
        ensures { rest_of result ≡ rest_in self }
    {
        let OpenRound { play, a: _ } = self;
        play
    }
}

// Whether two moves can lead from a state to a successor.
fn can_lead<S: Source>(source: &S, state: u16, a: u8, b: u8, successor: u16) -> bool
    ensures { result ≡ elem successor ((S.Source.game source.now).support state a b) }
{
    (0..source.support_size(state, a, b)).any(|k| source.member(state, a, b, k) == successor)
}
