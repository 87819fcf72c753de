// The bench and its calls.
ghost use Rattle.std.specs.Prelude.{◌≡◌, ◌<◌, ◌≤◌, true, false, is_some, MatchOption, MatchResult};
ghost use Rattle.game.specs.Below.{bit};
ghost use Rattle.game.specs.Refusals.{told, with_value};
ghost use Rattle.theory.specs.Benches.{opened, mark as to_mark, unmark as to_unmark, bar as to_bar, allow as to_allow, verdict as to_verdict, moves as to_moves, reply as to_reply, solve as to_solve, told as told_counts, Step};
ghost use Rattle.theory.specs.Plays.{Begin};
ghost use Rattle.solver.specs.Entries.{kept_in, verdict_in, with_kept, with_target, rank_of, moves_of};
ghost use Rattle.bench.specs.Answers.{target_call, judged, handed, countered};
ghost use Rattle.bench.specs.Sound.{Sound};

use crate::play::Play;
use game::bits::{has_bit, with_bit, without_bit};
use game::mode::Mode;
use game::player::Player;
use game::refusal::Refusal;
use game::source::{MOST_STATES, Source};
use solver::entries::Entries;
use solver::verdicts::{Tally, work_out};
use std::fmt;

// A move of player 2 and a successor that answer a move of player 1 outside the sure states.
#[derive(Clone, Copy, PartialEq, Eq, Debug)]
pub struct Reply {
    pub b: u8,
    pub successor: u16,
}

impl fmt::Display for Reply {
    ghost use Rattle.std.specs.Prelude.{Some};
    ghost use Rattle.bench.specs.Texts.{reply_text};

    ghost output = { λ reply. Some (reply_text reply) };

    fn fmt<W: fmt::Write>(&self, f: &mut fmt::Formatter<W>) -> fmt::Result {
        let Reply { b, successor } = self;
        write!(f, "move {b} to {successor}")
    }
}

// A source of a game, an entry for each state, and whether the verdicts in the entries are known.
#[derive(Drop)]
pub struct Bench<S: Source> {
    pub(crate) source: S,
    pub(crate) entries: Entries,
    // whether the verdicts in the entries may be told: an entry has room for its verdicts at all times, so this stands beside them
    pub(crate) solved: bool,
    ghost sound: { ∥ Sound (S.Source.game source) entries.at solved ∥₁ },
}

impl<S: Source> Bench<S> {
    ghost use Rattle.bench.specs.Held.{game_of, held, position, Edit, NoMoveThere, NotAsked, NotHanded, NotCountered, NoReply, RepliesBy, Stay};
    ghost use Rattle.bench.specs.Rounds.{call_answer, begun_rest};

    // a new bench: it keeps all moves, has an empty target and is unsolved
    pub fn open(source: S) -> Self
        ensures source { result.source ≡ source }
        ensures bench { held result ≡ opened (S.Source.game source) }
    {
        let mut entries = Entries::blank();
        for state in 0..MOST_STATES {
            entries.set_kept(Player::One, state, source.moves(Player::One, state));
            entries.set_kept(Player::Two, state, source.moves(Player::Two, state));
        }
        Bench {
            source,
            entries,
            solved: false,
        }
    }

    // refuses a state that the game lacks
    fn check_state(&self, state: u16) -> Result<(), Refusal>
        ensures { MatchResult result (λ _. state < (game_of self.now).size) (λ e. ((game_of self.now).size ≤ state) × (told e ≡ with_value 1 state)) }
    {
        if state < self.source.states() {
            Ok(())
        } else {
            Err(Refusal::NoState(state))
        }
    }

    // puts a state into the target, or takes it out
    fn set_target(&mut self, state: u16, in_target: bool) -> Result<(), Refusal>
        ensures { Edit (target_call in_target state) result self.old self.new (with_target self.old.entries.at state in_target) }
    {
        self.check_state(state)?;
        if self.entries.target(state) == in_target {
            return Err(Refusal::AlreadySo);
        }
        self.entries.set_target(state, in_target);
        self.solved = false;
        Ok(())
    }

    // Puts a state into the target.
    pub fn mark(&mut self, state: u16) -> Result<(), Refusal>
        ensures { Edit (to_mark state) result self.old self.new (with_target self.old.entries.at state true) }
    {
        self.set_target(state, true)
    }

    // Takes a state out of the target.
    pub fn unmark(&mut self, state: u16) -> Result<(), Refusal>
        ensures { Edit (to_unmark state) result self.old self.new (with_target self.old.entries.at state false) }
    {
        self.set_target(state, false)
    }

    // refuses a state that the game lacks, and a move that the player does not have there
    fn check_move(&self, player: Player, state: u16, m: u8) -> Result<(), Refusal>
        ensures { MatchResult result (λ _. (state < (game_of self.now).size) × (bit ((game_of self.now).choices player state) m ≡ true)) (λ e. NoMoveThere (game_of self.now) player state m (told e)) }
    {
        self.check_state(state)?;
        if has_bit(self.source.moves(player, state), m) {
            Ok(())
        } else {
            Err(Refusal::NoMove(m))
        }
    }

    // Takes a move of a player at a state out of the kept moves.
    pub fn bar(&mut self, player: Player, state: u16, m: u8) -> Result<(), Refusal>
        ensures { Edit (to_bar player state m) result self.old self.new (with_kept self.old.entries.at player state (kept_in self.new.entries.at player state)) }
    {
        self.check_move(player, state, m)?;
        let kept = self.entries.kept(player, state);
        if !has_bit(kept, m) {
            return Err(Refusal::AlreadySo);
        }
        let left = without_bit(kept, m);
        if left == 0 {
            return Err(Refusal::OnlyMove);
        }
        self.entries.set_kept(player, state, left);
        self.solved = false;
        Ok(())
    }

    // Puts a move of a player at a state back into the kept moves.
    pub fn allow(&mut self, player: Player, state: u16, m: u8) -> Result<(), Refusal>
        ensures { Edit (to_allow player state m) result self.old self.new (with_kept self.old.entries.at player state (kept_in self.new.entries.at player state)) }
    {
        self.check_move(player, state, m)?;
        let kept = self.entries.kept(player, state);
        if has_bit(kept, m) {
            return Err(Refusal::AlreadySo);
        }
        self.entries.set_kept(player, state, with_bit(kept, m));
        self.solved = false;
        Ok(())
    }

    // refuses a question on a state that the game lacks, or on an unsolved bench
    // (A public clause says for itself that the state is there and the bench solved, so that it can be read alone.)
    fn check_solved(&self, state: u16) -> Result<(), Refusal>
        ensures { MatchResult result (λ _. (state < (game_of self.now).size) × (self.now.solved ≡ true)) (λ e. NotAsked self.now state (told e)) }
    {
        self.check_state(state)?;
        if self.solved {
            Ok(())
        } else {
            Err(Refusal::Unsolved)
        }
    }

    // Works out all verdicts, and tells how many states are sure, how many almost sure, and the outer rounds.
    pub fn solve(&mut self) -> Tally
        ensures stays { (self.new.source ≡ self.old.source) × (self.new.solved ≡ true) × Stay self.old self.new }
        ensures step { Step (game_of self.old) (held self.old) to_solve (told_counts result.sure result.almost result.rounds) (held self.new) }
    {
        let tally = work_out(&self.source, &mut self.entries);
        self.solved = true;
        tally
    }

    // The rank of a state in a mode, none where it is not winning.
    pub fn verdict(&self, mode: Mode, state: u16) -> Result<Option<u8>, Refusal>
        ensures stored { MatchResult result (λ rank. (state < (game_of self.now).size) × (self.now.solved ≡ true) × (rank ≡ rank_of (verdict_in self.now.entries.at mode state))) (λ e. NotAsked self.now state (told e)) }
        ensures step { Step (game_of self.now) (held self.now) (to_verdict mode state) (judged result) (held self.now) }
    {
        self.check_solved(state)?;
        Ok(self.entries.verdict(mode, state).rank)
    }

    // The moves handed out at a winning state, one bit for each move.
    pub fn moves(&self, mode: Mode, state: u16) -> Result<u8, Refusal>
        ensures stored { MatchResult result (λ moves. (state < (game_of self.now).size) × (self.now.solved ≡ true) × (is_some (rank_of (verdict_in self.now.entries.at mode state)) ≡ true) × (moves ≡ moves_of (verdict_in self.now.entries.at mode state))) (λ e. NotHanded self.now mode state (told e)) }
        ensures step { Step (game_of self.now) (held self.now) (to_moves mode state) (handed result) (held self.now) }
    {
        self.check_solved(state)?;
        let verdict = self.entries.verdict(mode, state);
        match verdict.rank {
            Some(_) => Ok(verdict.moves),
            None => Err(Refusal::NotWinning),
        }
    }

    // The first reply to a move, and its first successor that is not sure by the verdicts held.
    fn find_reply(&self, state: u16, a: u8) -> Option<Reply>
        ensures { MatchOption result (NoReply self.now state a) (λ reply. RepliesBy self.now state a reply.b reply.successor) }
    {
        let second = self.entries.kept(Player::Two, state);
        // tried with a filter: in a generic function, a loop over it that needs an invariant gets no proof
        for b in 0..8u8 {
            if !has_bit(second, b) {
                continue;
            }
            for k in 0..self.source.support_size(state, a, b) {
                let successor = self.source.member(state, a, b, k);
                if self.entries.verdict(Mode::Sure, successor).rank.is_none() {
                    return Some(Reply { b, successor });
                }
            }
        }
        None
    }

    // A reply to a kept move of player 1 at a state that is not sure, and a successor that is not sure.
    pub fn reply(&self, state: u16, a: u8) -> Result<Reply, Refusal>
        ensures stored { MatchResult result (λ reply. (state < (game_of self.now).size) × (self.now.solved ≡ true) × RepliesBy self.now state a reply.b reply.successor) (λ e. NotCountered self.now state a (told e)) }
        ensures step { Step (game_of self.now) (held self.now) (to_reply state a) (countered result) (held self.now) }
    {
        self.check_solved(state)?;
        if self.entries.verdict(Mode::Sure, state).rank.is_some() {
            return Err(Refusal::SureState);
        }
        if !has_bit(self.entries.kept(Player::One, state), a) {
            return Err(Refusal::NotKept(a));
        }
        Ok(self.find_reply(state, a).unwrap())
    }

    // Begins a play at a state of a solved bench.
    pub fn begin(&self, state: u16) -> Result<Play, Refusal>
        ensures { Begin (position self.now) self.now.solved state (call_answer result) (begun_rest result) }
    {
        self.check_solved(state)?;
        Ok(Play {
            state,
            rounds: 0,
            met: self.entries.target(state),
        })
    }
}
