// The entries of a bench: one for each state that a game may have.
ghost use Rattle.std.specs.Prelude.{◌≡◌, ℕ, length};
ghost use Rattle.solver.specs.Entries.{blank, entry, kept_in, verdict_in, with_kept, with_target, with_verdicts};

use game::mode::Mode;
use game::player::Player;
use game::source::MOST_STATES;

// A verdict on a state in one mode: its rank, if it is winning, and the moves handed out there.
#[derive(Clone, Copy, PartialEq, Eq, Debug)]
pub struct Verdict {
    pub rank: Option<u8>,
    pub moves: u8,
}

// One state: the kept moves of both players, whether it is in the target, and its verdicts.
#[derive(Clone, Copy, PartialEq, Eq, Debug)]
pub struct Entry {
    pub one: u8,
    pub two: u8,
    pub target: bool,
    pub sure: Verdict,
    pub almost: Verdict,
}

// no rank, and no moves
pub(crate) const NO_VERDICT: Verdict = Verdict {
    rank: None,
    moves: 0,
};

// no kept moves, not in the target, no verdicts
const BLANK: Entry = Entry {
    one: 0,
    two: 0,
    target: false,
    sure: NO_VERDICT,
    almost: NO_VERDICT,
};

#[derive(Drop)]
pub struct Entries {
    pub at: [Entry; 256],
    ghost whole: { length at ≡ 256 },
}

impl Entries {
    // entries that keep no moves
    pub fn blank() -> Self
        ensures { (s : ℕ) → entry result.at s ≡ blank }
    {
        Entries { at: [BLANK; 256] }
    }

    // the entry of a state; past the last one, an entry that keeps no moves
    pub fn entry(&self, state: u16) -> Entry
        ensures { result ≡ entry self.now.at state }
    {
        self.at.get(usize::from(state)).copied().unwrap_or(BLANK)
    }

    // the kept moves of a player at a state, one bit for each move
    pub fn kept(&self, player: Player, state: u16) -> u8
        ensures { result ≡ kept_in self.now.at player state }
    {
        match player {
            Player::One => self.entry(state).one,
            Player::Two => self.entry(state).two,
        }
    }

    // whether a state is in the target
    pub fn target(&self, state: u16) -> bool
        ensures { result ≡ (entry self.now.at state).target }
    {
        self.entry(state).target
    }

    // the verdict on a state that is held
    pub fn verdict(&self, mode: Mode, state: u16) -> Verdict
        ensures { result ≡ verdict_in self.now.at mode state }
    {
        match mode {
            Mode::Sure => self.entry(state).sure,
            Mode::Almost => self.entry(state).almost,
        }
    }

    // Puts other kept moves of a player into the entry of a state. Past the last entry nothing changes.
    pub fn set_kept(&mut self, player: Player, state: u16, moves: u8)
        ensures { self.new.at ≡ with_kept self.old.at player state moves }
    {
        // A test and an index, here and below: of an array that was written through `get_mut` a proof knows only the length.
        if state < MOST_STATES {
            match player {
                Player::One => self.at[usize::from(state)].one = moves,
                Player::Two => self.at[usize::from(state)].two = moves,
            }
        }
    }

    // Puts a state into the target, or takes it out. Past the last entry nothing changes.
    pub fn set_target(&mut self, state: u16, in_target: bool)
        ensures { self.new.at ≡ with_target self.old.at state in_target }
    {
        if state < MOST_STATES {
            self.at[usize::from(state)].target = in_target;
        }
    }

    // Puts verdicts into the entry of a state. Past the last entry nothing changes.
    pub fn set_verdicts(&mut self, state: u16, sure: Verdict, almost: Verdict)
        ensures { self.new.at ≡ with_verdicts self.old.at state sure almost }
    {
        if state < MOST_STATES {
            let entry = &mut self.at[usize::from(state)];
            entry.sure = sure;
            entry.almost = almost;
        }
    }
}
