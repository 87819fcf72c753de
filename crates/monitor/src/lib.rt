// The game of a source under a monitor, a machine of a few states that follows the play.
#![tactic(auto)]

ghost use Rattle.std.specs.Prelude.{◌≡◌, ℕ, ◌+◌, ◌*◌, ◌<◌, ◌≤◌, length, MatchOption, MatchResult, OnOk, slice_index};
ghost use Rattle.game.specs.Games.{Same};
ghost use Rattle.game.specs.Refusals.{told, with_value};
ghost use Rattle.monitor.specs.Making.{Accepted, FirstWrong, NotMade};
ghost use Rattle.monitor.specs.Products.{Entries, next, product};
ghost use Rattle.monitor.specs.Valid.{product_valid};

use game::player::Player;
use game::refusal::Refusal;
use game::source::{MOST_STATES, Source};

// The most states that a monitor has.
const MOST_MONITOR_STATES: u16 = 8;

// A monitor has the states 0 to `states` - 1. For a game of n states, its table holds at place q * n + t the state that
// comes after its state q where the game goes on to t. The library allocates nothing, so the table has room for the longest one.
#[derive(Drop)]
struct Monitor {
    states: u16,
    table: [u8; 256],
    ghost some: { 1 ≤ states },
    ghost few: { states ≤ 8 },
    ghost entries: { Entries states table },
}

impl Monitor {
    // the monitor of one state
    fn one() -> Self
        ensures states { result.states ≡ 1 }
        ensures table { (k : ℕ) → slice_index result.table k ≡ 0 }
    {
        Monitor {
            states: 1,
            table: [0; 256],
        }
    }

    // the state after q, where a game of n states goes on to t
    fn next(&self, n: u16, q: u16, t: u16) -> u16
        requires { q * n + t < 256 }
        ensures { result ≡ next self.now.table n q t }
    {
        u16::from(self.table[usize::from(q * n + t)])
    }
}

// The place of the first entry that is not below m. A loop with an index, a form that this project keeps here, though
// `position` would say the same (docs/DECISIONS.md).
fn first_wrong(m: u16, table: &[u8]) -> Option<usize>
    ensures { MatchOption result (Entries m table.now) (FirstWrong m table.now) }
{
    for (i, entry) in table.iter().enumerate() {
        if u16::from(*entry) >= m {
            return Some(i);
        }
    }
    None
}

// Whether a table makes a monitor of m states for a game of n states.
fn judge(n: u16, m: u16, table: &[u8]) -> Result<(), Refusal>
    requires { n ≤ 256 }
    ensures { MatchResult result (λ _. Accepted n m table.now) (λ e. NotMade n m table.now (told e)) }
{
    if m == 0 || m > MOST_MONITOR_STATES {
        return Err(Refusal::MonitorStates);
    }
    if n * m > MOST_STATES {
        return Err(Refusal::TooManyStates);
    }
    if table.len() != usize::from(m * n) {
        return Err(Refusal::MonitorTable(table.len()));
    }
    match first_wrong(m, table) {
        Some(place) => Err(Refusal::MonitorTable(place)),
        None => Ok(()),
    }
}

// The table, filled up with 0.
fn copied(table: &[u8]) -> [u8; 256]
    requires { length table.now ≤ 256 }
    ensures { (k : ℕ) → slice_index result k ≡ slice_index table.now k }
{
    let mut copy = [0; 256];
    copy[..table.len()].copy_from_slice(table);
    copy
}

// A source and a monitor. Its states are s * m + q, of a state s of the source and a state q of the monitor.
#[derive(Drop)]
pub struct Monitored<S: Source> {
    base: S,
    monitor: Monitor,
    ghost fits: { (S.Source.game base).size * monitor.states ≤ 256 },
}

impl<S: Source> Monitored<S> {
    // the source's own game
    pub fn new(base: S) -> Self
        ensures base { result.base ≡ base }
        ensures states { result.monitor.states ≡ 1 }
        ensures game { Same (product (S.Source.game result.base) result.monitor.states result.monitor.table) (S.Source.game base) }
    {
        Monitored {
            base,
            monitor: Monitor::one(),
        }
    }

    // Puts a monitor of m states in place of the one there. Refused, it leaves all as it was.
    pub fn make(&mut self, m: u16, table: &[u8]) -> Result<(), Refusal>
        ensures judged { MatchResult result (λ _. Accepted (S.Source.game self.old.base).size m table.now) (λ e. NotMade (S.Source.game self.old.base).size m table.now (told e)) }
        ensures kept { MatchResult result (λ _. (self.new.base ≡ self.old.base) × (self.new.monitor.states ≡ m)) (λ _. self.new ≡ self.old) }
        ensures game { OnOk result (Same (product (S.Source.game self.new.base) self.new.monitor.states self.new.monitor.table) (product (S.Source.game self.old.base) m table.now)) }
    {
        judge(self.base.states(), m, table)?;
        self.monitor = Monitor {
            states: m,
            table: copied(table),
        };
        Ok(())
    }

    // the state of the monitored game at which a play from a state of the source starts
    pub fn start(&self, state: u16) -> Result<u16, Refusal>
        ensures { MatchResult result (λ x. (state < (S.Source.game self.now.base).size) × (x ≡ state * self.now.monitor.states)) (λ e. ((S.Source.game self.now.base).size ≤ state) × (told e ≡ with_value 1 state)) }
    {
        if state < self.base.states() {
            Ok(state * self.monitor.states)
        } else {
            Err(Refusal::NoState(state))
        }
    }
}

impl<S: Source> Source for Monitored<S> {
    ghost game = { λ x. product (S.Source.game x.base) x.monitor.states x.monitor.table };

    ghost valid = { λ x. product_valid x.monitor.states x.monitor.table x.monitor.some x.monitor.entries (S.Source.game x.base) (S.Source.valid x.base) x.fits };

    fn states(&self) -> u16 {
        self.base.states() * self.monitor.states
    }

    fn moves(&self, player: Player, state: u16) -> u8 {
        self.base.moves(player, state / self.monitor.states)
    }

    fn support_size(&self, state: u16, a: u8, b: u8) -> u16 {
        self.base.support_size(state / self.monitor.states, a, b)
    }

    fn member(&self, state: u16, a: u8, b: u8, k: u16) -> u16 {
        let m = self.monitor.states;
        if k < self.base.support_size(state / m, a, b) {
            let t = self.base.member(state / m, a, b, k);
            t * m + self.monitor.next(self.base.states(), state % m, t)
        } else {
            0
        }
    }
}
