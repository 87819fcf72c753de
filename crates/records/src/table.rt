// A table: the lent record, and the places of its rows and supports.
ghost use Rattle.std.specs.Prelude.{map};
ghost use Rattle.layout.specs.Placed.{Ready};

use crate::bits::support_number;
use crate::places::Places;
use crate::record::read_record;
use crate::set::WholeSet;
use game::player::Player;
use game::refusal::Refusal;
use game::source::Source;

// The record of the game with one state and move 0 for both players.
const ONE_STATE: [u8; 8] = [0, 1, 1, 1, 0, 0, 0, 1];

#[derive(Clone, Copy)]
pub struct Table<'a> {
    pub(crate) bytes: &'a [u8],
    places: Places,
    ghost ready: { ∥ Ready bytes.now (map (λ r. r.place) places.rows) (map (λ r. r.first) places.rows) places.supports ∥₁ },
}

impl<'a> Table<'a> {
    ghost use Rattle.std.specs.Prelude.{◌≡◌, ◌+◌, ◌≤◌, [], length, MatchOption, MatchResult, slice_index};
    ghost use Rattle.game.specs.Games.{Same};
    ghost use Rattle.game.specs.Refusals.{told};
    ghost use Rattle.game.specs.declared.player.Player.TheVariants.{One, Two};
    ghost use Rattle.layout.specs.Reading.{moves_at, support_at, shown};
    ghost use Rattle.layout.specs.Opening.{Opened, NotOpened, one_state};
    ghost use Rattle.records.specs.WholeSet.{members};

    // A table that is not opened yet shows the game with one state and move 0 for both players.
    pub fn new() -> Table<'a>
        ensures { Same one_state (shown result.bytes.now) }
    {
        let mut places = Places::new();
        match read_record(&ONE_STATE, &mut places) {
            Ok(()) => Table {
                bytes: &ONE_STATE,
                places,
            },
            Err(_) => unreachable!(),
        }
    }

    // Opens the table on the bytes. Where they are no record of a game, or too long, the table is as before.
    // (The places are noted here: in a function that gives a whole table back they would be cleared and copied once more.)
    pub fn open(&mut self, bytes: &'a [u8]) -> Result<(), Refusal>
        ensures { MatchResult result (λ _. Opened bytes.now (shown self.new.bytes.now)) (λ e. NotOpened bytes.now (told e) × (self.new ≡ self.old)) }
    {
        let mut places = Places::new();
        read_record(bytes, &mut places)?;
        *self = Table { bytes, places };
        Ok(())
    }

    // The place of the row of a state, if the game has the state.
    fn find_row(&self, state: u16) -> Option<usize>
        ensures { MatchOption result ((p : Player) → moves_at self.now.bytes.now p state ≡ 0) (λ place. (place + 2 ≤ length self.now.bytes.now) × (slice_index self.now.bytes.now place ≡ moves_at self.now.bytes.now One state) × (slice_index self.now.bytes.now (place + 1) ≡ moves_at self.now.bytes.now Two state)) }
    {
        if state >= self.states() {
            return None;
        }
        Some(usize::from(self.places.rows[usize::from(state)].place))
    }

    // The support of two moves, if the players have them.
    fn find_support(&self, state: u16, a: u8, b: u8) -> Option<WholeSet<'a>>
        ensures { MatchOption result (support_at self.now.bytes.now state a b ≡ []) (λ set. support_at self.now.bytes.now state a b ≡ members set) }
    {
        let first = self.moves(Player::One, state);
        let second = self.moves(Player::Two, state);
        let number = support_number(first, second, a, b)?;
        let row = self.places.rows[usize::from(state)];
        let place = self.places.supports[usize::from(row.first + number)];
        Some(WholeSet::new(self.bytes, usize::from(place)))
    }
}

// The game of a table is the one that its record shows.
impl<'a> Source for Table<'a> {
    ghost use Rattle.layout.specs.Reading.{shown};
    ghost use Rattle.layout.proofs.Opens.{ready_game};

    ghost game = { λ t. shown t.bytes.now };

    ghost valid = { λ t. ready_game _ _ _ _ t.ready };

    fn states(&self) -> u16 {
        u16::from(self.bytes[0]) + 1
    }

    fn moves(&self, player: Player, state: u16) -> u8 {
        match self.find_row(state) {
            None => 0,
            Some(place) => match player {
                Player::One => self.bytes[place],
                Player::Two => self.bytes[place + 1],
            },
        }
    }

    fn support_size(&self, state: u16, a: u8, b: u8) -> u16 {
        self.find_support(state, a, b).map_or(0, |set| set.size())
    }

    fn member(&self, state: u16, a: u8, b: u8, k: u16) -> u16 {
        self.find_support(state, a, b)
            .map_or(0, |set| set.member(k))
    }
}
