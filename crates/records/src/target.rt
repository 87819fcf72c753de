// A set of states of a game, read from bytes of its own: a target.
ghost use Rattle.std.specs.Prelude.{◌≡◌, ◌%◌, MatchResult};
ghost use Rattle.game.specs.Below.{bit, elem};
ghost use Rattle.game.specs.Refusals.{told};
ghost use Rattle.layout.specs.Targets.{TargetRead, NotTarget, states_of};

use crate::record::{check_end, check_length};
use crate::set_reader::SetReader;
use game::bits::has_bit;
use game::refusal::Refusal;

// A byte for each group of eight states: bit i of byte g stands for state 8 g + i.
#[derive(Clone, Copy)]
pub struct StateSet {
    groups: [u8; 32],
}

impl StateSet {
    // Reads the bytes of a set of states of a game with so many states. The set may be empty.
    pub fn read(bytes: &[u8], states: u16) -> Result<StateSet, Refusal>
        ensures { MatchResult result (λ t. TargetRead states bytes.now (states_of t.groups)) (λ e. NotTarget states bytes.now (told e)) }
    {
        check_length(bytes)?;
        let reader = SetReader {
            bytes,
            states,
            state: None,
        };
        let set = reader.read_set(0)?;
        check_end(bytes, set.end())?;
        let groups = set.groups();
        Ok(StateSet { groups })
    }

    // Whether the set has the state.
    pub fn contains(&self, state: u16) -> bool
        ensures { result ≡ elem state (states_of self.now.groups) }
    {
        // a number below 8 fits
        self.groups
            .get(usize::from(state / 8))
            .is_some_and(|byte| has_bit(*byte, (state % 8) as u8))
    }
}
