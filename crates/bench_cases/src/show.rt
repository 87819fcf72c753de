// How plays are printed.
use bench::play::Play;
use std::fmt;

// A play at rest. Three programs print a play, each in other words.
#[derive(Clone, Copy)]
pub struct AtRest<'a>(pub &'a Play);

impl<'a> fmt::Display for AtRest<'a> {
    fn fmt<W: fmt::Write>(&self, f: &mut fmt::Formatter<W>) -> fmt::Result {
        let state = self.0.state();
        let rounds = self.0.rounds();
        let met = if self.0.met() { "yes" } else { "no" };
        write!(f, "at {state}, rounds {rounds}, met {met}")
    }
}
