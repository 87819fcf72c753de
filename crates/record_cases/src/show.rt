// How the outcome of a call is printed.
use game::refusal::Refusal;
use std::fmt;

// What came of a call that answers nothing else.
#[derive(Clone, Copy)]
pub struct Outcome(pub Result<(), Refusal>);

impl fmt::Display for Outcome {
    fn fmt<W: fmt::Write>(&self, f: &mut fmt::Formatter<W>) -> fmt::Result {
        match self.0 {
            Ok(()) => write!(f, "ok"),
            Err(refusal) => write!(f, "{refusal}"),
        }
    }
}
