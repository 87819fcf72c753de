// How a state may be winning.
ghost use Rattle.std.specs.Prelude.{Some};
ghost use Rattle.game.specs.Texts.{mode_text};

use std::fmt;

#[derive(Clone, Copy, PartialEq, Eq, Debug)]
pub enum Mode {
    Sure,
    Almost,
}

impl fmt::Display for Mode {
    ghost output = { λ mode. Some (mode_text mode) };

    fn fmt<W: fmt::Write>(&self, f: &mut fmt::Formatter<W>) -> fmt::Result {
        f.write_str(match self {
            Mode::Sure => "sure",
            Mode::Almost => "almost",
        })
    }
}
