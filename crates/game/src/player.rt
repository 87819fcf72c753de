// The two players of a game.
ghost use Rattle.std.specs.Prelude.{Some};
ghost use Rattle.game.specs.Texts.{player_text};

use std::fmt;

#[derive(Clone, Copy, PartialEq, Eq, Debug)]
pub enum Player {
    One,
    Two,
}

impl fmt::Display for Player {
    ghost output = { λ player. Some (player_text player) };

    fn fmt<W: fmt::Write>(&self, f: &mut fmt::Formatter<W>) -> fmt::Result {
        f.write_str(match self {
            Player::One => "1",
            Player::Two => "2",
        })
    }
}
