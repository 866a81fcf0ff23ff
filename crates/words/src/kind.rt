// The kinds of bounds by their words.
ghost use Rattle.words.specs.Names.{Named};
ghost use Rattle.words.specs.Kinds.{kind_word};

use crate::unknown::UnknownWord;
use std::str::FromStr;

#[derive(Clone, Copy, Debug, PartialEq, Eq)]
pub enum Kind {
    Ordinary,
    Wraparound,
}

impl FromStr for Kind {
    type Err = UnknownWord;

    ghost from_str_gives = { Named kind_word };

    fn from_str(word: &str) -> Result<Kind, UnknownWord> {
        match word {
            "ordinary" => Ok(Kind::Ordinary),
            "wraparound" => Ok(Kind::Wraparound),
            _ => Err(UnknownWord),
        }
    }
}
