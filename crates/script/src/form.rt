// The forms in which a script gives a shape, by their words.
ghost use Rattle.words.specs.Names.{Named};
ghost use Rattle.script.specs.Forms.{form_word};

use std::str::FromStr;
use words::UnknownWord;

#[derive(Clone, Copy, Debug, PartialEq, Eq)]
pub enum Form {
    Shape,
    Swapped,
    Table,
}

impl FromStr for Form {
    type Err = UnknownWord;

    ghost from_str_gives = { Named form_word };

    fn from_str(word: &str) -> Result<Form, UnknownWord> {
        match word {
            "shape" => Ok(Form::Shape),
            "swapped" => Ok(Form::Swapped),
            "table" => Ok(Form::Table),
            _ => Err(UnknownWord),
        }
    }
}
