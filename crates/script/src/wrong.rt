// Why a line is not answered: it is no command, which is the script's fault, or memory ran out.
use std::alloc::{AllocError, AllocFailed};
use std::fmt;

// What a command still needs where its line ends.
#[derive(Clone, Copy, Debug)]
pub enum Wanted {
    Kind,
    Function,
    Number,
    Form,
    Bytes,
    Code,
}

impl fmt::Display for Wanted {
    fn fmt<W: fmt::Write>(&self, f: &mut fmt::Formatter<W>) -> fmt::Result {
        match self {
            Wanted::Kind => f.write_str("kind of bounds"),
            Wanted::Function => f.write_str("function"),
            Wanted::Number => f.write_str("number"),
            Wanted::Form => f.write_str("form of a shape"),
            Wanted::Bytes => f.write_str("text of bytes"),
            Wanted::Code => f.write_str("code"),
        }
    }
}

// What is wrong with a line, and the word that shows it.
#[derive(Clone, Copy, Debug)]
pub enum Wrong<'a> {
    NotText,
    NoMemory,
    NoBounder,
    UnknownCommand(&'a str),
    UnknownKind(&'a str),
    UnknownFunction(&'a str),
    UnknownForm(&'a str),
    NoNumber(&'a str),
    NoBytes(&'a str),
    NoCode(&'a str),
    NoCoordinate(&'a str),
    Missing(Wanted),
    Extra(&'a str),
}

impl From<AllocError> for Wrong<'_> {
    fn from(_error: AllocError) -> Self {
        Wrong::NoMemory
    }
}

impl<T: Drop> From<AllocFailed<T>> for Wrong<'_> {
    fn from(_error: AllocFailed<T>) -> Self {
        Wrong::NoMemory
    }
}

impl fmt::Display for Wrong<'_> {
    fn fmt<W: fmt::Write>(&self, f: &mut fmt::Formatter<W>) -> fmt::Result {
        match *self {
            Wrong::NotText => f.write_str("the line is no text in UTF-8"),
            Wrong::NoMemory => f.write_str("no memory is left"),
            Wrong::NoBounder => f.write_str("no bounder was made before"),
            Wrong::UnknownCommand(word) => write!(f, "there is no command '{word}'"),
            Wrong::UnknownKind(word) => write!(f, "there is no kind of bounds '{word}'"),
            Wrong::UnknownFunction(word) => write!(f, "that kind has no function '{word}'"),
            Wrong::UnknownForm(word) => write!(f, "there is no form of a shape '{word}'"),
            Wrong::NoNumber(word) => write!(f, "'{word}' is no number"),
            Wrong::NoBytes(word) => write!(f, "'{word}' is no text of bytes"),
            Wrong::NoCode(word) => write!(f, "'{word}' is no code"),
            Wrong::NoCoordinate(word) => write!(f, "'{word}' is no coordinate"),
            Wrong::Missing(wanted) => write!(f, "a {wanted} is missing"),
            Wrong::Extra(word) => write!(f, "'{word}' is a word too many"),
        }
    }
}
