// The words of a line, taken one by one from its front.
use crate::form::Form;
use crate::pair::Pair;
use crate::wrong::{Wanted, Wrong};
use shapes::Coord;
use std::alloc::Global;
use std::str::SplitAsciiWhitespace;
use words::{Kind, read_bytes, read_number};

#[derive(Drop)]
pub struct Words<'a> {
    rest: SplitAsciiWhitespace<'a>,
    pub heap: Global,
}

fn number(word: &str) -> Result<f64, Wrong<'_>> {
    read_number(word).ok_or(Wrong::NoNumber(word))
}

// `x,y,z,m`, with a `+` in front where it joins the one before.
fn read_coordinate(word: &str) -> Option<Coord> {
    let (joins, rest) = match word.strip_prefix('+') {
        Some(rest) => (true, rest),
        None => (false, word),
    };
    let mut axes = rest.split(',');
    let x = read_number(axes.next()?)?;
    let y = read_number(axes.next()?)?;
    let z = read_number(axes.next()?)?;
    let m = read_number(axes.next()?)?;
    axes.next().is_none().then_some(Coord { x, y, z, m, joins })
}

impl<'a> Words<'a> {
    pub fn new(heap: Global, line: &'a str) -> Self {
        Words {
            rest: line.split_ascii_whitespace(),
            heap,
        }
    }

    // The next word, where there is one.
    pub fn next(&mut self) -> Option<&'a str> {
        self.rest.next()
    }

    pub fn word(&mut self, wanted: Wanted) -> Result<&'a str, Wrong<'a>> {
        self.next().ok_or(Wrong::Missing(wanted))
    }

    pub fn kind(&mut self) -> Result<Kind, Wrong<'a>> {
        let word = self.word(Wanted::Kind)?;
        word.parse().map_err(|_| Wrong::UnknownKind(word))
    }

    pub fn form(&mut self) -> Result<Form, Wrong<'a>> {
        let word = self.word(Wanted::Form)?;
        word.parse().map_err(|_| Wrong::UnknownForm(word))
    }

    pub fn number(&mut self) -> Result<f64, Wrong<'a>> {
        number(self.word(Wanted::Number)?)
    }

    pub fn pair(&mut self) -> Result<Pair, Wrong<'a>> {
        let lo = self.number()?;
        let hi = self.number()?;
        Ok(Pair { lo, hi })
    }

    // A pair, or none where the line ends.
    pub fn pair_or_end(&mut self) -> Result<Option<Pair>, Wrong<'a>> {
        let Some(word) = self.next() else {
            return Ok(None);
        };
        let lo = number(word)?;
        let hi = self.number()?;
        Ok(Some(Pair { lo, hi }))
    }

    pub fn bytes(&mut self) -> Result<Vec<u8>, Wrong<'a>> {
        let word = self.word(Wanted::Bytes)?;
        read_bytes(self.heap, word)?.ok_or(Wrong::NoBytes(word))
    }

    pub fn code(&mut self) -> Result<u32, Wrong<'a>> {
        let word = self.word(Wanted::Code)?;
        word.parse().map_err(|_| Wrong::NoCode(word))
    }

    // All words that are left, as coordinates.
    pub fn coordinates(&mut self) -> Result<Vec<Coord>, Wrong<'a>> {
        let mut coords = Vec::new(self.heap);
        for word in self.rest.by_ref() {
            coords.push(read_coordinate(word).ok_or(Wrong::NoCoordinate(word))?)?;
        }
        Ok(coords)
    }

    // Refuses a word behind the last that the command takes.
    pub fn end(&mut self) -> Result<(), Wrong<'a>> {
        match self.next() {
            None => Ok(()),
            Some(word) => Err(Wrong::Extra(word)),
        }
    }
}
