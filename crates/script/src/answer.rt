// What a command that is granted is answered.
use crate::pair::Pair;
use shapes::{Code, Coord};
use std::fmt;

// A shape: the code and all coordinates that a source gave.
#[derive(Drop)]
pub struct Shape {
    pub code: Code,
    pub coords: Vec<Coord>,
}

// What a bounder tells. An axis without values is left out.
#[derive(Drop)]
pub struct Bounds {
    pub x: Option<Pair>,
    pub y: Option<Pair>,
    pub z: Option<Pair>,
    pub m: Option<Pair>,
    pub codes: Vec<u32>,
}

#[derive(Drop)]
pub enum Answer {
    Number(f64),
    Pair(Pair),
    Yes(bool),
    Shape(Shape),
    Counting,
    Counted,
    Bounds(Bounds),
}

impl fmt::Display for Shape {
    fn fmt<W: fmt::Write>(&self, f: &mut fmt::Formatter<W>) -> fmt::Result {
        let code = u32::from(self.code);
        write!(f, "code {code}")?;
        for coord in self.coords.iter() {
            let Coord { x, y, z, m, joins } = *coord;
            f.write_str(if joins { " +" } else { " " })?;
            write!(f, "{x:?},{y:?},{z:?},{m:?}")?;
        }
        Ok(())
    }
}

impl fmt::Display for Bounds {
    fn fmt<W: fmt::Write>(&self, f: &mut fmt::Formatter<W>) -> fmt::Result {
        for (name, axis) in [("x", self.x), ("y", self.y), ("z", self.z), ("m", self.m)] {
            if let Some(ends) = axis {
                write!(f, "{name} {ends} ")?;
            }
        }
        f.write_str("codes")?;
        if self.codes.is_empty() {
            f.write_str(" none")?;
        }
        for code in self.codes.iter() {
            write!(f, " {code}")?;
        }
        Ok(())
    }
}

impl fmt::Display for Answer {
    fn fmt<W: fmt::Write>(&self, f: &mut fmt::Formatter<W>) -> fmt::Result {
        match self {
            Answer::Number(value) => write!(f, "{value:?}"),
            Answer::Pair(ends) => write!(f, "{ends}"),
            Answer::Yes(true) => f.write_str("yes"),
            Answer::Yes(false) => f.write_str("no"),
            Answer::Shape(shape) => write!(f, "{shape}"),
            Answer::Counting => f.write_str("counting"),
            Answer::Counted => f.write_str("counted"),
            Answer::Bounds(bounds) => write!(f, "{bounds}"),
        }
    }
}
