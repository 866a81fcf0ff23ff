// A source over what a script gives: an enum, since a `dyn` that a function makes and hands out is refused by the gate.
ghost use Rattle.script.specs.Sources.{means, room};

use shapes::{Code, Coord, Cursor, ShapeSource, Swapped, Table};

#[derive(Drop)]
pub enum Source<'a> {
    Bytes(Cursor<'a>),
    Swapped(Swapped<Cursor<'a>>),
    Table(Table<'a>),
}

impl ShapeSource for Source<'_> {
    ghost means = { means };

    ghost room = { room };

    fn next(&mut self) -> Option<Coord> {
        match self {
            Source::Bytes(source) => source.next(),
            Source::Swapped(source) => source.next(),
            Source::Table(source) => source.next(),
        }
    }

    fn code(&self) -> Code {
        match self {
            Source::Bytes(source) => source.code(),
            Source::Swapped(source) => source.code(),
            Source::Table(source) => source.code(),
        }
    }

    fn left(&self) -> usize {
        match self {
            Source::Bytes(source) => source.left(),
            Source::Swapped(source) => source.left(),
            Source::Table(source) => source.left(),
        }
    }
}
