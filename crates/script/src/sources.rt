// Shapes as a script gives them: `shape HEX`, `swapped HEX` and `table CODE COORD...`.
ghost use Rattle.std.specs.Prelude.{◌≡◌, IfOk, MatchResult};
ghost use Rattle.shapes.specs.Pending.{shape_of};
ghost use Rattle.shapes.specs.Wkb.{decode, read, refused};
ghost use Rattle.script.specs.Meanings.{Shows, meant};
ghost use Rattle.script.specs.Sources.{means};

use crate::answer::{Answer, Shape};
use crate::form::Form;
use crate::line::Words;
use crate::refusal::{NotGranted, Refusal};
use crate::source::Source;
use crate::wrong::Wrong;
use interval::Fault;
use shapes::{Coord, Cursor, ShapeSource, Swapped, Table};
use std::alloc::{AllocError, Global};

// What a source is made of.
#[derive(Drop)]
pub enum Given {
    Bytes(Vec<u8>),
    Swapped(Vec<u8>),
    Table(u32, Vec<Coord>),
}

impl Given {
    // What the line gives in that form.
    pub fn read<'a>(form: Form, words: &mut Words<'a>) -> Result<Given, Wrong<'a>> {
        let given = match form {
            Form::Shape => Given::Bytes(words.bytes()?),
            Form::Swapped => Given::Swapped(words.bytes()?),
            Form::Table => {
                let code = words.code()?;
                Given::Table(code, words.coordinates()?)
            }
        };
        words.end()?;
        Ok(given)
    }

    // A source of the shape that is given, or the refusal.
    pub fn source(&self) -> Result<Source<'_>, Fault>
        ensures { MatchResult result (λ s. meant self.now ≡ read (means s).code (means s).coords) (λ f. meant self.now ≡ refused f) }
    {
        match self {
            Given::Bytes(bytes) => Ok(Source::Bytes(cursor(bytes.as_slice())?)),
            Given::Swapped(bytes) => {
                let inner = cursor(bytes.as_slice())?;
                Ok(Source::Swapped(Swapped { inner }))
            }
            Given::Table(code, coords) => Ok(Source::Table(Table::new(*code, coords.as_slice())?)),
        }
    }
}

// A cursor over bytes that hold one whole shape.
fn cursor(bytes: &[u8]) -> Result<Cursor<'_>, Fault>
    ensures { MatchResult result (λ c. decode bytes.now ≡ read c.code (shape_of c).coords) (λ f. decode bytes.now ≡ refused f) }
{
    Ok(Cursor::new(shapes::check(bytes)?))
}

pub fn obey<'a>(form: Form, words: &mut Words<'a>) -> Result<Answer, NotGranted<'a>> {
    let given = Given::read(form, words)?;
    Ok(Answer::Shape(shown(words.heap, &given)?))
}

// The shape that is given.
fn shown<'a>(heap: Global, given: &Given) -> Result<Shape, NotGranted<'a>>
    ensures { Shows (meant given.now) result }
{
    let mut source = given.source().map_err(Refusal::Asked)?;
    Ok(gather(heap, &mut source)?)
}

// All that a source gives.
fn gather<S: ShapeSource>(heap: Global, source: &mut S) -> Result<Shape, AllocError>
    ensures { IfOk result (λ s. (s.code ≡ (S.means source.old).code) × (s.coords.items ≡ (S.means source.old).coords)) }
{
    let code = source.code();
    let mut coords = Vec::new(heap);
    while let Some(coord) = source.next() {
        coords.push(coord)?;
    }
    Ok(Shape { code, coords })
}
