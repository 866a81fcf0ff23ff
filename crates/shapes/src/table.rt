// A source over a lent table of coordinates.
ghost use Rattle.std.specs.Prelude.{◌≡◌, length, Some, None, MatchResult};
ghost use Rattle.interval.specs.Faults.{at};
ghost use Rattle.interval.specs.declared.fault.Cause.TheVariants.{TableCode};
ghost use Rattle.shapes.specs.Codes.{code_of};
ghost use Rattle.shapes.specs.Source.{tabled};

use crate::code::Code;
use crate::coord::Coord;
use crate::source::ShapeSource;
use interval::{Cause, Fault};

// The coordinates of the table that are still to come. Whatever the table holds on an axis that the code's dimension lacks, NaN is given.
#[derive(Clone, Copy)]
pub struct Table<'a> {
    pub(crate) code: Code,
    pub(crate) rest: &'a [Coord],
}

impl<'a> Table<'a> {
    // A source of all coordinates of the table, or a refusal of a code that is not one of the 28.
    pub fn new(code: u32, coords: &'a [Coord]) -> Result<Table<'a>, Fault>
        ensures { MatchResult result (λ t. (code_of code ≡ Some t.code) × (t.rest.now ≡ coords.now)) (λ f. (code_of code ≡ None) × (f ≡ at TableCode 0)) }
    {
        let code = Code::try_from(code).map_err(|_| Fault::new(Cause::TableCode, 0))?;
        Ok(Table { code, rest: coords })
    }
}

impl<'a> ShapeSource for Table<'a> {
    ghost means = { λ s. tabled s.code s.rest.now };

    ghost room = { λ s. length s.rest.now };

    #[tactic(auto, using(crate::proofs::Sources::lacking))]
    fn next(&mut self) -> Option<Coord> {
        let (first, rest) = self.rest.split_first()?;
        self.rest = rest;
        Some(first.on_axes(self.code.dim))
    }

    fn code(&self) -> Code {
        self.code
    }

    fn left(&self) -> usize {
        self.rest.len()
    }
}
