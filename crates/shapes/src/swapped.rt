// A layer over any source that exchanges x and y.
ghost use Rattle.shapes.specs.Source.{exchanged};

use crate::code::Code;
use crate::coord::Coord;
use crate::source::ShapeSource;

// The same list as the source below, with x and y of each coordinate exchanged.
#[derive(Drop)]
pub struct Swapped<S> {
    pub inner: S,
}

impl<S: ShapeSource> ShapeSource for Swapped<S> {
    ghost means = { λ s. exchanged (S.means s.inner) };

    ghost room = { λ s. S.room s.inner };

    #[inline(always)]
    #[tactic(auto, using(crate::proofs::Sources::lacking))]
    fn next(&mut self) -> Option<Coord> {
        self.inner.next().map(Coord::exchanged)
    }

    fn code(&self) -> Code {
        self.inner.code()
    }

    fn left(&self) -> usize {
        self.inner.left()
    }
}
