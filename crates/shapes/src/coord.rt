// A coordinate of a shape.
ghost use Rattle.std.specs.Prelude.{◌≡◌};
ghost use Rattle.shapes.specs.Source.{exchange, on_axes};

use crate::code::Dimension;

// An axis that the shape's dimension lacks is NaN and no `Option`, by a rule of the project. `joins` says whether the coordinate joins the one before, as all but the first of a line or ring do.
#[derive(Clone, Copy)]
pub struct Coord {
    pub x: f64,
    pub y: f64,
    pub z: f64,
    pub m: f64,
    pub joins: bool,
}

impl Coord {
    // The same with x and y exchanged.
    pub(crate) fn exchanged(self) -> Coord
        ensures { result ≡ exchange self }
    {
        Coord {
            x: self.y,
            y: self.x,
            ..self
        }
    }

    // The same with NaN on the axes that the dimension lacks.
    #[tactic(auto, using(crate::proofs::Ordinates::nan_is))]
    pub(crate) fn on_axes(self, dim: Dimension) -> Coord
        ensures { result ≡ on_axes dim self }
    {
        let (z, m) = match dim {
            Dimension::Xy => (f64::NAN, f64::NAN),
            Dimension::Xyz => (self.z, f64::NAN),
            Dimension::Xym => (f64::NAN, self.m),
            Dimension::Xyzm => (self.z, self.m),
        };
        Coord { z, m, ..self }
    }
}
