// The hulls of a run.
ghost use Rattle.std.specs.Prelude.{◌≡◌};
ghost use Rattle.shapes.specs.Hulls as Of;
ghost use Rattle.shapes.specs.Hulls.{four};

use crate::coord::Coord;
use interval::{Interval, IntervalTrait};

// The hulls of one run on the four axes. The axes are four named fields and no one type, since elsewhere x has a type of its own.
#[derive(Clone, Copy)]
pub struct Hulls {
    pub x: Interval,
    pub y: Interval,
    pub z: Interval,
    pub m: Interval,
}

impl Hulls {
    // The hulls of a run that has no coordinate yet.
    pub fn empty() -> Hulls
        ensures { four result ≡ Of.none }
    {
        let none = Interval::empty();
        Hulls {
            x: none,
            y: none,
            z: none,
            m: none,
        }
    }

    // The hulls of the run with one coordinate more.
    pub fn with(&self, c: &Coord) -> Hulls
        ensures { four result ≡ Of.with (four self.now) c.now }
    {
        Hulls {
            x: self.x.merge_value(c.x),
            y: self.y.merge_value(c.y),
            z: self.z.merge_value(c.z),
            m: self.m.merge_value(c.m),
        }
    }
}
