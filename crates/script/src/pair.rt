// Two ends as a script gives them or is told them, of no kind of bounds.
ghost use Rattle.std.specs.Prelude.{◌≡◌};
ghost use Rattle.interval.specs.Pairs as Pairs;
ghost use Rattle.interval.specs.Pairs.{ends, inner_ends};

use interval::{Interval, IntervalTrait, WraparoundInterval};
use std::fmt;

#[derive(Clone, Copy, Debug)]
pub struct Pair {
    pub lo: f64,
    pub hi: f64,
}

impl From<Interval> for Pair {
    ghost from_gives = { λ i p. Pairs.pair p.lo p.hi ≡ ends i };

    fn from(bounds: Interval) -> Self {
        Pair {
            lo: bounds.lo(),
            hi: bounds.hi(),
        }
    }
}

impl From<WraparoundInterval> for Pair {
    ghost from_gives = { λ w p. Pairs.pair p.lo p.hi ≡ inner_ends w };

    fn from(bounds: WraparoundInterval) -> Self {
        Pair::from(bounds.inner)
    }
}

impl fmt::Display for Pair {
    fn fmt<W: fmt::Write>(&self, f: &mut fmt::Formatter<W>) -> fmt::Result {
        let Pair { lo, hi } = self;
        write!(f, "{lo:?} {hi:?}")
    }
}
