// The span of the values that were met on one axis.
ghost use Rattle.std.specs.Prelude.{not, T};
ghost use Rattle.std.specs.Float.Ieee as Ieee;

// The values from lo to hi. No end is a NaN, as an `Interval`'s may be, so that `<` alone decides which end a value moves.
#[derive(Clone, Copy)]
pub(crate) struct Span {
    pub(crate) lo: f64,
    pub(crate) hi: f64,
    ghost numbers: { T (not (Ieee.is_nan lo)) × T (not (Ieee.is_nan hi)) },
}
