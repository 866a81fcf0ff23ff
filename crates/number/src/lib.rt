// The order and the rounding of f64, proved once for the crates above.
#![tactic(auto)]

ghost use Rattle.std.specs.Prelude.{◌≡◌};
ghost use Rattle.number.specs.Laws.{Alike, Largest, Lowest, Ordered, Rounded, Smallest};
ghost use Rattle.number.specs.Values as Values;

// Equal as numbers, so that both zeros are one, or both NaN. It has a name, since `==` of floats says no of two NaN.
pub fn same(x: f64, y: f64) -> bool
    ensures { result ≡ Values.same x y }
{
    (x == y) | (x.is_nan() & y.is_nan())
}

// Carries what the crates above rely on, as its contract. It does nothing.
pub fn laws_hold()
    ensures ordered { Ordered }
    ensures alike { Alike }
    ensures smallest { Smallest }
    ensures largest { Largest }
    ensures rounded { Rounded }
    ensures lowest { Lowest }
{}
