// Windows, and the verdict on what is told.
ghost use Rattle.bounding.specs.Walk.{answer, optional};
ghost use Rattle.book.specs.Verdicts.{AskedIf, Opened, SharesIf, TakenIf, Upright, frame_of};
ghost use Rattle.book.specs.Windows.{TestedX, optional_set, set};
ghost use Rattle.book.specs.declared.states.Target.TheVariants.{Column};

use crate::frame::Window;
use crate::states::Verdict;
use bounding::Answer;
use interval::{Fault, Interval, IntervalTrait};

// A stored pair of ends.
pub type Ends = (f64, f64);

// Bounds from a stored pair, where there is one.
fn taken(ends: Option<Ends>) -> Result<Option<Interval>, Fault>
    ensures { TakenIf ends result }
{
    ends.map(|(lo, hi)| Interval::take(lo, hi)).transpose()
}

impl<K: IntervalTrait + Drop> Window<K> {
    // A window from stored pairs, or the first refusal of one, in the order x, y, z, m.
    pub fn new(x: Ends, y: Ends, z: Option<Ends>, m: Option<Ends>) -> Result<Window<K>, Fault>
        ensures { Opened K.WRAPS K.covers x y z m result }
    {
        let along_x = K::take(x.0, x.1)?;
        let along_y = Interval::take(y.0, y.1)?;
        let along_z = taken(z)?;
        let along_m = taken(m)?;
        Ok(Window {
            x: along_x,
            y: along_y,
            z: along_z,
            m: along_m,
        })
    }
}

// Whether what is told of an axis shares a value with the window's bounds there.
fn shares(told: Option<Interval>, window: &Interval) -> bool
    ensures { SharesIf (optional told) (set window.now) result }
{
    told.is_some_and(|bounds| bounds.intersects_interval(window))
}

// The same where the axis is asked for.
fn shares_asked(told: Option<Interval>, window: Option<Interval>) -> bool
    ensures { AskedIf (optional told) (optional_set window) result }
{
    window.is_none_or(|bounds| shares(told, &bounds))
}

// The verdict on what is told of a page or the column, or the refusal of an x pair that the kind cannot take.
pub fn judge<K: IntervalTrait + Drop>(told: &Answer, window: &Window<K>) -> Result<Verdict, Fault>
    ensures { Upright (answer told.now) → TestedX K.WRAPS (frame_of K.covers window.now) Column (answer told.now) (answer told.now).x result }
{
    let Some(x) = told.x else {
        return Ok(Verdict::Skip);
    };
    let bounds = K::take(x.inner.lo, x.inner.hi)?;
    let met = bounds.intersects_interval(&window.x)
        & shares(told.y, &window.y)
        & shares_asked(told.z, window.z)
        & shares_asked(told.m, window.m);
    Ok(if met { Verdict::Keep } else { Verdict::Skip })
}
