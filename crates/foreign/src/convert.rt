// Between the plain structs and the library's own values.
ghost use Rattle.std.specs.Prelude.{◌≡◌};
ghost use Rattle.interval.specs.Pairs.{ends};
ghost use Rattle.bounding.specs.Walk.{answer, kept, optional};
ghost use Rattle.foreign.specs.Calls.{Takes};
ghost use Rattle.foreign.specs.Values as Values;

use crate::raw::{RawBounds, RawPair, RawRecord};
use crate::refusals::Misuse;
use bounding::{Answer, CodeSet, PageRecord};
use interval::{Interval, IntervalTrait};

// So many codes have a bit.
const CODES: u32 = 1 << 28;

// Ordinary bounds with these ends.
impl From<RawPair> for Interval {
    ghost from_gives = { λ p i. ends i ≡ Values.pair_of p };

    fn from(pair: RawPair) -> Interval {
        Interval::new(pair.lo, pair.hi)
    }
}

impl From<Interval> for RawPair {
    ghost from_gives = { λ i p. p ≡ Values.raw_pair (ends i) };

    fn from(bounds: Interval) -> RawPair {
        RawPair {
            lo: bounds.lo,
            hi: bounds.hi,
        }
    }
}

impl From<PageRecord> for RawRecord {
    ghost from_gives = { λ r p. p ≡ Values.raw_record (kept r) };

    fn from(page: PageRecord) -> RawRecord {
        RawRecord {
            x_left: page.x_left.into(),
            x_mid: page.x_mid.into(),
            x_right: page.x_right.into(),
            y: page.y.into(),
            z: page.z.into(),
            m: page.m.into(),
            codes: page.codes.bits,
        }
    }
}

// What is told of an axis, or the empty pair.
fn shown(told: Option<Interval>) -> RawPair
    ensures { result ≡ Values.shown (optional told) }
{
    told.unwrap_or(Interval::empty()).into()
}

impl From<Answer> for RawBounds {
    ghost from_gives = { λ a r. r ≡ Values.raw_bounds (answer a) };

    fn from(told: Answer) -> RawBounds {
        let x = told.x.map(|bounds| bounds.inner);
        RawBounds {
            x: shown(x),
            y: shown(told.y),
            z: shown(told.z),
            m: shown(told.m),
            has_x: x.is_some(),
            has_y: told.y.is_some(),
            has_z: told.z.is_some(),
            has_m: told.m.is_some(),
            codes: told.codes.bits,
        }
    }
}

// Whether a bounder can keep these bounds: they go up, or are the empty pair.
fn usable_bounds(bounds: &Interval) -> bool
    ensures { result ≡ Values.usable_pair (ends bounds.now) }
{
    (bounds.lo <= bounds.hi) | bounds.same(&Interval::empty())
}

fn usable(page: &PageRecord) -> bool
    ensures { result ≡ Values.usable (kept page.now) }
{
    usable_bounds(&page.x_left)
        & usable_bounds(&page.x_mid)
        & usable_bounds(&page.x_right)
        & usable_bounds(&page.y)
        & usable_bounds(&page.z)
        & usable_bounds(&page.m)
        & (page.codes.bits < CODES)
}

// The record that was handed, if a bounder can keep it.
impl TryFrom<&RawRecord> for PageRecord {
    type Error = Misuse;

    ghost try_from_gives = { λ r p. Takes r.now p };

    fn try_from(raw: &RawRecord) -> Result<PageRecord, Misuse> {
        let held = PageRecord {
            x_left: raw.x_left.into(),
            x_mid: raw.x_mid.into(),
            x_right: raw.x_right.into(),
            y: raw.y.into(),
            z: raw.z.into(),
            m: raw.m.into(),
            codes: CodeSet { bits: raw.codes },
        };
        if usable(&held) {
            Ok(held)
        } else {
            Err(Misuse::Record)
        }
    }
}
