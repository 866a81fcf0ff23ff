// Licensed to the Apache Software Foundation (ASF) under one
// or more contributor license agreements.  See the NOTICE file
// distributed with this work for additional information
// regarding copyright ownership.  The ASF licenses this file
// to you under the Apache License, Version 2.0 (the
// "License"); you may not use this file except in compliance
// with the License.  You may obtain a copy of the License at
//
//   http://www.apache.org/licenses/LICENSE-2.0
//
// Unless required by applicable law or agreed to in writing,
// software distributed under the License is distributed on an
// "AS IS" BASIS, WITHOUT WARRANTIES OR CONDITIONS OF ANY
// KIND, either express or implied.  See the License for the
// specific language governing permissions and limitations
// under the License.

// Changed: ported to Rattle from src/interval.rs of parquet-geospatial 60.0.0. `contains_interval` also answers yes on the upper side and
// for the full interval, and `merge_interval` widens the one side that is met; `take`, `same`, `to_ordinary` (which was `TryFrom`) and
// the contracts are added; `least` and `most` stand for `f64::min` and `f64::max`; one conversion takes pairs of any type that an f64 holds.
ghost use Rattle.std.specs.Prelude.{◌≡◌, true, IfOk};
ghost use Rattle.std.specs.Float.{binary64};
ghost use Rattle.std.specs.Float.Ieee.{of_int};
ghost use Rattle.interval.specs.Laws.{Adds, Contains, Everything, Expands, Meets, Merges, Nothing, Spans, Taken};
ghost use Rattle.interval.specs.Pairs as Pairs;
ghost use Rattle.interval.specs.Pairs.{covered, ends, everything, inner_ends, nothing, pair};
ghost use Rattle.interval.specs.Wraparound as Wraparound;

use crate::fault::{Cause, Fault};
use crate::interval_trait::IntervalTrait;
use crate::kinds::{Interval, WraparoundInterval};
use crate::ordinary::{least, most};

impl WraparoundInterval {
    // Equal bounds: end by end as numbers, or both NaN. It has a name, since a derived `==` says no where an end is NaN.
    pub fn same(&self, other: &Self) -> bool
        ensures { result ≡ Pairs.same (inner_ends self.now) (inner_ends other.now) }
    {
        self.inner.same(&other.inner)
    }

    // The same bounds as an `Interval`, or the refusal of a pair that wraps. A rule of this library gives it a name, as it may refuse.
    pub fn to_ordinary(&self) -> Result<Interval, Fault>
        ensures { result ≡ Wraparound.unwrapped self.now }
    {
        if self.is_wraparound() {
            return Err(Fault::new(Cause::Downward, 0));
        }
        Ok(self.inner)
    }

    // Two ordinary parts. The right one is empty where this does not wrap.
    fn split(&self) -> (Interval, Interval)
        ensures left { ends result.0 ≡ Wraparound.left (inner_ends self.now) }
        ensures right { ends result.1 ≡ Wraparound.right (inner_ends self.now) }
    {
        if self.is_wraparound() {
            (
                Interval {
                    lo: f64::NEG_INFINITY,
                    hi: self.inner.hi,
                },
                Interval {
                    lo: self.inner.lo,
                    hi: f64::INFINITY,
                },
            )
        } else {
            (self.inner, Interval::empty())
        }
    }
}

// The values from lo on and those up to hi, which is every value where the two sides meet.
fn closed(lo: f64, hi: f64) -> WraparoundInterval
    ensures { inner_ends result ≡ Wraparound.closed (pair lo hi) }
{
    if lo <= hi {
        WraparoundInterval::full()
    } else {
        WraparoundInterval::new(lo, hi)
    }
}

// Whether bounds that do not wrap widen the lower side of a pair that does: the one side that they meet, or else the nearer one.
fn widens_lower(wrapping: &Interval, other: &Interval) -> bool
    ensures { result ≡ Wraparound.widens_lower (ends wrapping.now) (ends other.now) }
{
    let some = other.lo <= other.hi;
    let lower = some & (other.lo <= wrapping.hi);
    let upper = some & (wrapping.lo <= other.hi);
    if lower != upper {
        return lower;
    }
    let mid = other.mid();
    (mid - wrapping.hi).abs() < (mid - wrapping.lo).abs()
}

// A pair that wraps, widened by bounds that do not.
fn widened(wrapping: &Interval, other: &Interval) -> WraparoundInterval
    ensures { inner_ends result ≡ Wraparound.widened (ends wrapping.now) (ends other.now) }
{
    if widens_lower(wrapping, other) {
        closed(wrapping.lo, most(wrapping.hi, other.hi))
    } else {
        closed(least(wrapping.lo, other.lo), wrapping.hi)
    }
}

impl<T: Into<f64>> From<(T, T)> for WraparoundInterval {
    ghost from_gives = { λ p r. T.converts p.0 r.inner.lo × T.converts p.1 r.inner.hi };

    fn from(value: (T, T)) -> Self {
        WraparoundInterval {
            inner: Interval::from(value),
        }
    }
}

impl From<Interval> for WraparoundInterval {
    ghost from_gives = { λ i r. inner_ends r ≡ ends i };

    fn from(value: Interval) -> Self {
        WraparoundInterval { inner: value }
    }
}

impl IntervalTrait for WraparoundInterval {
    const WRAPS: bool = true;

    ghost WRAPS = { true };

    ghost covers = { λ s. covered (inner_ends s) };

    fn new(lo: f64, hi: f64) -> Self
        ensures law { Spans lo hi (covered (inner_ends result)) }
        ensures exact { inner_ends result ≡ pair lo hi }
    {
        WraparoundInterval {
            inner: Interval { lo, hi },
        }
    }

    fn take(lo: f64, hi: f64) -> Result<Self, Fault>
        ensures law { Taken true (λ s. covered (inner_ends s)) (pair lo hi) result }
        ensures exact { IfOk result (λ s. inner_ends s ≡ pair lo hi) }
    {
        let inner = Interval::of_numbers(lo, hi)?;
        if (hi < lo) & inner.is_empty() {
            return Err(Fault::new(Cause::Downward, 0));
        }
        Ok(WraparoundInterval { inner })
    }

    fn empty() -> Self
        ensures law { Nothing (covered (inner_ends result)) }
        ensures exact { inner_ends result ≡ nothing }
    {
        WraparoundInterval {
            inner: Interval::empty(),
        }
    }

    fn full() -> Self
        ensures law { Everything (covered (inner_ends result)) }
        ensures exact { inner_ends result ≡ everything }
    {
        WraparoundInterval {
            inner: Interval::full(),
        }
    }

    fn lo(&self) -> f64
        ensures { result ≡ self.now.inner.lo }
    {
        self.inner.lo()
    }

    fn hi(&self) -> f64
        ensures { result ≡ self.now.inner.hi }
    {
        self.inner.hi()
    }

    fn is_wraparound(&self) -> bool
        ensures { result ≡ Pairs.wraps (inner_ends self.now) }
    {
        !self.is_empty() & (self.inner.width() < 0.0)
    }

    fn intersects_value(&self, value: f64) -> bool
        ensures { result ≡ covered (inner_ends self.now) value }
    {
        let (left, right) = self.split();
        left.intersects_value(value) | right.intersects_value(value)
    }

    fn intersects_interval(&self, other: &Self) -> bool
        ensures law { Meets (covered (inner_ends self.now)) (covered (inner_ends other.now)) result }
        ensures exact { result ≡ Wraparound.meets (inner_ends self.now) (inner_ends other.now) }
    {
        let (left, right) = self.split();
        let (other_left, other_right) = other.split();
        left.intersects_interval(&other_left)
            | left.intersects_interval(&other_right)
            | right.intersects_interval(&other_left)
            | right.intersects_interval(&other_right)
    }

    fn contains_interval(&self, other: &Self) -> bool
        ensures law { Contains (covered (inner_ends self.now)) (covered (inner_ends other.now)) result }
        ensures exact { result ≡ Wraparound.contains (inner_ends self.now) (inner_ends other.now) }
    {
        let a = self.inner;
        let b = other.inner;
        match (self.is_wraparound(), other.is_wraparound()) {
            (true, true) => a.contains_interval(&b),
            (true, false) => ((f64::NEG_INFINITY <= b.lo) & (b.hi <= a.hi))
                | ((b.lo <= b.hi) & (a.lo <= b.lo)),
            (false, true) => (a.lo == f64::NEG_INFINITY) & (a.hi == f64::INFINITY),
            (false, false) => a.contains_interval(&b),
        }
    }

    fn width(&self) -> f64
        ensures { result ≡ Wraparound.width (inner_ends self.now) }
    {
        if !self.is_wraparound() {
            return self.inner.width();
        }
        f64::INFINITY
    }

    fn mid(&self) -> f64
        ensures { result ≡ Wraparound.middle (inner_ends self.now) }
    {
        if !self.is_wraparound() {
            return self.inner.mid();
        }
        f64::INFINITY
    }

    fn is_empty(&self) -> bool
        ensures { result ≡ Pairs.empty (inner_ends self.now) }
    {
        self.inner.is_empty()
    }

    fn merge_interval(&self, other: &Self) -> Self
        ensures law { Merges (covered (inner_ends self.now)) (covered (inner_ends other.now)) (covered (inner_ends result)) }
        ensures exact { inner_ends result ≡ Wraparound.merged (inner_ends self.now) (inner_ends other.now) }
    {
        if self.is_empty() {
            return *other;
        }
        if other.is_empty() {
            return *self;
        }
        match (self.is_wraparound(), other.is_wraparound()) {
            (true, true) => closed(
                least(self.inner.lo, other.inner.lo),
                most(self.inner.hi, other.inner.hi),
            ),
            (true, false) => widened(&self.inner, &other.inner),
            (false, true) => widened(&other.inner, &self.inner),
            (false, false) => WraparoundInterval {
                inner: self.inner.merge_interval(&other.inner),
            },
        }
    }

    fn merge_value(&self, value: f64) -> Self
        ensures law { Adds (covered (inner_ends self.now)) value (covered (inner_ends result)) }
        ensures exact { inner_ends result ≡ Wraparound.with_value (inner_ends self.now) value }
    {
        if self.intersects_value(value) | value.is_nan() {
            return *self;
        }
        if !self.is_wraparound() {
            return WraparoundInterval {
                inner: self.inner.merge_value(value),
            };
        }
        if value - self.inner.hi < self.inner.lo - value {
            WraparoundInterval {
                inner: Interval {
                    lo: self.inner.lo,
                    hi: value,
                },
            }
        } else {
            WraparoundInterval {
                inner: Interval {
                    lo: value,
                    hi: self.inner.hi,
                },
            }
        }
    }

    fn expand_by(&self, distance: f64) -> Self
        ensures law { Expands (covered (inner_ends self.now)) distance (covered (inner_ends result)) }
        ensures exact { inner_ends result ≡ Wraparound.expanded (inner_ends self.now) distance }
    {
        if self.is_empty() | distance.is_nan() | (distance < 0.0) {
            return *self;
        }
        if !self.is_wraparound() {
            return WraparoundInterval {
                inner: self.inner.expand_by(distance),
            };
        }
        closed(self.inner.lo - distance, self.inner.hi + distance)
    }
}
