// Licensed to the Apache Software Foundation (ASF) under one
// or more contributor license agreements.  See the NOTICE file
// distributed with this work for additional information
// regarding copyright ownership.  The ASF licenses this file
// to you under the Apache License, Version 2.0 (the
// "License"); you may not use this file except in compliance
// with the License.  You may obtain a copy of the License at
//
//   http://www.apache.org/licenses/LICENSE-2.0
//
// Unless required by applicable law or agreed to in writing,
// software distributed under the License is distributed on an
// "AS IS" BASIS, WITHOUT WARRANTIES OR CONDITIONS OF ANY
// KIND, either express or implied.  See the License for the
// specific language governing permissions and limitations
// under the License.

// Changed: ported to Rattle from src/interval.rs of parquet-geospatial 60.0.0. `mid` differs where the width overflows; `take`, `same`
// and the contracts are added; `least` and `most` stand for `f64::min` and `f64::max`; one conversion takes pairs of any type that an f64 holds.
ghost use Rattle.std.specs.Prelude.{◌≡◌, true, false, cond, ◌||◌, IfOk, MatchResult, is_nan};
ghost use Rattle.std.specs.Float.{binary64, float_max, float_min};
ghost use Rattle.std.specs.Float.Ieee.{of_int};
ghost use Rattle.interval.specs.Faults.{at};
ghost use Rattle.interval.specs.declared.fault.Cause.TheVariants.{NanEnd};
ghost use Rattle.interval.specs.Laws.{Adds, Contains, Everything, Expands, Meets, Merges, Nothing, Spans, Taken};
ghost use Rattle.interval.specs.Ordinary as Ordinary;
ghost use Rattle.interval.specs.Pairs as Pairs;
ghost use Rattle.interval.specs.Pairs.{between, ends, everything, nothing, pair};

use crate::fault::{Cause, Fault};
use crate::interval_trait::IntervalTrait;
use crate::kinds::Interval;

// The lesser of two, or the one that is no NaN. Of equal ones, as 0 and -0, it is the first, where `f64::min` may answer either.
pub(crate) fn least(x: f64, y: f64) -> f64
    ensures { result ≡ float_min x y }
{
    if (x <= y) | y.is_nan() { x } else { y }
}

// The greater of two, or the one that is no NaN. Of equal ones it is the first.
pub(crate) fn most(x: f64, y: f64) -> f64
    ensures { result ≡ float_max x y }
{
    if (y <= x) | y.is_nan() { x } else { y }
}

impl Interval {
    // The pair of these ends, or the refusal of a NaN end.
    pub(crate) fn of_numbers(lo: f64, hi: f64) -> Result<Interval, Fault>
        ensures { MatchResult result (λ i. (is_nan lo ≡ false) × (is_nan hi ≡ false) × (ends i ≡ pair lo hi)) (λ f. ((is_nan lo || is_nan hi) ≡ true) × (f ≡ at NanEnd (cond (is_nan lo) 0 1))) }
    {
        if lo.is_nan() {
            return Err(Fault::new(Cause::NanEnd, 0));
        }
        if hi.is_nan() {
            return Err(Fault::new(Cause::NanEnd, 1));
        }
        Ok(Interval::new(lo, hi))
    }

    // Widens these bounds to hold the others too. A NaN end is ignored.
    pub fn update_interval(&mut self, other: &Self)
        ensures { ends self.new ≡ Ordinary.merged (ends self.old) (ends other.now) }
    {
        self.lo = least(self.lo, other.lo);
        self.hi = most(self.hi, other.hi);
    }

    // Widens these bounds to hold the value too. A NaN is ignored.
    pub fn update_value(&mut self, value: f64)
        ensures { ends self.new ≡ Ordinary.with_value (ends self.old) value }
    {
        self.lo = least(self.lo, value);
        self.hi = most(self.hi, value);
    }

    // Equal bounds: end by end as numbers, or both NaN. It has a name, since a derived `==` says no where an end is NaN.
    pub fn same(&self, other: &Self) -> bool
        ensures { result ≡ Pairs.same (ends self.now) (ends other.now) }
    {
        number::same(self.lo, other.lo) & number::same(self.hi, other.hi)
    }
}

// From two floats, or from two numbers of a type that a float holds, as i32.
impl<T: Into<f64>> From<(T, T)> for Interval {
    ghost from_gives = { λ p r. T.converts p.0 r.lo × T.converts p.1 r.hi };

    fn from(value: (T, T)) -> Self {
        let (lo, hi) = value;
        Interval {
            lo: lo.into(),
            hi: hi.into(),
        }
    }
}

impl IntervalTrait for Interval {
    const WRAPS: bool = false;

    ghost WRAPS = { false };

    ghost covers = { λ s. between (ends s) };

    fn new(lo: f64, hi: f64) -> Self
        ensures law { Spans lo hi (between (ends result)) }
        ensures exact { ends result ≡ pair lo hi }
    {
        Interval { lo, hi }
    }

    fn take(lo: f64, hi: f64) -> Result<Self, Fault>
        ensures law { Taken false (λ s. between (ends s)) (pair lo hi) result }
        ensures exact { IfOk result (λ s. ends s ≡ pair lo hi) }
    {
        let pair = Interval::of_numbers(lo, hi)?;
        if hi < lo {
            return Err(Fault::new(Cause::Downward, 0));
        }
        Ok(pair)
    }

    fn empty() -> Self
        ensures law { Nothing (between (ends result)) }
        ensures exact { ends result ≡ nothing }
    {
        Interval {
            lo: f64::INFINITY,
            hi: f64::NEG_INFINITY,
        }
    }

    fn full() -> Self
        ensures law { Everything (between (ends result)) }
        ensures exact { ends result ≡ everything }
    {
        Interval {
            lo: f64::NEG_INFINITY,
            hi: f64::INFINITY,
        }
    }

    fn lo(&self) -> f64
        ensures { result ≡ self.now.lo }
    {
        let Interval { lo, .. } = self;
        *lo
    }

    fn hi(&self) -> f64
        ensures { result ≡ self.now.hi }
    {
        let Interval { hi, .. } = self;
        *hi
    }

    fn is_wraparound(&self) -> bool
        ensures { result ≡ false }
    {
        Self::WRAPS
    }

    fn intersects_value(&self, value: f64) -> bool
        ensures { result ≡ between (ends self.now) value }
    {
        (value >= self.lo) & (value <= self.hi)
    }

    fn intersects_interval(&self, other: &Self) -> bool
        ensures law { Meets (between (ends self.now)) (between (ends other.now)) result }
        ensures exact { result ≡ Ordinary.meets (ends self.now) (ends other.now) }
    {
        (self.lo <= other.hi) & (other.lo <= self.hi)
    }

    fn contains_interval(&self, other: &Self) -> bool
        ensures law { Contains (between (ends self.now)) (between (ends other.now)) result }
        ensures exact { result ≡ Ordinary.contains (ends self.now) (ends other.now) }
    {
        (self.lo <= other.lo) & (other.hi <= self.hi)
    }

    fn width(&self) -> f64
        ensures { result ≡ Pairs.width (ends self.now) }
    {
        self.hi - self.lo
    }

    fn mid(&self) -> f64
        ensures { result ≡ Ordinary.middle (ends self.now) }
    {
        let width = self.width();
        if self.lo.is_finite() & self.hi.is_finite() & (width == f64::INFINITY) {
            self.lo / 2.0 + self.hi / 2.0
        } else {
            self.lo + width / 2.0
        }
    }

    fn is_empty(&self) -> bool
        ensures { result ≡ Pairs.empty (ends self.now) }
    {
        self.width() == f64::NEG_INFINITY
    }

    fn merge_interval(&self, other: &Self) -> Self
        ensures law { Merges (between (ends self.now)) (between (ends other.now)) (between (ends result)) }
        ensures exact { ends result ≡ Ordinary.merged (ends self.now) (ends other.now) }
    {
        let mut out = *self;
        out.update_interval(other);
        out
    }

    fn merge_value(&self, value: f64) -> Self
        ensures law { Adds (between (ends self.now)) value (between (ends result)) }
        ensures exact { ends result ≡ Ordinary.with_value (ends self.now) value }
    {
        let mut out = *self;
        out.update_value(value);
        out
    }

    fn expand_by(&self, distance: f64) -> Self
        ensures law { Expands (between (ends self.now)) distance (between (ends result)) }
        ensures exact { ends result ≡ Ordinary.expanded (ends self.now) distance }
    {
        if self.is_empty() | distance.is_nan() | (distance < 0.0) {
            return *self;
        }
        Interval {
            lo: self.lo - distance,
            hi: self.hi + distance,
        }
    }
}
