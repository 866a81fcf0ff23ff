// Licensed to the Apache Software Foundation (ASF) under one
// or more contributor license agreements.  See the NOTICE file
// distributed with this work for additional information
// regarding copyright ownership.  The ASF licenses this file
// to you under the Apache License, Version 2.0 (the
// "License"); you may not use this file except in compliance
// with the License.  You may obtain a copy of the License at
//
//   http://www.apache.org/licenses/LICENSE-2.0
//
// Unless required by applicable law or agreed to in writing,
// software distributed under the License is distributed on an
// "AS IS" BASIS, WITHOUT WARRANTIES OR CONDITIONS OF ANY
// KIND, either express or implied.  See the License for the
// specific language governing permissions and limitations
// under the License.

// Changed: ported to Rattle from src/bounding.rs of parquet-geospatial 60.0.0. What `GeometryBounder` keeps is a plain record, merged
// with another bound by bound. Where just one half of the map has values, x is the ordinary pair.
ghost use Rattle.std.specs.Prelude.{◌≡◌, if◌then◌else◌, Some, None};
ghost use Rattle.interval.specs.Ordinary.{merged};
ghost use Rattle.interval.specs.Pairs.{empty, ends, inner_ends};
ghost use Rattle.bounding.specs.Laws.{Tells, Together};
ghost use Rattle.bounding.specs.Record as Record;
ghost use Rattle.bounding.specs.Told as Told;
ghost use Rattle.bounding.specs.Walk as Walk;
ghost use Rattle.bounding.specs.Walk.{kept};
ghost use Rattle.shapes.specs.Hulls.{four};

use crate::records::{Answer, CodeSet, PageRecord};
use interval::{Interval, IntervalTrait, WraparoundInterval};
use shapes::Hulls;

fn merge_if(test: bool, bounds: &Interval, hull: &Interval) -> Interval
    ensures { ends result ≡ (if test then merged (ends bounds.now) (ends hull.now) else ends bounds.now) }
{
    if test {
        bounds.merge_interval(hull)
    } else {
        *bounds
    }
}

// What is told of an axis, unless its bounds have no values.
fn shown<T: Copy>(bounds: &Interval, told: T) -> Option<T>
    ensures { result ≡ (if empty (ends bounds.now) then None else Some told) }
{
    (!bounds.is_empty()).then_some(told)
}

impl PageRecord {
    // The record of no shapes.
    pub fn empty() -> PageRecord
        ensures { kept result ≡ Walk.empty_record }
    {
        let none = Interval::empty();
        PageRecord {
            x_left: none,
            x_mid: none,
            x_right: none,
            y: none,
            z: none,
            m: none,
            codes: CodeSet::empty(),
        }
    }

    // The record once a run with these hulls is over, under a hint that is divided at `divide`.
    pub(crate) fn settled(&self, divide: f64, hulls: &Hulls) -> PageRecord
        ensures { kept result ≡ Walk.settle divide (kept self.now) (four hulls.now) }
    {
        let below = hulls.x.hi < divide;
        let above = divide < hulls.x.lo;
        PageRecord {
            x_left: merge_if(below, &self.x_left, &hulls.x),
            x_mid: merge_if(!below & !above, &self.x_mid, &hulls.x),
            x_right: merge_if(!below & above, &self.x_right, &hulls.x),
            y: self.y.merge_interval(&hulls.y),
            z: self.z.merge_interval(&hulls.z),
            m: self.m.merge_interval(&hulls.m),
            codes: self.codes,
        }
    }

    // Both records, merged bound by bound.
    pub fn merge(&self, other: &PageRecord) -> PageRecord
        ensures exact { kept result ≡ Record.merge (kept self.now) (kept other.now) }
        ensures law { Together (kept self.now) (kept other.now) (kept result) }
    {
        PageRecord {
            x_left: self.x_left.merge_interval(&other.x_left),
            x_mid: self.x_mid.merge_interval(&other.x_mid),
            x_right: self.x_right.merge_interval(&other.x_right),
            y: self.y.merge_interval(&other.y),
            z: self.z.merge_interval(&other.z),
            m: self.m.merge_interval(&other.m),
            codes: self.codes.union(other.codes),
        }
    }

    // All of x, in one ordinary pair.
    fn all(&self) -> Interval
        ensures { ends result ≡ Told.all (kept self.now) }
    {
        self.x_left
            .merge_interval(&self.x_mid)
            .merge_interval(&self.x_right)
    }

    // Whether x is told as one ordinary pair.
    fn ordinary(&self, hint: &Interval) -> bool
        ensures { result ≡ Told.ordinary (ends hint.now) (kept self.now) }
    {
        let all = self.all();
        let outer = (self.x_left.hi - hint.lo) + (hint.hi - self.x_right.lo);
        !self.x_mid.is_empty()
            | !hint.contains_interval(&all)
            | (self.x_left.is_empty() != self.x_right.is_empty())
            | (all.width() < outer)
    }

    // The pair that is told of x: lo above hi where it wraps.
    pub fn x(&self, hint: &Interval) -> WraparoundInterval
        ensures { inner_ends result ≡ Told.told_x (ends hint.now) (kept self.now) }
    {
        let inner = if self.ordinary(hint) {
            self.all()
        } else {
            Interval {
                lo: self.x_right.lo,
                hi: self.x_left.hi,
            }
        };
        WraparoundInterval { inner }
    }

    // What is told of the record under a hint.
    pub fn tell(&self, hint: &Interval) -> Answer
        ensures exact { Walk.answer result ≡ Told.told (ends hint.now) (kept self.now) }
        ensures law { Tells (ends hint.now) (kept self.now) (Walk.answer result) }
    {
        let all = self.all();
        let x = self.x(hint);
        Answer {
            x: shown(&all, x),
            y: shown(&self.y, self.y),
            z: shown(&self.z, self.z),
            m: shown(&self.m, self.m),
            codes: self.codes,
        }
    }
}
