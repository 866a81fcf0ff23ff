// Licensed to the Apache Software Foundation (ASF) under one
// or more contributor license agreements.  See the NOTICE file
// distributed with this work for additional information
// regarding copyright ownership.  The ASF licenses this file
// to you under the Apache License, Version 2.0 (the
// "License"); you may not use this file except in compliance
// with the License.  You may obtain a copy of the License at
//
//   http://www.apache.org/licenses/LICENSE-2.0
//
// Unless required by applicable law or agreed to in writing,
// software distributed under the License is distributed on an
// "AS IS" BASIS, WITHOUT WARRANTIES OR CONDITIONS OF ANY
// KIND, either express or implied.  See the License for the
// specific language governing permissions and limitations
// under the License.

// Changed: ported to Rattle from src/interval.rs of parquet-geospatial 60.0.0. Added are `take`, the constant `WRAPS`, the
// ghost members and the contracts.
ghost use Rattle.std.specs.Prelude.{◌≡◌, Bool, Float};
ghost use Rattle.interval.specs.Laws.{Adds, Contains, Everything, Expands, Meets, Merges, Nothing, Spans, Taken};
ghost use Rattle.interval.specs.Pairs.{pair};

use crate::fault::Fault;

// A kind of bounds on one axis, known by the values that it covers. Every kind keeps the laws that the contracts state.
pub trait IntervalTrait: Sized {
    // Whether a pair with lo above hi can mean the two sides, the values from lo on and those up to hi.
    const WRAPS: bool;

    ghost WRAPS: { Bool };

    // The values that are covered, as a test.
    ghost covers: { Self → Float → Bool };

    // A kind is made of two numbers here and in `take`: no pair is bounds before.
    fn new(lo: f64, hi: f64) -> Self
        ensures { Spans lo hi (covers result) };

    // Bounds from a stored pair, or the refusal of a NaN end or of a downward pair that the kind cannot hold.
    fn take(lo: f64, hi: f64) -> Result<Self, Fault>
        ensures { Taken WRAPS covers (pair lo hi) result };

    fn empty() -> Self
        ensures { Nothing (covers result) };

    fn full() -> Self
        ensures { Everything (covers result) };

    fn lo(&self) -> f64;

    fn hi(&self) -> f64;

    fn is_wraparound(&self) -> bool;

    fn intersects_value(&self, value: f64) -> bool
        ensures { result ≡ covers self.now value };

    fn intersects_interval(&self, other: &Self) -> bool
        ensures { Meets (covers self.now) (covers other.now) result };

    fn contains_interval(&self, other: &Self) -> bool
        ensures { Contains (covers self.now) (covers other.now) result };

    fn width(&self) -> f64;

    fn mid(&self) -> f64;

    fn is_empty(&self) -> bool;

    fn merge_interval(&self, other: &Self) -> Self
        ensures { Merges (covers self.now) (covers other.now) (covers result) };

    fn merge_value(&self, value: f64) -> Self
        ensures { Adds (covers self.now) value (covers result) };

    // Moves both ends outward. A NaN or a negative distance moves nothing.
    fn expand_by(&self, distance: f64) -> Self
        ensures { Expands (covers self.now) distance (covers result) };
}
