// Licensed to the Apache Software Foundation (ASF) under one
// or more contributor license agreements.  See the NOTICE file
// distributed with this work for additional information
// regarding copyright ownership.  The ASF licenses this file
// to you under the Apache License, Version 2.0 (the
// "License"); you may not use this file except in compliance
// with the License.  You may obtain a copy of the License at
//
//   http://www.apache.org/licenses/LICENSE-2.0
//
// Unless required by applicable law or agreed to in writing,
// software distributed under the License is distributed on an
// "AS IS" BASIS, WITHOUT WARRANTIES OR CONDITIONS OF ANY
// KIND, either express or implied.  See the License for the
// specific language governing permissions and limitations
// under the License.

// Changed: ported to Rattle from src/bounding.rs of parquet-geospatial 60.0.0. A bounder that counts is a type of its own, so that a hint
// can only be set before the first shape. Shapes come from checked bytes, by whole runs, or from
// any source, in one walk that keeps four hulls.
ghost use Rattle.std.specs.Prelude.{◌≡◌, [], IfOk, MatchResult};
ghost use Rattle.interval.specs.Pairs.{ends, inner_ends, nothing};
ghost use Rattle.shapes.specs.Wkb.{decode, refused};
ghost use Rattle.bounding.specs.Laws.{HeldCoords, Tells};
ghost use Rattle.bounding.specs.Numbers.{numbers};
ghost use Rattle.bounding.specs.Record as Record;
ghost use Rattle.bounding.specs.Told as Told;
ghost use Rattle.bounding.specs.Walk as Walk;
ghost use Rattle.bounding.specs.Walk.{Adds, Counts, kept};

use crate::records::{Answer, PageRecord};
use interval::{Fault, Interval, IntervalTrait, WraparoundInterval};
use shapes::{Cursor, Hulls, ShapeSource};
use std::alloc::{AllocError, Global};

// A new bounder: no shape was added yet, and its hint can be set.
#[derive(Drop)]
pub struct GeometryBounder {
    pub(crate) hint: Interval,
}

// A bounder to which shapes are added. Its hint is settled: each call says that it stays, since that is no fact of one state.
#[derive(Drop)]
pub struct CountingBounder {
    pub(crate) kept: PageRecord,
    pub(crate) hint: Interval,
}

// Where the hint is divided: at its middle, or at +∞ where its width overflows.
fn divide(hint: &Interval) -> f64
    ensures { result ≡ Record.divide (ends hint.now) }
{
    if hint.lo.is_finite() & hint.hi.is_finite() & (hint.width() == f64::INFINITY) {
        f64::INFINITY
    } else {
        hint.mid()
    }
}

impl GeometryBounder {
    // A bounder without a hint: its hint is empty.
    pub fn empty() -> GeometryBounder
        ensures { ends result.hint ≡ nothing }
    {
        GeometryBounder {
            hint: Interval::empty(),
        }
    }

    pub fn with_wraparound_hint(self, hint: Interval) -> GeometryBounder
        ensures { result.hint ≡ hint }
    {
        GeometryBounder { hint }
    }

    // From here on shapes are added, and the hint stays.
    pub fn start(self) -> CountingBounder
        ensures hint { result.hint ≡ self.hint }
        ensures fresh { kept result.kept ≡ Record.record_of (ends self.hint) [] }
    {
        CountingBounder {
            kept: PageRecord::empty(),
            hint: self.hint,
        }
    }
}

impl CountingBounder {
    // Adds the shape of a source, which is read to its end.
    pub fn update_source<S: ShapeSource>(&mut self, source: &mut S)
        ensures adds { Adds (ends self.old.hint) (kept self.old.kept) (S.means source.old) (kept self.new.kept) }
        ensures hint { self.new.hint ≡ self.old.hint }
        ensures drained { (S.means source.new).coords ≡ [] }
        ensures held { HeldCoords (S.means source.old).coords }
    {
        let code = source.code();
        let middle = divide(&self.hint);
        let mut page = self.kept;
        let mut hulls = Hulls::empty();
        while let Some(c) = source.next() {
            if !c.joins {
                page = page.settled(middle, &hulls);
                hulls = Hulls::empty();
            }
            hulls = hulls.with(&c);
        }
        let last = page.settled(middle, &hulls);
        self.kept = PageRecord {
            codes: last.codes.with(code),
            ..last
        };
    }

    // Adds the shape that the bytes hold, or passes the byte fault on and leaves the bounder as it was.
    pub fn update_wkb(&mut self, bytes: &[u8]) -> Result<(), Fault>
        ensures adds { MatchResult result (λ _. Counts (ends self.old.hint) (kept self.old.kept) bytes.now (kept self.new.kept)) (λ f. (decode bytes.now ≡ refused f) × (self.new ≡ self.old)) }
        ensures hint { self.new.hint ≡ self.old.hint }
    {
        let checked = shapes::check(bytes)?;
        let mut cursor = Cursor::new(checked);
        let code = cursor.code();
        let middle = divide(&self.hint);
        let mut page = self.kept;
        while let Some(run) = cursor.next_run() {
            page = page.settled(middle, &run);
        }
        let counted = PageRecord {
            codes: page.codes.with(code),
            ..page
        };
        self.kept = counted;
        Ok(())
    }

    // Forgets the shapes and keeps the hint.
    pub fn restart(&mut self)
        ensures fresh { kept self.new.kept ≡ Record.record_of (ends self.old.hint) [] }
        ensures hint { self.new.hint ≡ self.old.hint }
    {
        self.kept = PageRecord::empty();
    }

    pub fn hint(&self) -> Interval
        ensures { result ≡ self.now.hint }
    {
        let CountingBounder { hint, .. } = self;
        *hint
    }

    // What is kept of the shapes so far.
    pub fn record(&self) -> PageRecord
        ensures { result ≡ self.now.kept }
    {
        let CountingBounder { kept, .. } = self;
        *kept
    }

    // The pair of x, which wraps where lo is above hi.
    pub fn x(&self) -> WraparoundInterval
        ensures { inner_ends result ≡ Told.told_x (ends self.now.hint) (kept self.now.kept) }
    {
        self.kept.x(&self.hint)
    }

    pub fn y(&self) -> Interval
        ensures { result ≡ self.now.kept.y }
    {
        self.kept.y
    }

    pub fn z(&self) -> Interval
        ensures { result ≡ self.now.kept.z }
    {
        self.kept.z
    }

    pub fn m(&self) -> Interval
        ensures { result ≡ self.now.kept.m }
    {
        self.kept.m
    }

    // The outermost codes of the shapes in rising order, each once.
    pub fn geometry_types(&self, heap: Global) -> Result<Vec<u32>, AllocError>
        ensures { IfOk result (λ v. v.items ≡ numbers self.now.kept.codes.bits) }
    {
        self.kept.codes.numbers(heap)
    }

    // What is told of the shapes so far, and what that says of them: it covers their runs, and does not depend on their order or copies.
    pub fn tell(&self) -> Answer
        ensures exact { Walk.answer result ≡ Told.told (ends self.now.hint) (kept self.now.kept) }
        ensures law { Tells (ends self.now.hint) (kept self.now.kept) (Walk.answer result) }
    {
        self.kept.tell(&self.hint)
    }
}
