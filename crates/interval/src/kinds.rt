// Licensed to the Apache Software Foundation (ASF) under one
// or more contributor license agreements.  See the NOTICE file
// distributed with this work for additional information
// regarding copyright ownership.  The ASF licenses this file
// to you under the Apache License, Version 2.0 (the
// "License"); you may not use this file except in compliance
// with the License.  You may obtain a copy of the License at
//
//   http://www.apache.org/licenses/LICENSE-2.0
//
// Unless required by applicable law or agreed to in writing,
// software distributed under the License is distributed on an
// "AS IS" BASIS, WITHOUT WARRANTIES OR CONDITIONS OF ANY
// KIND, either express or implied.  See the License for the
// specific language governing permissions and limitations
// under the License.

// Changed: ported to Rattle from src/interval.rs of parquet-geospatial 60.0.0. The ends are public, and a ghost field says
// that an f64 holds each; Debug output is left out, and the derived equality is the named one of ordinary.rt and wraparound.rt.
ghost use Rattle.std.specs.Prelude.{T};
ghost use Rattle.std.specs.Float.Ieee as Ieee;
ghost use Rattle.std.specs.Float.{binary64};

// Bounds that never wrap: the values from lo to hi.
#[derive(Clone, Copy)]
pub struct Interval {
    pub lo: f64,
    pub hi: f64,
    ghost held: { T (Ieee.fits binary64 lo) × T (Ieee.fits binary64 hi) },
}

// Bounds that may wrap: where lo is above hi, the values from lo on and those up to hi.
#[derive(Clone, Copy)]
pub struct WraparoundInterval {
    pub inner: Interval,
}
