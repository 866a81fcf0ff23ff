// Licensed to the Apache Software Foundation (ASF) under one
// or more contributor license agreements.  See the NOTICE file
// distributed with this work for additional information
// regarding copyright ownership.  The ASF licenses this file
// to you under the Apache License, Version 2.0 (the
// "License"); you may not use this file except in compliance
// with the License.  You may obtain a copy of the License at
//
//   http://www.apache.org/licenses/LICENSE-2.0
//
// Unless required by applicable law or agreed to in writing,
// software distributed under the License is distributed on an
// "AS IS" BASIS, WITHOUT WARRANTIES OR CONDITIONS OF ANY
// KIND, either express or implied.  See the License for the
// specific language governing permissions and limitations
// under the License.

// Changed: ported to Rattle from src/bounding.rs of parquet-geospatial 60.0.0. What `GeometryBounder` keeps is a plain record of its own,
// and its set of codes is a word of bits.

use interval::{Interval, WraparoundInterval};

// A set of type codes, a bit for each of the 28: by a rule of this library a page's record is plain numbers.
#[derive(Clone, Copy, PartialEq, Eq, Debug)]
pub struct CodeSet {
    pub bits: u32,
}

// What is kept of a list of shapes: x in three bounds, by the side of the hint's middle that a run lies on.
#[derive(Clone, Copy)]
pub struct PageRecord {
    pub x_left: Interval,
    pub x_mid: Interval,
    pub x_right: Interval,
    pub y: Interval,
    pub z: Interval,
    pub m: Interval,
    pub codes: CodeSet,
}

// What is told of a record. An axis without values is left out. x may wrap.
#[derive(Clone, Copy)]
pub struct Answer {
    pub x: Option<WraparoundInterval>,
    pub y: Option<Interval>,
    pub z: Option<Interval>,
    pub m: Option<Interval>,
    pub codes: CodeSet,
}
