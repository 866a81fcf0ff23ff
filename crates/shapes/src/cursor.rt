// A source over checked bytes: a cursor with a fixed stack of pending counts.
ghost use Rattle.std.specs.Prelude.{◌≡◌, ◌+◌, ◌-◌, ◌*◌, ◌/◌, ◌<◌, ◌≤◌, true, [], length, MatchOption, slice_index};
ghost use Rattle.shapes.specs.Codes.{takes};
ghost use Rattle.shapes.specs.Pending.{still, shape_of, Opens};
ghost use Rattle.shapes.specs.Steps.{entered, Between, Stepped, Enters, Settles, Given, Gave, TookRun};

use crate::code::{Code, Dimension, Kind};
use crate::columns::hulls_of_points;
use crate::coord::Coord;
use crate::endian::Endian;
use crate::fields::{coordinate, count, header};
use crate::hulls::Hulls;
use crate::source::ShapeSource;
use crate::state::Cursor;
use crate::wkb::Checked;

// The places of the last two counts.
const RINGS: usize = 31;

const POINTS: usize = 32;

impl<'a> Cursor<'a> {
    // A cursor before the first coordinate of checked bytes.
    pub fn new(checked: Checked<'a>) -> Cursor<'a>
        ensures { Opens checked.entry.bytes.now result }
    {
        let bytes = checked.bytes;
        let mut s = Cursor {
            rest: bytes,
            code: Code {
                kind: Kind::Point,
                dim: Dimension::Xy,
            },
            inner: Kind::Collection,
            order: Endian::Big,
            joins: false,
            depth: 0,
            counts: [0; 33],
        };
        let Ok((order, code, after)) = header(bytes, None) else {
            return s;
        };
        s.code = code;
        s.enter(order, code.kind, after); // where a fault leaves the shape without a coordinate, none is to come
        s
    }

    // Begins the next ring; none where its count is cut.
    fn start_ring(&mut self) -> Option<()>
        requires rings { 0 < slice_index self.old.counts 31 }
        requires points { slice_index self.old.counts 32 ≡ 0 }
        ensures { Stepped result self.old self.new }
    {
        let (n, rest) = count(self.rest, self.order).ok()?;
        self.rest = rest;
        self.counts[RINGS] -= 1;
        self.counts[POINTS] = n;
        self.joins = false; // the first point of a ring joins nothing
        Some(())
    }

    // Begins a shape of this kind whose header was read; none, and nothing altered, where a fault leaves it without a coordinate.
    fn enter(&mut self, order: Endian, kind: Kind, after: &'a [u8]) -> Option<()>
        requires between { Between self.old }
        requires fitting { 0 < self.old.depth → takes self.old.inner kind ≡ true }
        ensures { MatchOption result ((entered self.old order kind after.now ≡ []) × (shape_of self.new ≡ shape_of self.old)) (λ _. Enters self.old self.new order kind after.now) }
    {
        let (n, rest) = match kind {
            Kind::Point => (1, after), // a point has no count
            _ => count(after, order).ok()?,
        };
        match kind {
            Kind::Point | Kind::Line => {
                self.rest = rest;
                self.order = order;
                self.joins = false;
                self.counts[POINTS] = n;
                Some(())
            }
            Kind::Polygon => {
                self.rest = rest;
                self.order = order;
                self.counts[RINGS] = n;
                Some(())
            }
            _ if n == 0 => {
                self.rest = rest;
                Some(())
            }
            _ if self.depth < RINGS => {
                self.rest = rest;
                self.counts[self.depth] = n;
                self.depth += 1;
                self.inner = kind;
                Some(())
            }
            _ => None, // too deep
        }
    }

    // Begins the next part of the innermost container; none where a fault leaves it without a coordinate.
    fn start_part(&mut self) -> Option<()>
        requires deep { 0 < self.old.depth }
        requires more { 0 < slice_index self.old.counts (self.old.depth - 1) }
        requires between { Between self.old }
        ensures { Stepped result self.old self.new }
    {
        let outer = Code {
            kind: self.inner,
            dim: self.code.dim,
        };
        let (order, code, after) = header(self.rest, Some(outer)).ok()?;
        self.counts[self.depth - 1] -= 1;
        self.enter(order, code.kind, after)
    }

    // Moves on from a line, a ring or a container that is at its end; none where nothing is to come.
    fn step(&mut self) -> Option<()>
        requires { slice_index self.old.counts 32 ≡ 0 }
        ensures { Stepped result self.old self.new }
    {
        if self.counts[RINGS] > 0 {
            return self.start_ring();
        }
        let innermost = self.depth.checked_sub(1)?;
        if self.counts[innermost] > 0 {
            return self.start_part();
        }
        self.depth = innermost;
        self.inner = Kind::Collection;
        Some(())
    }

    // Goes to the next coordinate; none where there is none.
    fn settle(&mut self) -> Option<()>
        ensures { MatchOption result (still self.old ≡ []) (λ _. Settles self.old self.new) }
    {
        while self.counts[POINTS] == 0 {
            self.step()?;
        }
        Some(())
    }

    // Takes the coordinate that a settled cursor stands at; none where it is cut.
    fn take_coord(&mut self) -> Option<Coord>
        requires { 0 < slice_index self.old.counts 32 }
        ensures { Gave result self.old self.new }
    {
        let rest = self.rest.get(8 * self.code.dim.width()..)?;
        let c = coordinate(self.rest, self.order, self.code.dim, self.joins);
        self.rest = rest;
        self.counts[POINTS] -= 1;
        self.joins = true;
        Some(c)
    }

    // The next coordinate, which is dropped; none, and nothing altered, where there is none. It is inlined in every walk, as `next` is: by a call for each coordinate, a walk that owns its cursor takes up to three times as many instructions along a line.
    #[inline(always)]
    fn next_coord(&mut self) -> Option<Coord>
        ensures { Gave result self.old self.new }
    {
        if self.counts[POINTS] > 0 {
            return self.take_coord();
        }
        self.first_coord()
    }

    // The same between two runs. The cursor itself moves on, and is as before again where there is no coordinate: to move on a copy, and to copy it back, takes a walk that owns its cursor about 40% more instructions over a multipoint.
    #[inline(always)]
    fn first_coord(&mut self) -> Option<Coord>
        ensures { Gave result self.old self.new }
    {
        let before = *self;
        let c = self.settled_coord();
        if c.is_none() {
            *self = before;
        }
        c
    }

    // The same, but where it gives none, the cursor may have moved on.
    #[inline(always)]
    fn settled_coord(&mut self) -> Option<Coord>
        ensures { MatchOption result (still self.old ≡ []) (λ c. Given self.old c self.new) }
    {
        self.settle()?;
        self.take_coord()
    }

    // Takes the points of the run that a settled cursor stands in, or as many of them as are there; none where there is none.
    fn take_run(&mut self) -> Option<Hulls>
        requires { 0 < slice_index self.old.counts 32 }
        ensures { TookRun result self.old self.new }
    {
        let size = 8 * self.code.dim.width();
        let n = points_there(self.rest.len(), size, self.counts[POINTS]);
        if n == 0 {
            return None;
        }
        let hulls = hulls_of_points(self.rest, n as usize, self.order, self.code.dim);
        self.rest = &self.rest[n as usize * size..];
        self.counts[POINTS] -= n;
        self.joins = true;
        Some(hulls)
    }

    // The hulls of the next whole run, which is dropped; none where nothing is to come.
    pub fn next_run(&mut self) -> Option<Hulls>
        ensures { TookRun result self.old self.new }
    {
        self.settle()?;
        self.take_run()
    }
}

// How many of n points of so many bytes each stand whole in the bytes.
fn points_there(len: usize, size: usize, n: u32) -> u32
    requires { (16 ≤ size) × (size ≤ 32) }
    ensures there { result * size ≤ len }
    ensures few { result ≤ n }
    ensures cut { result < n → len < result * size + size }
{
    // a product and no `min` with the quotient, since a division for each run takes 14% more time for single points
    if n as usize * size <= len {
        n
    } else {
        (len / size) as u32
    }
}

impl<'a> ShapeSource for Cursor<'a> {
    ghost means = { shape_of };

    ghost room = { λ s. length s.rest.now / 16 };

    #[inline(always)]
    fn next(&mut self) -> Option<Coord> {
        self.next_coord()
    }

    fn code(&self) -> Code {
        self.code
    }

    fn left(&self) -> usize {
        self.rest.len() / 16
    }
}
