// The hulls of n points straight from their bytes. An axis is a column of ordinates that stand `SIZE` bytes apart, and two columns that stand side by side are read together.
ghost use Rattle.std.specs.Prelude.{◌≡◌, ◌+◌, ◌*◌, ◌<◌, ◌≤◌, Bool, length, drop, map};
ghost use Rattle.std.specs.List.{fold};
ghost use Rattle.std.specs.Simd.{first_chunks};
ghost use Rattle.interval.specs.Pairs.{ends, nothing};
ghost use Rattle.shapes.specs.Codes.{width};
ghost use Rattle.shapes.specs.Columns.{column_of, spanned, with_bits, run};
ghost use Rattle.shapes.specs.Hulls.{four, none, with_all};
ghost use Rattle.shapes.specs.Numbers.{u64_at};

use crate::code::Dimension;
use crate::endian::Endian;
use crate::hulls::Hulls;
use crate::span::Span;
use interval::Interval;

// The bits of the ordinate that stands there in a point. Place and order stay two parameters: a struct of both would be taken apart here alone.
fn bits_at(point: &[u8], at: usize, order: Endian) -> u64
    requires { at + 8 ≤ length point.now }
    ensures { result ≡ u64_at order (drop at point.now) }
{
    order.read_u64(point[at..at + 8].try_into().unwrap())
}

// The bits of the ordinates that stand there in four points.
fn ordinates<const SIZE: usize>(four: &[[u8; SIZE]; 4], at: usize, order: Endian) -> [u64; 4]
    requires { at + 8 ≤ SIZE }
    ensures { result ≡ map (λ p. u64_at order (drop at p)) four.now }
{
    // `map` would need the contract of `bits_at` a second time, on its closure.
    let [p, q, r, s] = four;
    [
        bits_at(p, at, order),
        bits_at(q, at, order),
        bits_at(r, at, order),
        bits_at(s, at, order),
    ]
}

// Whether these are the bits of a NaN.
fn is_nan(bits: u64) -> bool {
    0x7ff0_0000_0000_0000 < bits % 0x8000_0000_0000_0000
}

impl Span {
    // The span of no values.
    fn empty() -> Span
        ensures { spanned result ≡ nothing }
    {
        Span {
            lo: f64::INFINITY,
            hi: f64::NEG_INFINITY,
        }
    }

    // The span with one value more; a NaN is none.
    fn with(self, bits: u64) -> Span
        ensures { spanned result ≡ with_bits (spanned self) bits }
    {
        let v = std::num::f64_from_bits_with_nan(bits);
        let lo = if v < self.lo { v } else { self.lo };
        let hi = if self.hi < v { v } else { self.hi };
        Span { lo, hi }
    }

    // The span with four values more.
    fn with_all(mut self, values: [u64; 4]) -> Span
        ensures { spanned result ≡ fold with_bits (spanned self) values }
    {
        for bits in values {
            self = self.with(bits);
        }
        self
    }
}

impl From<Span> for Interval {
    ghost from_gives = { λ s i. ends i ≡ spanned s };

    fn from(span: Span) -> Interval {
        Interval {
            lo: span.lo,
            hi: span.hi,
        }
    }
}

// Two spans with four values more each. The last line has the text of the early return, but there the compiler knows that no value is a NaN, and tests none again as it is taken.
#[inline(always)]
fn block(a: Span, b: Span, x: [u64; 4], y: [u64; 4]) -> (Span, Span)
    ensures { (spanned result.0 ≡ fold with_bits (spanned a) x) × (spanned result.1 ≡ fold with_bits (spanned b) y) }
{
    // Point by point and by name: a test of all x and then of all y takes up to a tenth more time; over `x.iter().zip(&y)`, `any` takes 4% more and `fold` 13%.
    let [x0, x1, x2, x3] = x;
    let [y0, y1, y2, y3] = y;
    if is_nan(x0)
        | is_nan(y0)
        | is_nan(x1)
        | is_nan(y1)
        | is_nan(x2)
        | is_nan(y2)
        | is_nan(x3)
        | is_nan(y3)
    {
        return (a.with_all(x), b.with_all(y));
    }
    (a.with_all(x), b.with_all(y))
}

// The spans of two columns of points, the first of which stands `at` bytes in.
#[inline(always)]
fn scan<const SIZE: usize>(points: &[[u8; SIZE]], at: usize, order: Endian) -> (Span, Span)
    requires side { at + 16 ≤ SIZE }
    requires small { SIZE ≤ 32 }
    ensures { (spanned result.0 ≡ column_of order at points.now) × (spanned result.1 ≡ column_of order (at + 8) points.now) }
{
    let (fours, ones) = points.as_chunks::<4>();
    let mut a = Span::empty();
    let mut b = Span::empty();
    for four in fours {
        let x = ordinates(four, at, order);
        let y = ordinates(four, at + 8, order);
        (a, b) = block(a, b, x, y);
    }
    for p in ones {
        a = a.with(bits_at(p, at, order));
        b = b.with(bits_at(p, at + 8, order));
    }
    (a, b)
}

// The same, with a scan compiled for each byte order: the order is tested once, and not for each number.
fn pair<const SIZE: usize>(points: &[[u8; SIZE]], at: usize, order: Endian) -> (Span, Span)
    requires side { at + 16 ≤ SIZE }
    requires small { SIZE ≤ 32 }
    ensures { (spanned result.0 ≡ column_of order at points.now) × (spanned result.1 ≡ column_of order (at + 8) points.now) }
{
    match order {
        Endian::Big => scan(points, at, Endian::Big),
        Endian::Little => scan(points, at, Endian::Little),
    }
}

// The bytes of n points, each on its own.
fn points_of<const SIZE: usize>(bytes: &[u8], n: usize) -> &[[u8; SIZE]]
    requires some { 0 < SIZE }
    requires there { n * SIZE ≤ length bytes.now }
    ensures { result.now ≡ first_chunks SIZE n bytes.now }
{
    let (all, _) = bytes.as_chunks::<SIZE>();
    &all[..n]
}

// The hulls of n points. n is their count and not the length of the bytes, behind which other shapes may follow.
pub(crate) fn hulls_of_points(bytes: &[u8], n: usize, order: Endian, dim: Dimension) -> Hulls
    requires { n * (8 * width dim) ≤ length bytes.now }
    ensures { (j : Bool) → four result ≡ with_all none (run order dim j n bytes.now) }
{
    let none = Span::empty();
    // Xyz and Xym stay two arms: one for both would test the dimension a second time.
    match dim {
        Dimension::Xy => {
            let (x, y) = pair(points_of::<16>(bytes, n), 0, order);
            hulls(x, y, none, none)
        }
        Dimension::Xyz => {
            let points = points_of::<24>(bytes, n);
            let (x, y) = pair(points, 0, order);
            let (_, z) = pair(points, 8, order);
            hulls(x, y, z, none)
        }
        Dimension::Xym => {
            let points = points_of::<24>(bytes, n);
            let (x, y) = pair(points, 0, order);
            let (_, m) = pair(points, 8, order);
            hulls(x, y, none, m)
        }
        Dimension::Xyzm => {
            let points = points_of::<32>(bytes, n);
            let (x, y) = pair(points, 0, order);
            let (z, m) = pair(points, 16, order);
            hulls(x, y, z, m)
        }
    }
}

fn hulls(x: Span, y: Span, z: Span, m: Span) -> Hulls
    ensures { four result ≡ record { x = spanned x; y = spanned y; z = spanned z; m = spanned m } }
{
    Hulls {
        x: x.into(),
        y: y.into(),
        z: z.into(),
        m: m.into(),
    }
}
