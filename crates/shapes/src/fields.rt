// The fields of a shape: its header, a count, its ordinates.
ghost use Rattle.std.specs.Prelude.{Option, ◌≡◌, ◌+◌, ◌*◌, ◌%◌, ◌^◌, ◌<◌, ◌≤◌, true, length, drop, MatchResult};
ghost use Rattle.interval.specs.declared.fault.Cause.TheVariants.{Truncated};
ghost use Rattle.shapes.specs.Codes.{fits, width};
ghost use Rattle.shapes.specs.Numbers.{u32_at, f64_at, coord_at};
ghost use Rattle.shapes.specs.Wkb.{before, code_at, Headed, Unheaded};

use crate::code::{Code, Dimension};
use crate::coord::Coord;
use crate::endian::Endian;
use crate::stop::Stop;
use interval::Cause;

// A four-byte count and what follows it.
pub(crate) fn count(bytes: &[u8], order: Endian) -> Result<(u32, &[u8]), Stop>
    ensures { MatchResult result (λ p. (4 ≤ length bytes.now) × (p.0 ≡ u32_at order bytes.now) × (p.1.now ≡ drop 4 bytes.now)) (λ s. (length bytes.now < 4) × (s ≡ before Truncated bytes.now)) }
{
    match bytes {
        [a, b, c, d, rest @ ..] => Ok((order.read_u32([*a, *b, *c, *d]), rest)),
        _ => Err(Stop::before(Cause::Truncated, bytes)),
    }
}

// What follows n fields of eight bytes.
pub(crate) fn skip_eights(bytes: &[u8], n: usize) -> Result<&[u8], Stop>
    requires { n < 2 ^ 40 }
    ensures { MatchResult result (λ rest. (8 * n ≤ length bytes.now) × (rest.now ≡ drop (8 * n) bytes.now)) (λ s. (length bytes.now < 8 * n) × (s ≡ record { cause = Truncated; left = length bytes.now % 8 })) }
{
    bytes.get(8 * n..).ok_or(Stop {
        cause: Cause::Truncated,
        left: bytes.len() % 8,
    })
}

// Where a header stops that is not there whole.
fn cut_header(bytes: &[u8]) -> Stop
    requires { length bytes.now < 5 }
    ensures { (outer : Option Code) → Unheaded outer bytes.now result }
{
    match bytes {
        [first, cut @ ..] => match Endian::try_from(*first) {
            Ok(_) => Stop::before(Cause::Truncated, cut),
            Err(cause) => Stop::before(cause, bytes),
        },
        [] => Stop::before(Cause::Truncated, bytes),
    }
}

// The byte order and the code of a shape that stands in this container, and what follows them. A call of it for each part would take as long as the part's check.
#[inline(always)]
pub(crate) fn header(bytes: &[u8], outer: Option<Code>) -> Result<(Endian, Code, &[u8]), Stop>
    ensures { MatchResult result (λ p. (length p.2.now + 5 ≤ length bytes.now) × Headed outer bytes.now p.0 p.1 p.2.now × (p.1 ≡ code_at bytes.now) × (fits outer p.1 ≡ true)) (λ s. Unheaded outer bytes.now s) }
{
    let [first, a, b, c, d, rest @ ..] = bytes else {
        return Err(cut_header(bytes));
    };
    let order = Endian::try_from(*first).map_err(|cause| Stop::before(cause, bytes))?;
    // by `map_err` and `?` the proof of this test did not close
    let Ok(code) = Code::try_from(order.read_u32([*a, *b, *c, *d])) else {
        return Err(Stop::before(Cause::TypeCode, &bytes[1..]));
    };
    if !code.fits_in(outer) {
        return Err(Stop::before(Cause::PartType, &bytes[1..]));
    }
    Ok((order, code, rest))
}

// The eight bytes at the start as a float.
#[tactic(auto, unfolding(crate::specs::Numbers::f64_at))]
fn ordinate(bytes: &[u8], order: Endian) -> f64
    requires { 8 ≤ length bytes.now }
    ensures { result ≡ f64_at order bytes.now }
{
    order.read_f64(bytes[..8].try_into().unwrap())
}

// The coordinate at the start.
pub(crate) fn coordinate(bytes: &[u8], order: Endian, dim: Dimension, joins: bool) -> Coord
    requires { 8 * width dim ≤ length bytes.now }
    ensures { result ≡ coord_at order dim joins bytes.now }
{
    let x = ordinate(bytes, order);
    let y = ordinate(&bytes[8..], order);
    let (z, m) = match dim {
        Dimension::Xy => (f64::NAN, f64::NAN),
        Dimension::Xyz => (ordinate(&bytes[16..], order), f64::NAN),
        Dimension::Xym => (f64::NAN, ordinate(&bytes[16..], order)),
        Dimension::Xyzm => (ordinate(&bytes[16..], order), ordinate(&bytes[24..], order)),
    };
    Coord { x, y, z, m, joins }
}
