// Whether bytes hold one whole shape.
ghost use Rattle.std.specs.Prelude.{◌≡◌, MatchResult};
ghost use Rattle.shapes.specs.Tree.{WritingOf, NoWriting, ReadExactly};
ghost use Rattle.shapes.specs.Wkb.{line, times, counted, shape, code_at, coords_in, decode, refused, read, Follows, PointsFollow};

use crate::code::{Code, Dimension, Kind};
use crate::endian::Endian;
use crate::fields::{count, header, skip_eights};
use crate::stop::Stop;
use interval::{Cause, Fault};

const LEVELS: u32 = 32;

// What follows n coordinates, in whichever byte order.
fn check_points(bytes: &[u8], dim: Dimension, n: u32) -> Result<&[u8], Stop>
    ensures { PointsFollow dim n bytes.now result }
{
    skip_eights(bytes, n as usize * dim.width())
}

// `order` and `dim` stay two parameters below: a cursor keeps the dimension in its code, so a struct of both would be made at each call.

// What follows a line or a ring.
fn check_line(bytes: &[u8], order: Endian, dim: Dimension) -> Result<&[u8], Stop>
    ensures { Follows (line order dim) bytes.now result }
{
    let (n, rest) = count(bytes, order)?;
    check_points(rest, dim, n)
}

// What follows a polygon's count and rings.
fn check_polygon(bytes: &[u8], order: Endian, dim: Dimension) -> Result<&[u8], Stop>
    ensures { Follows (counted order (times (line order dim))) bytes.now result }
{
    let (n, mut rest) = count(bytes, order)?;
    'rings: for _ in 0..n {
        rest = check_line(rest, order, dim)?;
    }
    Ok(rest)
}

// What follows a whole shape that stands in this container, with so many levels left. It calls itself and is not generic, so that the levels fall with each call.
fn check_shape(bytes: &[u8], levels: u32, outer: Option<Code>) -> Result<&[u8], Stop>
    ensures { Follows (shape levels outer) bytes.now result }
{
    if levels == 0 {
        return Err(Stop::before(Cause::TooDeep, bytes));
    }
    let (order, code, after) = header(bytes, outer)?;
    match code.kind {
        Kind::Point => check_points(after, code.dim, 1),
        Kind::Line => check_line(after, order, code.dim),
        Kind::Polygon => check_polygon(after, order, code.dim),
        _ => {
            let (n, mut rest) = count(after, order)?;
            'parts: for _ in 0..n {
                rest = check_shape(rest, levels - 1, Some(code))?;
            }
            Ok(rest)
        }
    }
}

// Bytes that hold one whole shape: only `check` makes them.
#[derive(Clone, Copy)]
pub struct Checked<'a> {
    pub(crate) bytes: &'a [u8],
}

// The bytes, if they hold one whole shape, or else the first fault in reading order.
#[tactic(auto, using(crate::proofs::ReadWritten::reads))]
pub fn check(bytes: &[u8]) -> Result<Checked<'_>, Fault>
    ensures decoded { MatchResult result (λ c. (c.bytes.now ≡ bytes.now) × (decode bytes.now ≡ read (code_at bytes.now) (coords_in bytes.now))) (λ f. decode bytes.now ≡ refused f) }
    ensures written { MatchResult result (λ c. WritingOf bytes.now (code_at bytes.now) (coords_in bytes.now)) (λ f. NoWriting bytes.now) }
    ensures exactly { ReadExactly bytes.now }
{
    let total = bytes.len();
    let rest = check_shape(bytes, LEVELS, None).map_err(|stop| stop.fault(total))?;
    if !rest.is_empty() {
        return Err(Stop::before(Cause::TrailingBytes, rest).fault(total));
    }
    Ok(Checked { bytes })
}
