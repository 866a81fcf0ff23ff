// A cursor's own state. (No definition that names the cursor is imported here.)
ghost use Rattle.std.specs.Prelude.{◌≤◌};

use crate::code::{Code, Kind};
use crate::endian::Endian;

// A reader of bytes between two coordinates. `counts` has the parts to come of up to 31 open containers, `depth` of them open and the innermost of kind `inner`, then the rings and the points to come of the current shape, whose byte order is `order`. They are one fixed array, so that a cursor needs no memory of its own.
#[derive(Clone, Copy)]
pub struct Cursor<'a> {
    pub(crate) rest: &'a [u8],
    pub(crate) code: Code,
    pub(crate) inner: Kind,
    pub(crate) order: Endian,
    pub(crate) joins: bool,
    pub(crate) depth: usize,
    pub(crate) counts: [u32; 33],
    ghost shallow: { depth ≤ 31 },
}
