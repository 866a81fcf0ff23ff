// The page book's own fields. (No definition that names the book is imported here.)
ghost use Rattle.std.specs.Prelude.{◌≤◌, length};
ghost use Rattle.book.specs.Room.{back, reach, usable};

use crate::states::State;
use bounding::{CountingBounder, PageRecord};

// A book over a lent table of page records, of which the first `closed` are pages. `pending` has the hint and the open page's bounds.
// A rule of the project: the table is the caller's memory, with a count of closed pages, and no `Vec`, as no heap is taken here.
#[derive(Drop)]
pub struct Book<'a> {
    pub(crate) table: &'a mut [PageRecord],
    pub(crate) pending: &'a mut CountingBounder,
    pub(crate) closed: usize,
    pub(crate) state: State,
    ghost fits: { reach state closed ≤ usable (length table.now) },
    ghost known: { back state ≤ closed },
}
