// A whole list of calls, run on one new book.
ghost use Rattle.std.specs.Prelude.{◌≡◌};
ghost use Rattle.interval.specs.Pairs.{ends};
ghost use Rattle.book.specs.Keeping.{Step, hint_of, size};
ghost use Rattle.book.specs.Replay.{Replayed, Replies, called};
ghost use Rattle.book.specs.declared.requests.Done.TheVariants as Variants;

use crate::held::Book;
use crate::requests::{Done, Reply, Request};
use crate::states::Slip;
use bounding::{CountingBounder, PageRecord};
use interval::{Fault, Interval, IntervalTrait};
use shapes::ShapeSource;

// The slip that was handed out goes by its page.
fn opened(slip: Slip) -> Done
    ensures { result ≡ Variants.Opened slip.page }
{
    let Slip { page } = slip;
    Done::Opened(page)
}

// The slip that comes back with a refusal is taken apart again.
fn refused(back: (Fault, Slip)) -> Fault
    ensures { result ≡ back.0 }
{
    let (fault, Slip { page: _ }) = back;
    fault
}

// One call of the list.
fn answer<K: IntervalTrait + Drop, S: ShapeSource>(
    book: &mut Book,
    request: &mut Request<K, S>,
) -> Reply
    ensures { Step book.old book.new (called S.means request.old) (λ s. Replies K.WRAPS K.covers S.means (hint_of book.old) (size book.old) s request.old result) }
{
    match request {
        Request::Opening => book.open().map(opened),
        Request::Retaking(n) => book.retake(*n).map(opened),
        // These two stay apart: a helper handed the call as a closure would have to promise again what `add` and `add_wkb` leave of the book.
        Request::Adding(p, source) => {
            let slip = Slip { page: *p };
            let added = book.add(&slip, source);
            let Slip { page: _ } = slip;
            added.map(|()| Done::Added)
        }
        Request::AddingBytes(p, bytes) => {
            let slip = Slip { page: *p };
            let added = book.add_wkb(&slip, bytes);
            let Slip { page: _ } = slip;
            added.map(|()| Done::Added)
        }
        Request::Closing(p) => book
            .close(Slip { page: *p })
            .map(Done::Closed)
            .map_err(refused),
        Request::Discarding(p) => book
            .discard(Slip { page: *p })
            .map(Done::Discarded)
            .map_err(refused),
        Request::Telling(target) => book.tell(*target).map(Done::Told),
        Request::Sifting(target, window) => book.sift(*target, window).map(Done::Sifted),
    }
}

// Runs the calls on one new book, as many as there is room for replies, and answers how many those are. The other replies stay.
// A rule of the project: the library crates below the script take no heap of their own, so the replies are lent and no `Vec`.
pub fn replay<K: IntervalTrait + Drop, S: ShapeSource>(
    table: &mut [PageRecord],
    pending: &mut CountingBounder,
    hint: Interval,
    requests: &mut [Request<K, S>],
    replies: &mut [Reply],
) -> usize
    ensures { Replayed K.WRAPS K.covers S.means (ends hint) requests.old replies.old replies.new result table.old table.new }
{
    let n = requests.len().min(replies.len());
    let mut book = Book::new(table, pending, hint);
    // by index: of what a zip of two iter_mut wrote, a proof knows nothing
    for (i, request) in requests[..n].iter_mut().enumerate() {
        replies[i] = answer(&mut book, request);
    }
    n
}
