// The exported calls on one page record.
ghost use Rattle.std.specs.Prelude.{◌≡◌, []};
ghost use Rattle.interval.specs.Pairs.{Pair};
ghost use Rattle.bounding.specs.Record.{record_of};
ghost use Rattle.bounding.specs.Told as Told;
ghost use Rattle.foreign.specs.Calls.{record_refusal};
ghost use Rattle.foreign.specs.Statuses.{Unless, returned};
ghost use Rattle.foreign.specs.Values.{kept_in, pair_of, raw_bounds, raw_record};

use crate::raw::{RawBounds, RawPair, RawRecord};
use bounding::PageRecord;

// The record of no shapes, under whichever hint.
#[unsafe(no_mangle)]
pub extern "C" fn pagebounds_empty(page: &mut RawRecord)
    ensures { (h : Pair) → page.new ≡ raw_record (record_of h []) }
{
    *page = PageRecord::empty().into();
}

// What is told of a record under the hint.
#[unsafe(no_mangle)]
pub extern "C" fn pagebounds_tell(page: &RawRecord, hint: &RawPair, told: &mut RawBounds) -> i32
    ensures status { result ≡ returned (record_refusal page.now) }
    ensures told { Unless (record_refusal page.now) (told.new ≡ raw_bounds (Told.told (pair_of hint.now) (kept_in page.now))) (told.new ≡ told.old) }
{
    match PageRecord::try_from(page) {
        Ok(kept) => {
            let hint = (*hint).into();
            *told = kept.tell(&hint).into();
            0
        }
        Err(misuse) => misuse as i32,
    }
}
