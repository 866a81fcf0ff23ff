// The exported calls that read a shape's bytes.
ghost use Rattle.std.specs.Prelude.{◌≡◌};
ghost use Rattle.interval.specs.Pairs.{ends};
ghost use Rattle.shapes.specs.Wkb.{decode};
ghost use Rattle.bounding.specs.Record.{record_of};
ghost use Rattle.bounding.specs.Told as Told;
ghost use Rattle.bounding.specs.Walk.{kept};
ghost use Rattle.foreign.specs.Calls.{Grown, before, byte_refusal, record_refusal, shapes_in};
ghost use Rattle.foreign.specs.Statuses.{Answers, Does, Unless};
ghost use Rattle.foreign.specs.Values.{pair_of, raw_bounds, raw_record};

use crate::raw::{RawBounds, RawFault, RawPair, RawRecord};
use crate::refusals::{Refusal, refused};
use bounding::{GeometryBounder, PageRecord};
use interval::Interval;

// The record of the shape that the bytes hold. Bytes and hint come apart from C, and a struct of both would be taken apart at once.
fn recorded(bytes: &[u8], hint: Interval) -> Result<PageRecord, Refusal>
    ensures { Does (byte_refusal (decode bytes.now)) (λ p. kept p ≡ record_of (ends hint) (shapes_in (decode bytes.now))) result }
{
    let mut bounder = GeometryBounder::empty().with_wraparound_hint(hint).start();
    bounder.update_wkb(bytes)?;
    Ok(bounder.record())
}

// Whether the bytes hold one whole shape.
#[unsafe(no_mangle)]
pub extern "C" fn pagebounds_check(bytes: &[u8], fault: &mut RawFault) -> i32
    ensures { Answers (byte_refusal (decode bytes.now)) fault.old result fault.new }
{
    match shapes::check(bytes) {
        Ok(_) => 0,
        Err(refusal) => refused(refusal.into(), fault),
    }
}

// The record of the shape that the bytes hold, and what is told of it under the hint.
#[unsafe(no_mangle)]
pub extern "C" fn pagebounds_bounds(
    bytes: &[u8],
    hint: &RawPair,
    told: &mut RawBounds,
    page: &mut RawRecord,
    fault: &mut RawFault,
) -> i32
    ensures answers { Answers (byte_refusal (decode bytes.now)) fault.old result fault.new }
    ensures page { Unless (byte_refusal (decode bytes.now)) (page.new ≡ raw_record (record_of (pair_of hint.now) (shapes_in (decode bytes.now)))) (page.new ≡ page.old) }
    ensures told { Unless (byte_refusal (decode bytes.now)) (told.new ≡ raw_bounds (Told.told (pair_of hint.now) (record_of (pair_of hint.now) (shapes_in (decode bytes.now))))) (told.new ≡ told.old) }
{
    let hint = (*hint).into();
    match recorded(bytes, hint) {
        Ok(kept) => {
            *told = kept.tell(&hint).into();
            *page = kept.into();
            0
        }
        Err(refusal) => refused(refusal, fault),
    }
}

fn added(page: &RawRecord, bytes: &[u8], hint: Interval) -> Result<RawRecord, Refusal>
    ensures { Does (before (record_refusal page.now) (byte_refusal (decode bytes.now))) (Grown (ends hint) (decode bytes.now) page.now) result }
{
    let kept = PageRecord::try_from(page)?;
    let shape = recorded(bytes, hint)?;
    Ok(kept.merge(&shape).into())
}

// Adds the shape that the bytes hold to a page's record.
#[unsafe(no_mangle)]
pub extern "C" fn pagebounds_add(
    page: &mut RawRecord,
    bytes: &[u8],
    hint: &RawPair,
    fault: &mut RawFault,
) -> i32
    ensures answers { Answers (before (record_refusal page.old) (byte_refusal (decode bytes.now))) fault.old result fault.new }
    ensures page { Unless (before (record_refusal page.old) (byte_refusal (decode bytes.now))) (Grown (pair_of hint.now) (decode bytes.now) page.old page.new) (page.new ≡ page.old) }
{
    match added(page, bytes, (*hint).into()) {
        Ok(grown) => {
            *page = grown;
            0
        }
        Err(refusal) => refused(refusal, fault),
    }
}
