// A bounder: `bounder`, `bounder LO HI`, `count ...` with a shape, and `bounds`.
ghost use Rattle.std.specs.Prelude.{◌≡◌, [], IfOk, Some, None};
ghost use Rattle.interval.specs.Pairs.{ends, nothing, pair};
ghost use Rattle.bounding.specs.Record.{record_of};
ghost use Rattle.bounding.specs.Told as Told;
ghost use Rattle.bounding.specs.Walk.{kept};
ghost use Rattle.script.specs.Meanings.{counted_as, meant, refusal, Reports, Takes};

use crate::answer::{Answer, Bounds};
use crate::line::Words;
use crate::pair::Pair;
use crate::refusal::{NotGranted, Refusal};
use crate::sources::Given;
use crate::wrong::Wrong;
use bounding::{CountingBounder, GeometryBounder};
use interval::{Interval, IntervalTrait};
use std::alloc::{AllocError, Global};

// A new bounder, with a hint where the line gives one.
pub fn begin<'a>(words: &mut Words<'a>) -> Result<CountingBounder, Wrong<'a>> {
    let hint = words.pair_or_end()?;
    words.end()?;
    Ok(started(hint))
}

// A bounder with that hint, moved to counting.
fn started(hint: Option<Pair>) -> CountingBounder
    ensures hint { elim hint [ Some p ↦ ends result.hint ≡ pair p.lo p.hi | None ↦ ends result.hint ≡ nothing ] }
    ensures fresh { kept result.kept ≡ record_of (ends result.hint) [] }
{
    let fresh = GeometryBounder::empty();
    match hint {
        Some(Pair { lo, hi }) => fresh.with_wraparound_hint(Interval::new(lo, hi)).start(),
        None => fresh.start(),
    }
}

// Adds the shape that the line gives.
pub fn count<'a>(
    bounder: &mut CountingBounder,
    words: &mut Words<'a>,
) -> Result<Answer, NotGranted<'a>> {
    let form = words.form()?;
    let given = Given::read(form, words)?;
    Ok(added(bounder, &given)?)
}

// Adds the shape that is given, or tells the refusal and leaves the bounder as it was. The bounder itself refuses bytes.
fn added(bounder: &mut CountingBounder, given: &Given) -> Result<Answer, Refusal>
    ensures answer { result ≡ counted_as (refusal given.now) (meant given.now) }
    ensures keeps { Takes (meant given.now) (ends bounder.old.hint) (kept bounder.old.kept) (kept bounder.new.kept) }
    ensures hint { bounder.new.hint ≡ bounder.old.hint }
{
    if let Given::Bytes(bytes) = given {
        bounder
            .update_wkb(bytes.as_slice())
            .map_err(Refusal::Asked)?;
    } else {
        let mut source = given.source().map_err(Refusal::Source)?;
        bounder.update_source(&mut source);
    }
    Ok(Answer::Counted)
}

// What the bounder tells.
fn told(heap: Global, bounder: &CountingBounder) -> Result<Bounds, AllocError>
    ensures { IfOk result (λ b. Reports (Told.told (ends bounder.now.hint) (kept bounder.now.kept)) b) }
{
    let told = bounder.tell();
    let codes = told.codes.numbers(heap)?;
    Ok(Bounds {
        x: told.x.map(Pair::from),
        y: told.y.map(Pair::from),
        z: told.z.map(Pair::from),
        m: told.m.map(Pair::from),
        codes,
    })
}

pub fn bounds<'a>(
    bounder: &CountingBounder,
    words: &mut Words<'a>,
) -> Result<Answer, NotGranted<'a>> {
    words.end()?;
    Ok(Answer::Bounds(told(words.heap, bounder)?))
}
