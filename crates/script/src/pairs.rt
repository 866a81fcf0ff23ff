// Questions to a pair: `interval KIND FUNCTION ARGUMENTS`.
ghost use Rattle.std.specs.Prelude.{◌≡◌, Ok, Err, IsOk};
ghost use Rattle.script.specs.declared.refusal.Refusal.TheVariants.{Asked};

use crate::answer::Answer;
use crate::line::Words;
use crate::pair::Pair;
use crate::refusal::{NotGranted, Refusal};
use crate::wrong::{Wanted, Wrong};
use interval::{Fault, Interval, IntervalTrait, WraparoundInterval};
use words::{Function, Kind, OnePair, PairAndValue, TwoPairs};

// A kind of bounds with its ends as a pair, and with its named equality, which it has outside the library's trait.
trait Bounds: IntervalTrait + Into<Pair> + Drop {
    fn equals(&self, other: &Self) -> bool;
}

impl Bounds for Interval {
    fn equals(&self, other: &Self) -> bool {
        self.same(other)
    }
}

impl Bounds for WraparoundInterval {
    fn equals(&self, other: &Self) -> bool {
        self.same(other)
    }
}

pub fn obey<'a>(words: &mut Words<'a>) -> Result<Answer, NotGranted<'a>> {
    let kind = words.kind()?;
    let function = words.word(Wanted::Function)?;
    match kind {
        Kind::Ordinary => ask::<Interval>(function, words),
        Kind::Wraparound if function == "to_ordinary" => unwrapped(words),
        Kind::Wraparound => ask::<WraparoundInterval>(function, words),
    }
}

// `to_ordinary` is the wraparound kind's alone.
fn unwrapped<'a>(words: &mut Words<'a>) -> Result<Answer, NotGranted<'a>> {
    let bounds: WraparoundInterval = made(words)?;
    words.end()?;
    Ok(ends_or_refusal(bounds.to_ordinary())?)
}

// The line has to end before its answer counts, which may be a refusal.
fn ask<'a, K: Bounds>(function: &'a str, words: &mut Words<'a>) -> Result<Answer, NotGranted<'a>> {
    let named = function
        .parse()
        .map_err(|_| Wrong::UnknownFunction(function))?;
    let answer = match named {
        Function::Empty => Ok(ends(K::empty())),
        Function::Full => Ok(ends(K::full())),
        Function::Take => {
            let Pair { lo, hi } = words.pair()?;
            ends_or_refusal(K::take(lo, hi))
        }
        Function::OfPair(asked) => Ok(of_pair::<K>(asked, made(words)?)),
        Function::OfPairAndValue(asked) => Ok(of_pair_and_value::<K>(
            asked,
            made(words)?,
            words.number()?,
        )),
        Function::OfTwoPairs(asked) => Ok(of_two_pairs::<K>(asked, made(words)?, made(words)?)),
    };
    words.end()?;
    Ok(answer?)
}

// Bounds of that kind from the next two words.
fn made<'a, K: IntervalTrait>(words: &mut Words<'a>) -> Result<K, Wrong<'a>> {
    let Pair { lo, hi } = words.pair()?;
    Ok(K::new(lo, hi))
}

// A match on what was asked: crate `words` proves what each word names, which a table from words to closures would leave unproved.
fn of_pair<K: Bounds>(asked: OnePair, bounds: K) -> Answer {
    match asked {
        OnePair::New => ends(bounds),
        OnePair::Lo => Answer::Number(bounds.lo()),
        OnePair::Hi => Answer::Number(bounds.hi()),
        OnePair::IsWraparound => Answer::Yes(bounds.is_wraparound()),
        OnePair::Width => Answer::Number(bounds.width()),
        OnePair::Mid => Answer::Number(bounds.mid()),
        OnePair::IsEmpty => Answer::Yes(bounds.is_empty()),
    }
}

fn of_pair_and_value<K: Bounds>(asked: PairAndValue, bounds: K, value: f64) -> Answer {
    match asked {
        PairAndValue::IntersectsValue => Answer::Yes(bounds.intersects_value(value)),
        PairAndValue::MergeValue => ends(bounds.merge_value(value)),
        PairAndValue::ExpandBy => ends(bounds.expand_by(value)),
    }
}

fn of_two_pairs<K: Bounds>(asked: TwoPairs, bounds: K, other: K) -> Answer {
    match asked {
        TwoPairs::IntersectsInterval => Answer::Yes(bounds.intersects_interval(&other)),
        TwoPairs::ContainsInterval => Answer::Yes(bounds.contains_interval(&other)),
        TwoPairs::MergeInterval => ends(bounds.merge_interval(&other)),
        TwoPairs::Same => Answer::Yes(bounds.equals(&other)),
    }
}

fn ends<K: Bounds>(bounds: K) -> Answer {
    Answer::Pair(bounds.into())
}

// A refusal is told as it came.
fn ends_or_refusal<K: Bounds>(answer: Result<K, Fault>) -> Result<Answer, Refusal>
    ensures { elim answer [ Ok k ↦ IsOk result | Err fault ↦ result ≡ Err (Asked fault) ] }
{
    answer.map(ends).map_err(Refusal::Asked)
}
