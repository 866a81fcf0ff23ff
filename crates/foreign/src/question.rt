// What is asked of pages, and the answer on one.
ghost use Rattle.std.specs.Prelude.{◌≡◌, Some, None, MatchResult};
ghost use Rattle.interval.specs.Pairs.{Pair};
ghost use Rattle.bounding.specs.Told as Told;
ghost use Rattle.foreign.specs.Calls.{PageByte, Rules, byte_of, page_refusal, pairs_refusal};
ghost use Rattle.foreign.specs.Questions.{Poses, asked_in};
ghost use Rattle.foreign.specs.Statuses.{Does};
ghost use Rattle.foreign.specs.Values as Values;
ghost use Rattle.foreign.specs.Values.{kept_in, pair_of, wraps};
ghost use Rattle.foreign.specs.declared.raw.RawWindow.{RawWindow};
ghost use Rattle.foreign.specs.declared.refusals.Refusal.TheVariants.{Refused};

use crate::raw::{RawPair, RawRecord};
use crate::refusals::Refusal;
use crate::windows::{Asked, EitherWindow};
use book::Verdict;
use bounding::PageRecord;
use interval::{Fault, Interval};

// What is asked of pages: a window, under the hint that they were filled under.
// That it `Poses` a window that was handed is no ghost field, since it does not hold that window.
#[derive(Drop)]
pub(crate) struct Question {
    hint: Interval,
    window: EitherWindow,
}

// C's PAGEBOUNDS_REFUSED: the window's kind cannot take the page's x pair.
const REFUSED: u8 = 2;

// C's PAGEBOUNDS_NO_RECORD: no bounder keeps such a record.
const NO_RECORD: u8 = 3;

// The number of a verdict. It is C's alone, so `book` has no `From` for it.
fn byte_of(verdict: Verdict) -> u8
    ensures { result ≡ byte_of verdict }
{
    verdict as u8
}

impl Question {
    #[inline(always)]
    pub(crate) fn new(asked: Asked, hint: RawPair) -> Result<Question, Fault>
        ensures { (w : RawWindow) → asked ≡ asked_in w → MatchResult result (λ q. (pairs_refusal (wraps w) w ≡ None) × Poses w (pair_of hint) q) (λ f. pairs_refusal (wraps w) w ≡ Some (Refused f)) }
    {
        let window = EitherWindow::new(asked)?;
        Ok(Question {
            hint: hint.into(),
            window,
        })
    }

    // The verdict on a page as its byte.
    pub(crate) fn verdict(&self, page: &RawRecord) -> Result<u8, Refusal>
        ensures { (w : RawWindow) (h : Pair) → Poses w h self.now → Does (page_refusal (wraps w) h page.now) (Rules (Values.frame w) (Told.told h (kept_in page.now))) result }
    {
        let kept = PageRecord::try_from(page)?;
        let verdict = self.window.judge(&kept.tell(&self.hint))?;
        Ok(byte_of(verdict))
    }

    // The byte of a page in the list of verdicts.
    pub(crate) fn byte(&self, page: &RawRecord) -> u8
        ensures { (w : RawWindow) (h : Pair) → Poses w h self.now → PageByte (wraps w) (Values.frame w) h page.now result }
    {
        match self.verdict(page) {
            Ok(verdict) => verdict,
            Err(Refusal::Refused(_)) => REFUSED,
            Err(Refusal::Misused(_)) => NO_RECORD,
        }
    }
}
