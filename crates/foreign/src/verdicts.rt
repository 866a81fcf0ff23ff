// The exported verdicts of a window on page records.
ghost use Rattle.std.specs.Prelude.{◌≡◌, length};
ghost use Rattle.bounding.specs.Told as Told;
ghost use Rattle.foreign.specs.Calls.{NoneMeets, PageBytes, Rules, SkipsSoundly, verdict_refusal, verdicts_refusal};
ghost use Rattle.foreign.specs.Statuses.{Answers, Does, Unless, refusal_of};
ghost use Rattle.foreign.specs.Values as Values;
ghost use Rattle.foreign.specs.Values.{kept_in, pair_of, wraps};

use crate::question::Question;
use crate::raw::{RawFault, RawPair, RawRecord, RawWindow};
use crate::refusals::{Misuse, Refusal, refused};
use crate::windows::Asked;

fn rule_page(page: &RawRecord, hint: &RawPair, window: &RawWindow) -> Result<u8, Refusal>
    ensures { Does (verdict_refusal window.now (pair_of hint.now) page.now) (Rules (Values.frame window.now) (Told.told (pair_of hint.now) (kept_in page.now))) result }
{
    let asked = Asked::try_from(window)?;
    let question = Question::new(asked, *hint)?;
    question.verdict(page)
}

// The verdict of a window on one page: 0 where it can be skipped, and else 1.
#[unsafe(no_mangle)]
pub extern "C" fn pagebounds_verdict(
    page: &RawRecord,
    hint: &RawPair,
    window: &RawWindow,
    verdict: &mut u8,
    fault: &mut RawFault,
) -> i32
    ensures answers { Answers (verdict_refusal window.now (pair_of hint.now) page.now) fault.old result fault.new }
    ensures verdict { Unless (verdict_refusal window.now (pair_of hint.now) page.now) (Rules (Values.frame window.now) (Told.told (pair_of hint.now) (kept_in page.now)) verdict.new) (verdict.new ≡ verdict.old) }
    ensures skipped { Unless (verdict_refusal window.now (pair_of hint.now) page.now) (verdict.new ≡ 0 → NoneMeets (Values.frame window.now) (pair_of hint.now) page.now) (Unit {0}) }
{
    match rule_page(page, hint, window) {
        Ok(ruled) => {
            *verdict = ruled;
            0
        }
        Err(refusal) => refused(refusal, fault),
    }
}

fn rule_pages(
    pages: &[RawRecord],
    hint: &RawPair,
    window: &RawWindow,
    verdicts: &mut [u8],
) -> Result<(), Refusal>
    ensures refusal { refusal_of result ≡ verdicts_refusal window.now (length pages.now) (length verdicts.old) }
    ensures verdicts { Unless (verdicts_refusal window.now (length pages.now) (length verdicts.old)) (PageBytes (wraps window.now) (Values.frame window.now) (pair_of hint.now) pages.now verdicts.new) (verdicts.new ≡ verdicts.old) }
{
    let asked = Asked::try_from(window)?;
    if pages.len() != verdicts.len() {
        return Err(Misuse::Length.into());
    }
    let question = Question::new(asked, *hint)?;
    // By an index: a proof knows nothing of what is written through a `zip` of `iter_mut`.
    for (i, page) in pages.iter().enumerate() {
        verdicts[i] = question.byte(page);
    }
    Ok(())
}

// The verdicts of a window on a list of pages, a byte for each: 0 skip, 1 keep, 2 where the kind cannot take the page's x pair, 3 where no bounder keeps such a record.
// C hands pages and bytes as two arrays.
#[unsafe(no_mangle)]
pub extern "C" fn pagebounds_verdicts(
    pages: &[RawRecord],
    hint: &RawPair,
    window: &RawWindow,
    verdicts: &mut [u8],
    fault: &mut RawFault,
) -> i32
    ensures answers { Answers (verdicts_refusal window.now (length pages.now) (length verdicts.old)) fault.old result fault.new }
    ensures verdicts { Unless (verdicts_refusal window.now (length pages.now) (length verdicts.old)) (PageBytes (wraps window.now) (Values.frame window.now) (pair_of hint.now) pages.now verdicts.new) (verdicts.new ≡ verdicts.old) }
    ensures skipped { Unless (verdicts_refusal window.now (length pages.now) (length verdicts.old)) (SkipsSoundly (Values.frame window.now) (pair_of hint.now) pages.now verdicts.new) (Unit {0}) }
{
    match rule_pages(pages, hint, window, verdicts) {
        Ok(()) => 0,
        Err(refusal) => refused(refusal, fault),
    }
}
