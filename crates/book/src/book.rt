// The calls of the page book.
ghost use Rattle.std.specs.Prelude.{◌≡◌, [], ◌∷◌, map, length, Ok, MatchResult};
ghost use Rattle.interval.specs.Pairs.{ends};
ghost use Rattle.shapes.specs.Wkb.{decode};
ghost use Rattle.bounding.specs.Laws.{merged_from};
ghost use Rattle.bounding.specs.Walk.{empty_record, kept};
ghost use Rattle.book.specs.Answers.{added, brought_by, given, returned, told_by};
ghost use Rattle.book.specs.Keeping.{KeptBy, Moved, SkippedSoundly, Step, ToldTruly, hint_of, size};
ghost use Rattle.book.specs.Promises.{tells};
ghost use Rattle.book.specs.Room.{usable};
ghost use Rattle.book.specs.Standing.{asks, ruling, start};
ghost use Rattle.book.specs.Verdicts.{frame_of};
ghost use Rattle.book.specs.Windows as Windows;
ghost use Rattle.book.specs.Windows.{Sifted};

use crate::frame::Window;
use crate::held::Book;
use crate::rule::rule;
use crate::states::{Asked, Deed, Slip, State, Target, Verdict};
use crate::window::judge;
use bounding::{Answer, CountingBounder, GeometryBounder, PageRecord};
use interval::{Cause, Fault, Interval, IntervalTrait};
use shapes::ShapeSource;

// So many records of a table can be used.
const USABLE: usize = 4096;

impl<'a> Book<'a> {
    // An idle book without pages, whatever the table holds. `pending` is set to a bounder with the hint.
    pub fn new(
        table: &'a mut [PageRecord],
        pending: &'a mut CountingBounder,
        hint: Interval,
    ) -> Book<'a>
        ensures kept { KeptBy start result }
        ensures hint { hint_of result ≡ ends hint }
        ensures table { result.table.now ≡ table.old }
        ensures same_table { result.table.ghost_name ≡ table.entry.ghost_name }
        ensures same_pending { result.pending.ghost_name ≡ pending.entry.ghost_name }
    {
        *pending = GeometryBounder::empty().with_wraparound_hint(hint).start();
        Book {
            table,
            pending,
            closed: 0,
            state: State::Idle,
        }
    }

    // What the rule says of the call as the book stands.
    fn ruled(&self, asked: Asked) -> Result<Deed, Fault>
        ensures { result ≡ ruling self.now.state self.now.closed (usable (size self.now)) asked }
    {
        rule(self.state, self.closed, self.table.len().min(USABLE), asked)
    }

    // Does what the call asks, or refuses. An add puts no shape here.
    fn apply(&mut self, asked: Asked) -> Result<(), Fault>
        ensures { Moved self.old self.new asked (Ok []) (λ _. added) result }
    {
        // by a rule of the project, the match in `rule` on state and call decides, and this does what it says
        match self.ruled(asked)? {
            Deed::Begin => {
                self.pending.restart(); // a new page has no shapes yet
                self.state = State::Filling;
            }
            Deed::Again(n) => {
                self.pending.restart(); // the page is filled anew
                self.state = State::Refilling(n);
            }
            Deed::Put => {}
            Deed::Append => {
                self.table[self.closed] = self.pending.record();
                self.closed += 1;
                self.state = State::Idle;
            }
            Deed::Replace(n) => {
                self.table[n] = self.pending.record();
                self.state = State::Idle;
            }
            Deed::Forget => self.state = State::Idle,
        }
        Ok(())
    }

    pub fn open(&mut self) -> Result<Slip, Fault>
        ensures { Moved self.old self.new Asked.Open (Ok []) (λ s. given (length s.pages)) result }
    {
        let page = self.closed;
        self.apply(Asked::Open)?;
        Ok(Slip { page })
    }

    pub fn retake(&mut self, page: usize) -> Result<Slip, Fault>
        ensures { Moved self.old self.new (Asked.Retake page) (Ok []) (λ _. given page) result }
    {
        self.apply(Asked::Retake(page))?;
        Ok(Slip { page })
    }

    // Gives the slip up for what is asked, or gives it back with the refusal: all that the calls `close` and `discard` share.
    // A match, since a slip goes one way or the other, and no closure can hold it for both.
    fn spend(&mut self, slip: Slip, asked: Asked) -> Result<usize, (Fault, Slip)>
        ensures { Moved self.old self.new asked (Ok []) (λ _. returned slip.page) result }
    {
        match self.apply(asked) {
            Ok(()) => {
                let Slip { page } = slip;
                Ok(page)
            }
            Err(fault) => Err((fault, slip)),
        }
    }

    // `close` and `discard` are calls of their own by a rule of the project, which names each call.
    pub fn close(&mut self, slip: Slip) -> Result<usize, (Fault, Slip)>
        ensures { Moved self.old self.new (Asked.Close slip.page) (Ok []) (λ _. returned slip.page) result }
    {
        let asked = Asked::Close(slip.page);
        self.spend(slip, asked)
    }

    pub fn discard(&mut self, slip: Slip) -> Result<usize, (Fault, Slip)>
        ensures { Moved self.old self.new (Asked.Discard slip.page) (Ok []) (λ _. returned slip.page) result }
    {
        let asked = Asked::Discard(slip.page);
        self.spend(slip, asked)
    }

    // Adds the shape of a source, which is read to its end. Where the slip is refused, the source is not read.
    pub fn add<S: ShapeSource>(&mut self, slip: &Slip, source: &mut S) -> Result<(), Fault>
        ensures step { Moved self.old self.new (Asked.Add slip.now.page) (Ok (S.means source.old ∷ [])) (λ _. added) result }
        ensures source { MatchResult result (λ _. (S.means source.new).coords ≡ []) (λ _. source.new ≡ source.old) }
    {
        self.ruled(Asked::Add(slip.page))?;
        self.pending.update_source(source);
        Ok(())
    }

    // Adds the shape that the bytes hold. A fault of the bytes is passed on with the page.
    pub fn add_wkb(&mut self, slip: &Slip, bytes: &[u8]) -> Result<(), Fault>
        ensures { Moved self.old self.new (Asked.Add slip.now.page) (brought_by (decode bytes.now)) (λ _. added) result }
    {
        self.ruled(Asked::Add(slip.page))?;
        self.pending
            .update_wkb(bytes)
            .map_err(|fault| fault.on_page(slip.page))
    }

    pub fn tell(&self, target: Target) -> Result<Answer, Fault>
        ensures step { Step self.now self.now asks (λ s. told_by result ≡ tells (hint_of self.now) s target) }
        ensures column { ToldTruly self.now target (told_by result) }
    {
        let hint = self.pending.hint();
        match target {
            Target::Page(n) => self.table[..self.closed]
                .get(n)
                .map(|page| page.tell(&hint))
                .ok_or(Fault::new(Cause::NoSuchPage, n)),
            Target::Column => Ok(merged(&self.table[..self.closed]).tell(&hint)),
        }
    }

    // Whether a page or the column can be skipped: none of its runs meets the window.
    pub fn sift<K: IntervalTrait + Drop>(
        &self,
        target: Target,
        window: &Window<K>,
    ) -> Result<Verdict, Fault>
        ensures step { Step self.now self.now asks (λ s. Sifted K.WRAPS (frame_of K.covers window.now) target (tells (hint_of self.now) s target) result) }
        ensures skipped { SkippedSoundly self.now (frame_of K.covers window.now) target result }
    {
        let told = self.tell(target)?;
        judge(&told, window).map_err(|fault| placed(fault, target))
    }
}

// A refusal met on a page has the page added.
fn placed(fault: Fault, target: Target) -> Fault
    ensures { result ≡ Windows.placed target fault }
{
    match target {
        Target::Page(n) => fault.on_page(n),
        Target::Column => fault,
    }
}

// All records, merged in their order.
fn merged(records: &[PageRecord]) -> PageRecord
    ensures { kept result ≡ merged_from empty_record (map kept records.now) }
{
    records
        .iter()
        .fold(PageRecord::empty(), |all, page| all.merge(page))
}
