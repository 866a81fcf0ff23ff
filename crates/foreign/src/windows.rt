// Windows that were handed: what they ask, and their bounds.
ghost use Rattle.std.specs.Prelude.{◌≡◌};
ghost use Rattle.bounding.specs.Walk.{answer};
ghost use Rattle.book.specs.Verdicts.{Upright};
ghost use Rattle.book.specs.Windows.{TestedX};
ghost use Rattle.book.specs.declared.states.Target.TheVariants.{Column};
ghost use Rattle.foreign.specs.Questions.{Asks, Kinds, OpensEither, asked_in, frame_in, wrapping_in};
ghost use Rattle.foreign.specs.declared.raw.RawWindow.{RawWindow};

use crate::raw::{RawPair, RawWindow};
use crate::refusals::Misuse;
use book::{Ends, Verdict, Window, judge};
use bounding::Answer;
use interval::{Fault, Interval, WraparoundInterval};

// The kind of a window's bounds of x.
#[derive(Clone, Copy)]
pub(crate) enum WindowKind {
    Ordinary,
    Wraparound,
}

// What a window asks: its pairs, of z and m only where they are asked for.
#[derive(Clone, Copy)]
pub(crate) struct Asked {
    kind: WindowKind,
    x: Ends,
    y: Ends,
    z: Option<Ends>,
    m: Option<Ends>,
}

// A window with bounds of either kind for x.
#[derive(Drop)]
pub(crate) enum EitherWindow {
    Ordinary(Window<Interval>),
    Wraparound(Window<WraparoundInterval>),
}

impl TryFrom<u32> for WindowKind {
    type Error = Misuse;

    ghost try_from_gives = { Kinds };

    fn try_from(number: u32) -> Result<WindowKind, Misuse> {
        match number {
            0 => Ok(WindowKind::Ordinary),
            1 => Ok(WindowKind::Wraparound),
            _ => Err(Misuse::Kind),
        }
    }
}

impl From<RawPair> for Ends {
    ghost from_gives = { λ p e. e ≡ (p.lo, p.hi) };

    fn from(pair: RawPair) -> Ends {
        (pair.lo, pair.hi)
    }
}

impl TryFrom<&RawWindow> for Asked {
    type Error = Misuse;

    ghost try_from_gives = { λ w a. Asks w.now a };

    fn try_from(raw: &RawWindow) -> Result<Asked, Misuse> {
        let kind = WindowKind::try_from(raw.kind)?;
        if raw.asked > 3 {
            return Err(Misuse::Asked);
        }
        // a pair that is not asked for is not read: C need not have set it
        Ok(Asked {
            kind,
            x: raw.x.into(),
            y: raw.y.into(),
            z: (raw.asked % 2 == 1).then(|| raw.z.into()),
            m: (raw.asked >= 2).then(|| raw.m.into()),
        })
    }
}

impl EitherWindow {
    // The window that is asked for, or the refusal of one of its pairs. A window's kind is a type: each arm is another instance. By calls, what is asked and the window would be copied on the way to a question, which one page's verdict feels.
    #[inline(always)]
    pub(crate) fn new(asked: Asked) -> Result<EitherWindow, Fault>
        ensures { (w : RawWindow) → asked ≡ asked_in w → OpensEither w result }
    {
        let Asked { kind, x, y, z, m } = asked;
        match kind {
            WindowKind::Ordinary => Ok(EitherWindow::Ordinary(Window::new(x, y, z, m)?)),
            WindowKind::Wraparound => Ok(EitherWindow::Wraparound(Window::new(x, y, z, m)?)),
        }
    }

    // Here too each arm is another instance.
    pub(crate) fn judge(&self, told: &Answer) -> Result<Verdict, Fault>
        ensures { Upright (answer told.now) → TestedX (wrapping_in self.now) (frame_in self.now) Column (answer told.now) (answer told.now).x result }
    {
        match self {
            EitherWindow::Ordinary(window) => judge(told, window),
            EitherWindow::Wraparound(window) => judge(told, window),
        }
    }
}
