// Why a command is not granted: the library refuses it, or its line is wrong.
ghost use Rattle.std.specs.Prelude.{◌≡◌};
ghost use Rattle.script.specs.declared.refusal.NotGranted.TheVariants as why;
ghost use Rattle.script.specs.declared.wrong.Wrong.TheVariants.{NoMemory};

use crate::wrong::Wrong;
use interval::Fault;
use std::alloc::AllocError;
use std::fmt;

// The library refuses what is asked, or the source of a shape.
#[derive(Clone, Copy, Debug)]
pub enum Refusal {
    Asked(Fault),
    Source(Fault),
}

impl fmt::Display for Refusal {
    fn fmt<W: fmt::Write>(&self, f: &mut fmt::Formatter<W>) -> fmt::Result {
        match self {
            Refusal::Asked(fault) => write!(f, "{fault}"),
            Refusal::Source(fault) => write!(f, "source {fault}"),
        }
    }
}

#[derive(Clone, Copy, Debug)]
pub enum NotGranted<'a> {
    Refused(Refusal),
    Wrong(Wrong<'a>),
}

impl From<Refusal> for NotGranted<'_> {
    ghost from_gives = { λ r n. n ≡ why.Refused r };

    fn from(refusal: Refusal) -> Self {
        NotGranted::Refused(refusal)
    }
}

impl<'a> From<Wrong<'a>> for NotGranted<'a> {
    ghost from_gives = { λ w n. n ≡ why.Wrong w };

    fn from(wrong: Wrong<'a>) -> Self {
        NotGranted::Wrong(wrong)
    }
}

impl From<AllocError> for NotGranted<'_> {
    ghost from_gives = { λ _ n. n ≡ why.Wrong NoMemory };

    fn from(_error: AllocError) -> Self {
        NotGranted::Wrong(Wrong::NoMemory)
    }
}
