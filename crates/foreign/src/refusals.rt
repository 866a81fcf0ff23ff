// Why an exported call did not do what it was asked: a refusal of the library, or a misuse that only callers from outside can commit.
ghost use Rattle.std.specs.Prelude.{◌≡◌, Some};
ghost use Rattle.foreign.specs.Statuses as Statuses;
ghost use Rattle.foreign.specs.Statuses.{Answers};
ghost use Rattle.foreign.specs.declared.refusals.Refusal.TheVariants.{Refused, Misused};

use crate::raw::RawFault;
use interval::Fault;

// What was handed and can mean nothing, with its status: below 0, so that it is no refusal's number.
#[derive(Clone, Copy, Debug, PartialEq, Eq)]
pub enum Misuse {
    // a window's kind is neither 0 nor 1
    Kind = -1,
    // a window's axes asked for are above 3
    Asked = -2,
    // there are not as many verdicts as records
    Length = -3,
    // a record that no bounder keeps
    Record = -4,
}

#[derive(Clone, Copy, Debug, PartialEq, Eq)]
pub enum Refusal {
    Refused(Fault),
    Misused(Misuse),
}

impl From<Fault> for Refusal {
    ghost from_gives = { λ f e. e ≡ Refused f };

    fn from(fault: Fault) -> Refusal {
        Refusal::Refused(fault)
    }
}

impl From<Misuse> for Refusal {
    ghost from_gives = { λ m e. e ≡ Misused m };

    fn from(misuse: Misuse) -> Refusal {
        Refusal::Misused(misuse)
    }
}

// The status that says why.
impl From<Refusal> for i32 {
    ghost from_gives = { λ e status. status ≡ Statuses.status_of e };

    fn from(refusal: Refusal) -> i32 {
        match refusal {
            Refusal::Refused(f) => i32::from(u8::from(f.cause)),
            Refusal::Misused(m) => m as i32,
        }
    }
}

// The fault as C reads it.
impl From<Fault> for RawFault {
    ghost from_gives = { λ f r. r ≡ Statuses.fault_of f };

    fn from(fault: Fault) -> RawFault {
        RawFault {
            number: u8::from(fault.cause).into(),
            layer: u8::from(fault.cause.layer()).into(),
            place: fault.place,
        }
    }
}

// Why a call was refused, told to C, which reads a number: the status is returned, and the fault written where the library refused, and else left.
pub(crate) fn refused(refusal: Refusal, fault: &mut RawFault) -> i32
    ensures { Answers (Some refusal) fault.old result fault.new }
{
    if let Refusal::Refused(f) = refusal {
        *fault = f.into();
    }
    refusal.into()
}
