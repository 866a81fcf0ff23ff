// Which calls are granted.
ghost use Rattle.std.specs.Prelude.{◌≡◌};
ghost use Rattle.book.specs.Standing.{ruling};

use crate::states::{Asked, Deed, State};
use interval::{Cause, Fault};

// The one place that decides: the book's state and the call together.
pub(crate) fn rule(state: State, closed: usize, room: usize, asked: Asked) -> Result<Deed, Fault>
    ensures { result ≡ ruling state closed room asked }
{
    match (state, asked) {
        (State::Idle, Asked::Open) if closed < room => Ok(Deed::Begin),
        (State::Idle, Asked::Open) => Err(Fault::new(Cause::TableFull, closed)),
        (State::Idle, Asked::Retake(n)) if n < closed => Ok(Deed::Again(n)),
        (State::Idle, Asked::Retake(n)) => Err(Fault::new(Cause::NoSuchPage, n)),
        (State::Filling, Asked::Open | Asked::Retake(_)) => Err(Fault::new(
            Cause::PageOpen,
            closed,
        )),
        (State::Refilling(n), Asked::Open | Asked::Retake(_)) => Err(Fault::new(
            Cause::PageOpen,
            n,
        )),
        (State::Filling, Asked::Add(p)) if p == closed => Ok(Deed::Put),
        (State::Filling, Asked::Close(p)) if p == closed => Ok(Deed::Append),
        (State::Filling, Asked::Discard(p)) if p == closed => Ok(Deed::Forget),
        (State::Refilling(n), Asked::Add(p)) if p == n => Ok(Deed::Put),
        (State::Refilling(n), Asked::Close(p)) if p == n => Ok(Deed::Replace(n)),
        (State::Refilling(n), Asked::Discard(p)) if p == n => Ok(Deed::Forget),
        (_, Asked::Add(p) | Asked::Close(p) | Asked::Discard(p)) => Err(Fault::new(
            Cause::WrongSlip,
            p,
        )),
    }
}
