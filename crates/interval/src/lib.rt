// Bounds on one axis, of two kinds, and the refusals of the whole library.
#![tactic(auto)]

mod fault;
mod interval_trait;
mod kinds;
mod ordinary;
mod wraparound;

pub use fault::{Cause, Fault, Layer};
pub use interval_trait::IntervalTrait;
pub use kinds::{Interval, WraparoundInterval};
