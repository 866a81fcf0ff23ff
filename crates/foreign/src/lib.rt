// The library for callers in C and Rust: plain structs, statuses, and the exported functions.
// These take what C has, pointers, numbers and places to write to: so hint, window and fault stay parameters of their own.
#![tactic(auto)]

mod bytes;
mod convert;
mod pages;
mod question;
mod raw;
mod refusals;
mod verdicts;
mod windows;

pub use bytes::{pagebounds_add, pagebounds_bounds, pagebounds_check};
pub use pages::{pagebounds_empty, pagebounds_tell};
pub use raw::{RawBounds, RawFault, RawPair, RawRecord, RawWindow};
pub use refusals::Misuse;
pub use verdicts::{pagebounds_verdict, pagebounds_verdicts};
