// The words of the script language that name a kind of bounds, a function, a number or bytes.
#![tactic(auto)]

mod bytes;
mod function;
mod kind;
mod number;
mod unknown;

pub use bytes::read_bytes;
pub use function::{Function, OnePair, PairAndValue, TwoPairs};
pub use kind::Kind;
pub use number::read_number;
pub use unknown::UnknownWord;
