// The page book: pages of shapes, their bounds, and windows that skip pages.
#![tactic(auto)]

mod book;
mod calls;
mod frame;
mod held;
mod requests;
mod rule;
mod states;
mod window;

pub use calls::replay;
pub use frame::Window;
pub use held::Book;
pub use requests::{Done, Reply, Request};
pub use states::{Slip, Target, Verdict};
pub use window::{Ends, judge};
