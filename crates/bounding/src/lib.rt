// Bounds of shapes: what is kept of them, and what is told of it.
#![tactic(auto)]

mod bounder;
mod codes;
mod laws;
mod record;
mod records;

pub use bounder::{CountingBounder, GeometryBounder};
pub use laws::laws_hold;
pub use records::{Answer, CodeSet, PageRecord};
