// Shapes: what their bytes hold, and the sources that give their coordinates one after another.
#![tactic(auto)]

mod code;
mod columns;
mod coord;
mod cursor;
mod endian;
mod fields;
mod hulls;
mod source;
mod span;
mod state;
mod stop;
mod swapped;
mod table;
mod wkb;

pub use code::{Code, Dimension, Kind, UnknownCode};
pub use coord::Coord;
pub use hulls::Hulls;
pub use source::ShapeSource;
pub use state::Cursor;
pub use swapped::Swapped;
pub use table::Table;
pub use wkb::{Checked, check};
