// A window's own fields.
use interval::Interval;

// Bounds of one kind for x, ordinary ones for y and, where they are asked for, for z and m. `Window::new` makes them from pairs.
#[derive(Drop)]
pub struct Window<K> {
    pub(crate) x: K,
    pub(crate) y: Interval,
    pub(crate) z: Option<Interval>,
    pub(crate) m: Option<Interval>,
}
