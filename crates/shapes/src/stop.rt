// Where a check of bytes stops.
ghost use Rattle.std.specs.Prelude.{◌≡◌, ◌≤◌};
ghost use Rattle.shapes.specs.Wkb.{before, placed};

use interval::{Cause, Fault};

// The cause, and how many bytes are left from the place that it names.
#[derive(Clone, Copy)]
pub(crate) struct Stop {
    pub(crate) cause: Cause,
    pub(crate) left: usize,
}

impl Stop {
    // A stop before these bytes, which are the last.
    pub(crate) fn before(cause: Cause, rest: &[u8]) -> Stop
        ensures { result ≡ before cause rest.now }
    {
        Stop {
            cause,
            left: rest.len(),
        }
    }

    // The refusal of so many bytes in all.
    pub(crate) fn fault(self, total: usize) -> Fault
        requires { self.left ≤ total }
        ensures { result ≡ placed total self.cause self.left }
    {
        Fault::new(self.cause, total - self.left)
    }
}
