// The sources of a shape's coordinates.
ghost use Rattle.std.specs.Prelude.{◌≡◌, ℕ, ◌≤◌, length};
ghost use Rattle.shapes.specs.Source.{Shape, Gives, LacksAxes};

use crate::code::Code;
use crate::coord::Coord;

pub trait ShapeSource {
    // The code and the coordinates still to come.
    ghost means: { Self → Shape };

    // What `left` answers.
    ghost room: { Self → ℕ };

    // The first coordinate to come, which is dropped, or none.
    fn next(&mut self) -> Option<Coord>
        ensures gives { Gives means room result self.old self.new }
        ensures lacking { LacksAxes (means self.old) };

    fn code(&self) -> Code
        ensures { result ≡ (means self.now).code };

    // At least the number to come; each coordinate given lowers it.
    fn left(&self) -> usize
        ensures room { result ≡ room self.now }
        ensures enough { length (means self.now).coords ≤ result };
}
