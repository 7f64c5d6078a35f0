ghost use Rattle.std.specs.Prelude.{◌≡◌, true};
ghost use Rattle.input.specs.Inputs.{shown, known};
ghost use Rattle.scan.specs.Ends.{tested};

use crate::lines::Lines;
use crate::places::Place;
use source::Source;

mod bodies;
mod heads;
mod lines;
mod ready;

pub use lines::GroupLine;

/// A leaf's raw body, read from an input inside the open groups.
#[derive(Drop)]
pub struct Scan<S: Source> {
    lines: Lines<S>,
    place: Place,
    ghost ended: { tested lines.levels place (shown lines.input) (known lines.input) ≡ true },
}
