ghost use Rattle.std.specs.Prelude.{◌≡◌, ◌≤◌, length};

use head::Boundary;

mod fits;
mod opens;

/// The most groups that may be open.
const DEPTH: usize = 8;

/// How much of a text decides what its first line is: a group's longest line has 74 bytes, and a CRLF is behind it.
pub const NEAR: usize = 76;

/// An open group: the number of its entity, and its boundary.
#[derive(Clone, Copy)]
struct Level {
    number: u32,
    boundary: Boundary,
}

/// The open groups, the innermost last.
// An array and a count, since the levels are Copy, which the kit's ArrayVec is not, and hold no heap.
#[derive(Clone, Copy)]
pub struct Levels {
    slots: [Level; DEPTH],
    count: usize,
    ghost whole: { length slots ≡ 8 },
    ghost within: { count ≤ 8 },
}

/// Eight groups are open already.
#[derive(Clone, Copy, PartialEq, Eq, Debug)]
pub struct TooDeep;

/// What a line of an open group does. The number counts the groups open inside that group.
#[derive(Clone, Copy, PartialEq, Eq, Debug)]
pub enum Fit {
    Separates(usize),
    Closes(usize),
}
