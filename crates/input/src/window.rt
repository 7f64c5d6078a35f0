ghost use Rattle.std.specs.Prelude.{◌≡◌, ◌+◌, ◌-◌, ◌≤◌, length};

use source::{End, Source};

mod fills;
mod views;

/// How many bytes the window can show: enough for any one head line, at most 8,192 bytes, with its CRLF.
const WINDOW: usize = 16384;

/// How many bytes of the source are the input.
const LIMIT: usize = 16777216;

/// The first LIMIT bytes of a source, seen through a window. A source that gives more ends in fault 31.
#[derive(Drop)]
pub struct Input<S: Source> {
    source: S,
    // Memory of a fixed size: an array and two places, as a struct holds no slice of its own array.
    window: [u8; WINDOW],
    /// The window shows its bytes from `from` to `to`, and the first of them has the offset `at` in the input.
    from: usize,
    to: usize,
    at: usize,
    /// The input's end, once it is known that no byte comes behind those that the window shows.
    end: Option<End>,
    ghost whole: { length window ≡ 16384 },
    ghost ordered: { from ≤ to },
    ghost within: { to ≤ 16384 },
    ghost limited: { at + (to - from) ≤ 16777216 },
}
