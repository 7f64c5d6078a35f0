ghost use Rattle.std.specs.Prelude.{◌≡◌, true};
ghost use Rattle.coding.specs.Buffers.{items};
ghost use Rattle.coding.specs.QuotedShapes.{shaped};

use crate::buffer::Buffer;

mod runs;
mod steps;

/// How many blanks may stand in a row.
pub(crate) const MOST_BLANKS: usize = 76;

/// How many raw bytes may be held back: an `=`, the blanks and a CR.
pub(crate) const MOST_HELD: usize = 78;

/// What is held back.
#[derive(Clone, Copy)]
pub(crate) enum Kind {
    /// An `=` if `soft`, then blanks or none.
    Blanks { soft: bool },
    /// An `=` and a hexadecimal digit.
    Digit,
    /// An `=` if `soft`, then blanks or none, then a CR.
    Cr { soft: bool },
}

/// What stands first in raw bytes behind which nothing is held back.
#[derive(Clone, Copy)]
pub(crate) enum Token {
    /// A byte that stands for itself.
    Itself,
    /// An `=` and two hexadecimal digits: this byte.
    Byte(u8),
    /// An `=` and a CRLF.
    Soft,
    /// A CRLF.
    Hard,
}

/// Quoted-printable, behind the raw bytes of a line that are not decided yet.
#[derive(Clone, Copy)]
pub(crate) struct Quoted {
    held: Buffer<MOST_HELD>,
    kind: Kind,
    ghost shape: { shaped kind (items held) ≡ true },
}
