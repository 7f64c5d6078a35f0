ghost use Rattle.std.specs.Prelude.{◌≡◌};
ghost use Rattle.chunked.specs.Faults.{wrong};

use source::{End, Fault};

/// What is wrong in the framing. Its discriminant is the fault's number.
#[derive(Clone, Copy)]
pub(crate) enum Wrong {
    /// Something in the size line that starts at the place.
    Size = 21,
    /// No CRLF stands behind a chunk's data: the first byte after them is at the place.
    Data = 23,
    /// Below ends at the place, and more is needed.
    Short = 24,
    /// One more byte is needed than may be taken.
    Long = 26,
}

impl Wrong {
    /// The framing's end by that, at a place.
    pub(crate) fn at(self, place: u32) -> End
        ensures { result ≡ wrong self place }
    {
        End::Faulty(Fault {
            number: self as u32,
            layer: 2,
            place,
        })
    }
}
