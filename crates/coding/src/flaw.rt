ghost use Rattle.std.specs.Prelude.{◌≡◌};
ghost use Rattle.source.specs.declared.ends.End.TheVariants.{Faulty};
ghost use Rattle.source.specs.Meanings.{fault};
ghost use Rattle.coding.specs.Flaws.{flaw_number};

use source::{End, Fault};

/// The layer that finds what is wrong with a coded body.
const LAYER: u32 = 5;

/// What can be wrong with a coded body.
#[derive(Clone, Copy)]
pub(crate) enum Flaw {
    /// A base64 character is left over where the data end.
    LeftOver = 51,
    /// More than 76 blanks stand in a row.
    TooManyBlanks = 52,
}

impl Flaw {
    /// The end of a body that has it at this place.
    pub(crate) fn at(self, place: u32) -> End
        ensures { result ≡ Faulty (fault (flaw_number self) 5 place) }
    {
        End::Faulty(Fault {
            number: self as u32,
            layer: LAYER,
            place,
        })
    }
}
