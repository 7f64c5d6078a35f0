ghost use Rattle.std.specs.Prelude.{◌≡◌};
ghost use Rattle.calls.specs.ReaderMeaning.{made};
ghost use Rattle.reader.specs.Readers.{meaning};

use super::{Reader, Stage};
use coding::{Coding, Decoder};
use input::Input;
use scan::Scan;
use source::Source;

impl<S: Source> Reader<S> {
    /// A reader of the message that the source gives. Its tickets carry the number.
    pub fn new(source: S, number: u32) -> Self
        ensures { meaning S.Source.meaning result ≡ made number (S.Source.meaning source) }
    {
        Reader {
            scan: Scan::new(Input::new(source)),
            decoder: Decoder::new(Coding::Plain, 0),
            number,
            entities: 0,
            delivered: 0,
            stage: Stage::Head,
        }
    }
}
