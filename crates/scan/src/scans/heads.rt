ghost use Rattle.std.specs.Prelude.{◌≡◌, []};
ghost use Rattle.levels.specs.Opened.{groups};

use super::Scan;
use crate::lines::Lines;
use crate::places::Place;
use input::Input;
use levels::{Fit, Levels};
use source::Source;

impl<S: Source> Scan<S> {
    ghost use Rattle.std.specs.Borrow.{sem};
    ghost use Rattle.scan.specs.Ends.{answer};
    ghost use Rattle.scan.specs.Streams.{AtLine};
    ghost use Rattle.scan.specs.Leaving.{LendsLines};

    /// The scan of an input, with no group open, before a line.
    pub fn new(input: Input<S>) -> Self
        ensures input { result.lines.input ≡ input }
        ensures groups { groups result.lines.levels ≡ [] }
        ensures begins { AtLine result }
    {
        Scan {
            lines: Lines {
                input,
                levels: Levels::new(),
            },
            place: Place::Start { held: false },
        }
    }

    /// The input and the open groups.
    pub fn lines(&self) -> &Lines<S>
        ensures { result.now ≡ self.now.lines }
    {
        &self.lines
    }

    /// The same, between bodies: the scan stands before the line that begins where its input stands.
    pub fn leave_body(&mut self) -> &mut Lines<S>
        ensures* lends { sem 𝓛 (LendsLines S.row self.entry result) }
        ensures lines { result.now ≡ self.old.lines }
    {
        self.place = Place::Start { held: false };
        &mut self.lines
    }

    /// What the line is that ended the body; none where the input's end did, and while the body has not ended.
    pub fn fit(&self) -> Option<Fit>
        ensures { result ≡ answer self.now.place }
    {
        match self.place {
            Place::Ended(fit) => fit,
            _ => None,
        }
    }
}
