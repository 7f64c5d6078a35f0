ghost use Rattle.std.specs.Prelude.{◌≡◌};
ghost use Rattle.sink.specs.Values.{tally_meaning};
ghost use Rattle.transfer.specs.Drains.{answer};
ghost use Rattle.intake.specs.Reports.{reported};

use sink::{Refusal, Tally};
use source::{End, Source};
use std::fmt;
use transfer::drain;

/// What a source gave: how many bytes, their sum, and how it ended.
#[derive(Clone, Copy)]
pub struct Report {
    tally: Tally,
    drained: Result<End, Refusal>,
}

impl Report {
    /// Takes in all that the source gives.
    pub fn of<S: Source + Drop>(mut source: S) -> Report
        ensures { (answer result.drained, tally_meaning result.tally) ≡ reported (S.Source.meaning source) }
    {
        let mut tally = Tally::new();
        let drained = drain(&mut source, &mut tally);
        Report { tally, drained }
    }
}

impl fmt::Display for Report {
    fn fmt<W: fmt::Write>(&self, f: &mut fmt::Formatter<W>) -> fmt::Result {
        let count = self.tally.count();
        let sum = self.tally.sum();
        write!(f, "bytes {count} sum {sum:08x} ")?;
        match self.drained {
            Ok(end) => write!(f, "{end}"),
            Err(Refusal::Full) => write!(f, "full"),
        }
    }
}
