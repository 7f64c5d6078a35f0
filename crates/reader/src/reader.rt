ghost use Rattle.std.specs.Prelude.{◌≡◌, ◌+◌, ◌≤◌, true};
ghost use Rattle.coding.specs.Decoders.{meaning as decoder_meaning, backlog};
ghost use Rattle.scan.specs.Streams.{passed_over};
ghost use Rattle.reader.specs.Stages.{owing, slack, line_fits};

use coding::Decoder;
use levels::Fit;
use message::Event;
use scan::Scan;
use source::{Fault, Source};

mod making;
mod nexts;

/// Where a reader stands in the message.
#[derive(Clone, Copy)]
pub(crate) enum Stage {
    /// Before a head.
    Head,
    /// In the body of the open part.
    Body,
    /// Behind a part, or where lines are dropped.
    Between,
    /// Behind a line of an open group, which stood at the offset `at`.
    Line { fit: Fit, at: u32 },
    /// At the message's end, which is an event or a fault.
    Over(Result<Event, Fault>),
}

/// Reads a message from a source.
#[derive(Drop)]
pub struct Reader<S: Source> {
    scan: Scan<S>,
    /// Decodes the body of the open part.
    decoder: Decoder,
    /// The reader's number, which its tickets carry.
    number: u32,
    /// How many entities were opened.
    entities: u32,
    /// How many decoded bytes were given.
    delivered: u32,
    stage: Stage,
    ghost within: { (decoder_meaning decoder).place + owing scan ≤ passed_over scan },
    ghost bounded: { delivered + backlog decoder ≤ (decoder_meaning decoder).place },
    ghost counted: { entities ≤ passed_over scan + slack stage },
    ghost fits: { line_fits stage scan ≡ true },
}
