ghost use Rattle.source.specs.Meanings.{Meaning, Pulls, answer};

use crate::ends::End;

/// Bytes to come, and an end behind them.
pub trait Source {
    ghost meaning: { Self → Meaning };

    /// Gives the first bytes to come at the buffer's start, at least one if there are any, and answers how many: that is the
    /// source's choice. With none to come it answers the end, each time. An empty buffer gets 0 bytes in any case.
    fn pull(&mut self, buffer: &mut [u8]) -> Result<usize, End>
        ensures { Pulls (meaning self.old) buffer.old (answer result) (meaning self.new) buffer.new };
}
