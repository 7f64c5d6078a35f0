ghost use Rattle.sink.specs.Values.{Count, tally_meaning};

use crate::sinks::{Refusal, Sink};
use crate::tally::Tally;

impl Sink for Tally {
    ghost Kind = { Count };

    ghost meaning = { tally_meaning };

    fn space(&self) -> u32 {
        u32::MAX - self.count
    }

    fn take(&mut self, bytes: &[u8]) -> Result<(), Refusal> {
        if bytes.len() > self.space() as usize {
            return Err(Refusal::Full);
        }
        // The project's form: a take goes byte by byte, as a sink's meaning is stepped.
        for b in bytes {
            self.sum = (self.sum ^ u32::from(*b)).wrapping_mul(16_777_619);
            self.count += 1;
        }
        Ok(())
    }
}
