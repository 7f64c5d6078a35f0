ghost use Rattle.std.specs.Prelude.{◌≡◌, min, [], ◌∷◌, length};
ghost use Rattle.byte_lines.specs.Bytes.{Bytes};
ghost use Rattle.sink.specs.Meanings.{Meaning};
ghost use Rattle.sink.specs.Values.{store_meaning, written as written_step};

use crate::sinks::{Refusal, Sink};
use crate::store::Store;

/// How many bytes of its buffer a store uses at most.
const MOST: usize = 16_777_216;

impl<'a> Store<'a> {
    pub fn new(buffer: &'a mut [u8]) -> Self
        ensures { store_meaning result ≡ record {
          value = [];
          step = written_step;
          space = min (length buffer.old) 16777216;
          unwritten = buffer.old;
          lent = buffer.entry.ghost_name ∷ [];
        } }
    {
        Store { buffer, used: 0 }
    }

    /// The bytes written so far.
    pub fn written(&self) -> &[u8]
        ensures { result.now ≡ (store_meaning self.now).value }
    {
        &self.buffer[0..self.used]
    }

    fn room(&self) -> usize
        ensures { result ≡ (store_meaning self.now).space }
    {
        self.buffer.len().min(MOST) - self.used
    }
}

impl Sink for Store<'_> {
    ghost Kind = { Bytes };

    ghost meaning = { store_meaning };

    fn space(&self) -> u32 {
        self.room() as u32
    }

    fn take(&mut self, bytes: &[u8]) -> Result<(), Refusal> {
        if bytes.len() > self.room() {
            return Err(Refusal::Full);
        }
        // The project's form: a take goes byte by byte, as a sink's meaning is stepped, and not by one copy.
        for b in bytes {
            self.buffer[self.used] = *b;
            self.used += 1;
        }
        Ok(())
    }
}
