ghost use Rattle.std.specs.Prelude.{◌≡◌, length, ◌==◌};
ghost use Rattle.source.specs.declared.ends.End.TheVariants.{Clean};
ghost use Rattle.source.specs.Meanings.{Pulls, answer, means};
ghost use Rattle.source.specs.Slices.{block_meaning, most};

use crate::ends::End;
use crate::sources::Source;

/// All of a slice, then a clean end. Each pull gives as much as the buffer holds.
#[derive(Drop)]
pub struct Block<'a> {
    rest: &'a [u8],
}

impl<'a> Block<'a> {
    pub fn new(bytes: &'a [u8]) -> Self
        ensures { block_meaning result ≡ means bytes.now Clean }
    {
        Block { rest: bytes }
    }

    /// Whether all was given.
    pub(crate) fn is_empty(&self) -> bool
        ensures { result ≡ (length self.now.rest.now == 0) }
    {
        self.rest.is_empty()
    }
}

impl Source for Block<'_> {
    ghost meaning = { block_meaning };

    fn pull(&mut self, buffer: &mut [u8]) -> Result<usize, End>
        ensures pulls { Pulls (block_meaning self.old) buffer.old (answer result) (block_meaning self.new) buffer.new }
        ensures gives { (answer result, block_meaning self.new, buffer.new) ≡ most (block_meaning self.old) buffer.old }
    {
        if buffer.is_empty() {
            return Ok(0);
        }
        if self.rest.is_empty() {
            return Err(End::Clean);
        }
        let n = self.rest.len().min(buffer.len());
        let (first, rest) = self.rest.split_at(n);
        buffer[0..n].copy_from_slice(first);
        self.rest = rest;
        Ok(n)
    }
}
