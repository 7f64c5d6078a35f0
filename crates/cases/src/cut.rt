ghost use Rattle.std.specs.Prelude.{◌≡◌};
ghost use Rattle.source.specs.Meanings.{means};
ghost use Rattle.cases.specs.Cuts.{cut_meaning};

use source::{Block, End, Source};

/// A slice, and then any end: a source that is cut off.
#[derive(Drop)]
pub struct Cut<'a> {
    block: Block<'a>,
    end: End,
}

impl<'a> Cut<'a> {
    pub fn new(bytes: &'a [u8], end: End) -> Self
        ensures { cut_meaning result ≡ means bytes.now end }
    {
        Cut {
            block: Block::new(bytes),
            end,
        }
    }
}

impl Source for Cut<'_> {
    ghost meaning = { cut_meaning };

    fn pull(&mut self, buffer: &mut [u8]) -> Result<usize, End> {
        self.block.pull(buffer).or(Err(self.end))
    }
}
