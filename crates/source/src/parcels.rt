ghost use Rattle.std.specs.Prelude.{◌≡◌, ◌<◌, length};
ghost use Rattle.std.specs.List.{flat_map};
ghost use Rattle.source.specs.declared.ends.End.TheVariants.{Clean};
ghost use Rattle.byte_lines.specs.Bytes.{Bytes};
ghost use Rattle.source.specs.Meanings.{Pulls, answer, means};
ghost use Rattle.source.specs.Slices.{parcels_meaning, parcels_left, cut, portion};

use crate::block::Block;
use crate::ends::End;
use crate::sources::Source;

/// A slice by a list of lengths, then a clean end. A pull never crosses a parcel's end.
///
/// Zero lengths are passed over, lengths beyond the slice are clipped, and bytes after the last length form one more parcel.
#[derive(Drop)]
pub struct Parcels<'a> {
    block: Block<'a>,
    /// How much of the block belongs to the parcel at hand, if there is as much.
    left: usize,
    /// The lengths of the parcels after it.
    lengths: &'a [u32],
}

impl<'a> Parcels<'a> {
    pub fn new(bytes: &'a [u8], lengths: &'a [u32]) -> Self
        ensures meaning { parcels_meaning result ≡ means bytes.now Clean }
        ensures parcels { parcels_left result ≡ cut lengths.now bytes.now }
        ensures whole { flat_map (λ (p : Bytes). p) (parcels_left result) ≡ bytes.now }
    {
        Parcels {
            block: Block::new(bytes),
            left: 0,
            lengths,
        }
    }

    /// Goes on to the next parcel that has any bytes, where none is left of the one at hand. Behind the last length, all that is
    /// left is a parcel.
    fn go_on(&mut self)
        ensures some { 0 < self.new.left }
        ensures block { self.new.block ≡ self.old.block }
        ensures same { parcels_left self.new ≡ parcels_left self.old }
    {
        if self.left > 0 {
            return;
        }
        match self.lengths.iter().position(|n| *n > 0) {
            Some(i) => {
                self.left = self.lengths[i] as usize;
                self.lengths = &self.lengths[i + 1..];
            }
            None => {
                self.left = usize::MAX;
                self.lengths = &[];
            }
        }
    }
}

impl Source for Parcels<'_> {
    ghost meaning = { parcels_meaning };

    fn pull(&mut self, buffer: &mut [u8]) -> Result<usize, End>
        ensures pulls { Pulls (parcels_meaning self.old) buffer.old (answer result) (parcels_meaning self.new) buffer.new }
        ensures keeps { (answer result, parcels_left self.new) ≡ portion (length buffer.old) (parcels_left self.old) }
    {
        if buffer.is_empty() {
            return Ok(0);
        }
        if self.block.is_empty() {
            return Err(End::Clean);
        }
        // Not before these tests: each is answered without a look at the lengths, however many of them are zero.
        self.go_on();
        let room = self.left.min(buffer.len());
        let n = self.block.pull(&mut buffer[0..room])?;
        self.left -= n;
        Ok(n)
    }
}
