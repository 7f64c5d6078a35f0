ghost use Rattle.std.specs.Prelude.{◌≡◌, []};
ghost use Rattle.sink.specs.Values.{Count, counted, none, tally_meaning};

mod takes;

/// Counts the bytes, and sums them up by FNV-1a in 32 bits.
#[derive(Clone, Copy)]
pub struct Tally {
    count: u32,
    sum: u32,
}

impl Tally {
    pub fn new() -> Self
        ensures { tally_meaning result ≡ record { value = none; step = counted; space = 4294967295; unwritten = []; lent = [] } }
    {
        Tally {
            count: 0,
            sum: 2_166_136_261,
        }
    }

    /// How many bytes were taken.
    pub fn count(&self) -> u32
        ensures { result ≡ (tally_meaning self.now).value.count }
    {
        self.count
    }

    /// Their FNV-1a sum.
    pub fn sum(&self) -> u32
        ensures { result ≡ (tally_meaning self.now).value.sum }
    {
        self.sum
    }
}
