ghost use Rattle.std.specs.Prelude.{◌≡◌};
ghost use Rattle.sink.specs.Meanings.{Meaning, answer, taken};

/// Why a sink takes none of the bytes.
#[derive(Clone, Copy, PartialEq, Eq, Debug)]
pub enum Refusal {
    /// There are more of them than space.
    Full,
}

/// A value that bytes change one by one, as far as the space goes.
pub trait Sink {
    ghost Kind: { Type 0 };

    ghost meaning: { Self → Meaning Kind };

    /// How many bytes may still be taken.
    fn space(&self) -> u32
        ensures { result ≡ (meaning self.now).space };

    /// Takes all the bytes in their order, or none.
    fn take(&mut self, bytes: &[u8]) -> Result<(), Refusal>
        ensures { (answer result, meaning self.new) ≡ taken (meaning self.old) bytes.now };
}
