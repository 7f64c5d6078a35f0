ghost use Rattle.std.specs.Prelude.{◌≡◌, ℕ, ◌+◌, ◌≤◌, [], ◌∷◌, ◌++◌, length, take, drop};
ghost use Rattle.byte_lines.specs.Bytes.{Bytes};
ghost use Rattle.source.specs.declared.ends.End.{End as Ending};
ghost use Rattle.coding.specs.Buffers.{items};
ghost use Rattle.coding.specs.Decoding.{Decoded, gives, prefixed};
ghost use Rattle.coding.specs.Flowing.{flowing, still_held};

use crate::buffer::Buffer;
use crate::fed::Fed;
use crate::flow::Flow;
use source::End;

/// How many decoded bytes may wait: what one raw byte can set free, an `=`, 76 blanks, a CR and the byte itself.
pub(crate) const MOST_READY: usize = 80;

/// Decoded bytes that wait to be given.
pub(crate) type Ready = Buffer<MOST_READY>;

/// What decodes the raw bytes to come, by those that it has taken.
pub(crate) trait Coder {
    /// What the raw bytes from an offset on give, by the end behind them.
    ghost later: { Self → (at : ℕ) → (raw : Bytes) → Ending → Decoded };

    /// How many raw bytes are held back.
    ghost held: { Self → ℕ };

    /// How many bytes what is held back may still give at most.
    ghost backlog: { Self → ℕ };

    /// Decodes leading raw bytes that need not be held back straight into the buffer; there may be none.
    fn run(&self, raw: &[u8], out: &mut [u8]) -> Fed
        ensures took { result.taken ≤ length raw.now }
        ensures gave { result.given ≤ length out.old }
        ensures kept { drop result.given out.new ≡ drop result.given out.old }
        ensures whole { (at : ℕ) (q : Bytes) (e : Ending) → later self.now at (raw.now ++ q) e ≡ prefixed (take result.given out.new) (later self.now (at + result.taken) (drop result.taken raw.now ++ q) e) }
        ensures fewer { result.given ≤ result.taken };

    /// Takes the raw byte at the offset `at`: how it goes on. What it sets free is put in place of what was ready.
    // No answer of both: copies of what is ready made a byte dearer by half.
    fn step(&mut self, at: u32, b: u8, ready: &mut Ready) -> Flow
        requires { held self.old ≤ at }
        ensures whole { (q : Bytes) (e : Ending) → later self.old at (b ∷ q) e ≡ prefixed (items ready.new) (flowing result (later self.new (at + 1)) q e) }
        ensures behind { held self.new ≤ at + 1 }
        ensures fewer { length (items ready.new) + still_held result (backlog self.new) ≤ backlog self.old + 1 };

    /// The raw body ends at the offset `at`: the decoded body's end, and what is set free.
    fn finish(&self, at: u32, end: End) -> (End, Ready)
        requires { held self.now ≤ at }
        ensures { later self.now at [] end ≡ gives (items result.1) result.0 };
}
