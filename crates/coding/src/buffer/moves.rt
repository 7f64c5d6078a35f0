ghost use Rattle.std.specs.Prelude.{◌≡◌, ◌+◌, ◌<◌, ◌≤◌, min, [], ◌∷◌, ◌++◌, length, take, drop, ◌==◌};
ghost use Rattle.coding.specs.Buffers.{items};

use crate::buffer::Buffer;

impl<const N: usize> Buffer<N> {
    pub(crate) fn new() -> Self
        ensures { items result ≡ [] }
    {
        Buffer {
            all: [0; N],
            len: 0,
        }
    }

    /// Of these bytes.
    pub(crate) fn of(bytes: &[u8]) -> Self
        requires { length bytes.now ≤ N }
        ensures { items result ≡ bytes.now }
    {
        let mut all = [0; N];
        all[..bytes.len()].copy_from_slice(bytes);
        Buffer {
            all,
            len: bytes.len(),
        }
    }

    /// Has these bytes then, in place of its own.
    pub(crate) fn set(&mut self, bytes: &[u8])
        requires { length bytes.now ≤ N }
        ensures { items self.new ≡ bytes.now }
    {
        self.all[..bytes.len()].copy_from_slice(bytes);
        self.len = bytes.len();
    }

    pub(crate) fn as_slice(&self) -> &[u8]
        ensures { result.now ≡ items self.now }
    {
        &self.all[..self.len]
    }

    pub(crate) fn len(&self) -> usize
        ensures { result ≡ length (items self.now) }
    {
        self.len
    }

    pub(crate) fn is_empty(&self) -> bool
        ensures { result ≡ (length (items self.now) == 0) }
    {
        self.len == 0
    }

    pub(crate) fn clear(&mut self)
        ensures { items self.new ≡ [] }
    {
        self.len = 0;
    }

    pub(crate) fn push(&mut self, b: u8)
        requires { length (items self.old) < N }
        ensures { items self.new ≡ items self.old ++ (b ∷ []) }
    {
        self.all[self.len] = b;
        self.len += 1;
    }

    /// Gives as many as the buffer takes, at its start.
    pub(crate) fn give(&mut self, out: &mut [u8]) -> usize
        ensures count { result ≡ min (length (items self.old)) (length out.old) }
        ensures rest { items self.new ≡ drop result (items self.old) }
        ensures filled { out.new ≡ take result (items self.old) ++ drop result out.old }
    {
        let n = self.len.min(out.len());
        out[..n].copy_from_slice(&self.all[..n]);
        self.all.copy_within(n..self.len, 0);
        self.len -= n;
        n
    }
}
