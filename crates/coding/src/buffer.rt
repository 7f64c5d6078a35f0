ghost use Rattle.std.specs.Prelude.{◌≡◌, ◌≤◌, length};

mod moves;

/// At most N bytes.
// An array and a count, since a decoder is Copy, which the kit's ArrayVec is not, and holds no heap.
#[derive(Clone, Copy)]
pub(crate) struct Buffer<const N: usize> {
    all: [u8; N],
    len: usize,
    ghost whole: { length all ≡ N },
    ghost within: { len ≤ N },
}
