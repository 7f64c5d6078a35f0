ghost use Rattle.std.specs.Prelude.{◌≤◌};

pub(crate) mod reads;

/// How many bytes a boundary has at most.
const LONGEST: usize = 70;

/// The boundary of a multipart.
// An array and a length, since a boundary is Copy and holds no heap.
#[derive(Clone, Copy)]
pub struct Boundary {
    bytes: [u8; LONGEST],
    len: usize,
    ghost fits: { len ≤ 70 },
}
