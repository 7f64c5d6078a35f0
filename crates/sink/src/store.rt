ghost use Rattle.std.specs.Prelude.{◌≤◌, min, length};

mod takes;

/// Writes the bytes to a buffer, from its start.
#[derive(Drop)]
pub struct Store<'a> {
    // Not two slices, the part written and the part free: no slice grows, and `written` hands out the whole front.
    buffer: &'a mut [u8],
    used: usize,
    ghost within: { used ≤ min (length buffer.now) 16777216 },
}
