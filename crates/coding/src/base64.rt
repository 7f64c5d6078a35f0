ghost use Rattle.std.specs.Prelude.{◌≡◌, true};
ghost use Rattle.coding.specs.Sextets.{six_bits};

mod groups;
mod steps;

/// The characters that wait for a fourth, by what they stand for.
#[derive(Clone, Copy)]
pub(crate) enum Sextets {
    None,
    One(u8),
    Two(u8, u8),
    Three(u8, u8, u8),
}

/// Base64, behind characters that wait.
#[derive(Clone, Copy)]
pub(crate) struct Base64 {
    held: Sextets,
    ghost small: { six_bits held ≡ true },
}
