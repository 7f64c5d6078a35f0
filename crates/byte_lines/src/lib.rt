//! Bytes and lines, as several grammars share them.
#![tactic(auto)]

ghost use Rattle.std.specs.Prelude.{◌≡◌};
ghost use Rattle.byte_lines.specs.Classes.{hex};

mod lines;

pub use lines::{LineSpan, first_line};

/// The value of a hexadecimal digit of either case.
pub fn hex_value(b: u8) -> Option<u8>
    ensures { result ≡ hex b }
{
    // Ranges as cases, the project's form for classes of bytes, and not `to_digit`, which asks for a char.
    match b {
        b'0'..=b'9' => Some(b - b'0'),
        b'A'..=b'F' => Some(b - b'A' + 10),
        b'a'..=b'f' => Some(b - b'a' + 10),
        _ => None,
    }
}
