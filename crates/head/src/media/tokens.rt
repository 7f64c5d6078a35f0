ghost use Rattle.std.specs.Prelude.{◌≡◌};
ghost use Rattle.byte_lines.specs.Strings.{trim};
ghost use Rattle.head.specs.Media.{token_byte, token};

use crate::texts::{trimmed_end, trimmed_start};

/// Whether the byte may stand in a token.
fn is_token_byte(b: u8) -> bool
    ensures { result ≡ token_byte b }
{
    matches!(b, b'!' | b'#'..=b'\'' | b'*' | b'+' | b'-' | b'.' | b'0'..=b'9' | b'A'..=b'Z' | b'^'..=b'~')
}

/// Whether the text is a token.
pub(crate) fn is_token(text: &[u8]) -> bool
    ensures { result ≡ token text.now }
{
    !text.is_empty() && text.iter().all(|b| is_token_byte(*b))
}

/// The text without the blanks at its ends.
pub(crate) fn trimmed(text: &[u8]) -> &[u8]
    ensures { result.now ≡ trim text.now }
{
    trimmed_start(trimmed_end(text))
}
