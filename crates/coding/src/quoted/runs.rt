ghost use Rattle.std.specs.Prelude.{◌≡◌, ℕ, true};
ghost use Rattle.byte_lines.specs.Classes.{hex};
ghost use Rattle.coding.specs.Quoted.{byte_of};
ghost use Rattle.coding.specs.QuotedTokens.{Stands, Reads};

use crate::quoted::Token;
use byte_lines::hex_value;

// Two tables of numbers for speed: 580 MB/s, where one `match` of the three bytes has 370.

/// Of each byte: `1` for a blank, `2` for an `=` or a CR, `0` for any other.
const FIRST: [u8; 256] = *b"0000000001000200000000000000000010000000000000000000000000000200\
    0000000000000000000000000000000000000000000000000000000000000000\
    0000000000000000000000000000000000000000000000000000000000000000\
    0000000000000000000000000000000000000000000000000000000000000000";

/// Of each byte: `1` for a blank or a CR, `2` for any other.
const NEXT: [u8; 256] = *b"2222222221222122222222222222222212222222222222222222222222222222\
    2222222222222222222222222222222222222222222222222222222222222222\
    2222222222222222222222222222222222222222222222222222222222222222\
    2222222222222222222222222222222222222222222222222222222222222222";

/// The byte `b` stands for itself if `next` follows.
fn is_itself(b: u8, next: u8) -> bool
    ensures { result ≡ true → Stands b next }
{
    FIRST[usize::from(b)] < NEXT[usize::from(next)]
}

/// The byte that an `=` and two such digits stand for, if both are digits.
pub(crate) fn escaped(high: u8, low: u8) -> Option<u8>
    ensures { result ≡ byte_of (hex high) (hex low) }
{
    Some(hex_value(high)? * 16 + hex_value(low)?)
}

/// What stands first in `a`, `b`, `c`; None where the line's further bytes decide.
pub(crate) fn token(a: u8, b: u8, c: u8) -> Option<Token>
    ensures { Reads result a b c }
{
    if is_itself(a, b) {
        return Some(Token::Itself);
    }
    match (a, b, c) {
        (b'=', b'\r', b'\n') => Some(Token::Soft),
        (b'=', _, _) => Some(Token::Byte(escaped(b, c)?)),
        (b'\r', b'\n', _) => Some(Token::Hard),
        _ => None,
    }
}
