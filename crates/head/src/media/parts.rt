ghost use Rattle.std.specs.Prelude.{◌≡◌, false};
ghost use Rattle.head.specs.Media.{quoted_content, content, parameter};
ghost use Rattle.head.specs.MediaReads.{shown, shown_parameter, closes, token_of, multipart_type};

use super::tokens::is_token;
use crate::names::is_named;
use crate::texts::find;

/// Whether the text behind a '"' is the rest of a quoted string.
fn is_closed(text: &[u8]) -> bool
    ensures { result ≡ closes text.now false }
{
    let mut protected = false;
    for (i, b) in text.iter().enumerate() {
        if protected {
            protected = false;
        } else if *b == b'"' {
            return text.len() - i == 1;
        } else {
            protected = *b == b'\\';
        }
    }
    false
}

/// The content of a quoted string from behind its first '"'.
fn quoted(text: &[u8]) -> Option<&[u8]>
    ensures { shown result ≡ quoted_content text.now }
{
    if is_closed(text) {
        Some(&text[..text.len() - 1])
    } else {
        None
    }
}

/// The text, if it is a token.
fn token(text: &[u8]) -> Option<&[u8]>
    ensures { shown result ≡ token_of text.now }
{
    if is_token(text) { Some(text) } else { None }
}

/// A token, or a quoted string by its content.
fn content_of(text: &[u8]) -> Option<&[u8]>
    ensures { shown result ≡ content text.now }
{
    match text {
        [b'"', behind @ ..] => quoted(behind),
        _ => token(text),
    }
}

/// A parameter's name and value.
pub(crate) fn parameter_of(text: &[u8]) -> Option<(&[u8], &[u8])>
    ensures { shown_parameter result ≡ parameter text.now }
{
    let i = find(b'=', text)?;
    let name = token(&text[..i])?;
    let value = content_of(&text[i + 1..])?;
    Some((name, value))
}

/// Whether the type is multipart; none where the text is no type.
pub(crate) fn multipart_type(text: &[u8]) -> Option<bool>
    ensures { result ≡ multipart_type text.now }
{
    let i = find(b'/', text)?;
    let name = token(&text[..i])?;
    token(&text[i + 1..])?;
    Some(is_named(b"multipart", name))
}
