ghost use Rattle.std.specs.Prelude.{◌≡◌};
ghost use Rattle.head.specs.Media.{media_type};
ghost use Rattle.head.specs.Summaries.{told, summary};

use crate::boundary::Boundary;
use parameters::boundary_in;
use parts::multipart_type;
use pieces::first_piece;
use tokens::trimmed;

mod parameters;
mod parts;
mod pieces;
mod tokens;

/// What a lawful Content-Type says: a type other than multipart, or a multipart with its boundary, if it has just one and that is lawful.
#[derive(Clone, Copy)]
pub(crate) enum Media {
    Single,
    Multipart(Option<Boundary>),
}

/// What the value of a Content-Type says, if it is lawful.
pub(crate) fn read_media(value: &[u8]) -> Option<Media>
    ensures { told result ≡ summary (media_type value.now) }
{
    let (first, later) = first_piece(value);
    let is_multipart = multipart_type(trimmed(first))?;
    let boundary = boundary_in(later)?;
    if is_multipart {
        Some(Media::Multipart(boundary))
    } else {
        Some(Media::Single)
    }
}
