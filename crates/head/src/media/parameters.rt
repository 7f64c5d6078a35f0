ghost use Rattle.std.specs.Prelude.{◌≡◌};
ghost use Rattle.head.specs.BoundaryBytes.{boundary_of};
ghost use Rattle.head.specs.Media.{parameters};
ghost use Rattle.head.specs.MediaReads.{later_pieces, ends_parameters, boundary_in, found_of, noted};

use super::parts::parameter_of;
use super::pieces::first_piece;
use super::tokens::trimmed;
use crate::boundary::Boundary;
use crate::boundary::reads::lawful_boundary;
use crate::names::is_named;

/// Whether the piece stands for no parameter, as the last one may.
fn ends_parameters(piece: &[u8], later: Option<&[u8]>) -> bool
    ensures { result ≡ ends_parameters piece.now later.entry }
{
    later.is_none() && piece.is_empty()
}

/// The boundary after one more parameter of that name, where that of those before it was found.
fn note(found: Option<Option<Boundary>>, text: &[u8]) -> Option<Boundary>
    ensures { boundary_of result ≡ noted (found_of found) text.now }
{
    match found {
        None => lawful_boundary(text),
        Some(_) => None,
    }
}

/// The one boundary among the parameters behind the first ';', if it is lawful; nothing where a parameter is broken.
pub(crate) fn boundary_in(behind: Option<&[u8]>) -> Option<Option<Boundary>>
    ensures { found_of result ≡ boundary_in (parameters (later_pieces behind.entry)) }
{
    let mut found = None;
    let mut rest = behind;
    while let Some(text) = rest {
        let (piece, later) = first_piece(text);
        let piece = trimmed(piece);
        if ends_parameters(piece, later) {
            break;
        }
        let (name, content) = parameter_of(piece)?;
        if is_named(b"boundary", name) {
            found = Some(note(found, content));
        }
        rest = later;
    }
    Some(found.flatten())
}
