ghost use Rattle.std.specs.Prelude.{◌≡◌, []};
ghost use Rattle.head.specs.Entities.{boundary_byte, lawful};
ghost use Rattle.head.specs.BoundaryBytes.{boundary_bytes, boundary_of, if_lawful};

use super::{Boundary, LONGEST};

impl Boundary {
    /// A boundary of no bytes, which no multipart has.
    pub fn empty() -> Self
        ensures { boundary_bytes result ≡ [] }
    {
        Boundary {
            bytes: [0; LONGEST],
            len: 0,
        }
    }

    /// The boundary's bytes.
    pub fn as_bytes(&self) -> &[u8]
        ensures { result.now ≡ boundary_bytes self.now }
    {
        &self.bytes[0..self.len]
    }
}

/// Whether the byte may stand in a boundary.
fn is_boundary_byte(b: u8) -> bool
    ensures { result ≡ boundary_byte b }
{
    matches!(b, b' ' | b'\''..=b')' | b'+'..=b':' | b'=' | b'?' | b'A'..=b'Z' | b'_' | b'a'..=b'z')
}

/// Whether the text is lawful as a boundary.
#[tactic(auto, using(crate::proofs::LawfulTexts::false_lawful))]
fn is_lawful(text: &[u8]) -> bool
    ensures { result ≡ lawful text.now }
{
    match text {
        [] | [.., b' '] => false,
        _ => text.len() <= LONGEST && text.iter().all(|b| is_boundary_byte(*b)),
    }
}

/// The text as a boundary, if it is lawful as one.
pub(crate) fn lawful_boundary(text: &[u8]) -> Option<Boundary>
    ensures { boundary_of result ≡ if_lawful text.now }
{
    if !is_lawful(text) {
        return None;
    }
    let len = text.len();
    let mut bytes = [0; LONGEST];
    bytes[..len].copy_from_slice(text);
    Some(Boundary { bytes, len })
}
