ghost use Rattle.std.specs.Prelude.{◌≡◌, [], ◌∷◌};
ghost use Rattle.head.specs.Entities.{coding_of};
ghost use Rattle.head.specs.Openings.{coded_by};

use crate::names::is_named;
use coding::Coding;

/// The coding that the value of a Content-Transfer-Encoding names, if it is known.
pub(crate) fn coding_of(value: &[u8]) -> Option<Coding>
    ensures { coded_by result ≡ coding_of (value.now ∷ []) }
{
    if is_named(b"7bit", value) || is_named(b"8bit", value) || is_named(b"binary", value) {
        Some(Coding::Plain)
    } else if is_named(b"quoted-printable", value) {
        Some(Coding::Quoted)
    } else if is_named(b"base64", value) {
        Some(Coding::Base64)
    } else {
        None
    }
}
