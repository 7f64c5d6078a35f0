ghost use Rattle.std.specs.Prelude.{◌≡◌, ◌≤◌, codes, Ok};
ghost use Rattle.head.specs.BoundaryBytes.{boundary_of};
ghost use Rattle.head.specs.Entities.{entity, leaf_of};
ghost use Rattle.head.specs.Fields.{values_of};
ghost use Rattle.head.specs.Openings.{coded_by, entity_by, entity_from, CodingIs};
ghost use Rattle.head.specs.Summaries.{told, multipart};

use crate::boundary::Boundary;
use crate::codings::coding_of;
use crate::faults::HeadFault;
use crate::lookup::Fields;
use crate::media::{Media, read_media};
use coding::Coding;

/// How many groups may be open.
const MOST_GROUPS: u32 = 8;

/// A leaf's mark of a broken Content-Type. A leaf has the sum of its marks.
const BROKEN_TYPE: u32 = 1;

/// A leaf's mark of a coding that is not known.
const UNKNOWN_CODING: u32 = 2;

/// What a head's fields make of its entity.
#[derive(Clone, Copy)]
pub(crate) enum Opening {
    Leaf { coding: Coding, marks: u32 },
    Group(Boundary),
}

/// The transfer coding, none if it is not known. A field that stands twice is refused.
fn coding_in(fields: &Fields) -> Result<Option<Coding>, HeadFault>
    ensures { CodingIs result (values_of (codes "content-transfer-encoding") fields.now) }
{
    match fields.lookup(b"content-transfer-encoding")? {
        Some(value) => Ok(coding_of(value)),
        None => Ok(Some(Coding::Plain)),
    }
}

/// A leaf with that coding, and that mark of its Content-Type.
fn leaf(coding: Option<Coding>, mark: u32) -> Opening
    requires { mark ≤ 1 }
    ensures { entity_by (Ok result) ≡ leaf_of (coded_by coding) mark }
{
    match coding {
        Some(coding) => Opening::Leaf {
            coding,
            marks: mark,
        },
        None => Opening::Leaf {
            coding: Coding::Plain,
            marks: UNKNOWN_CODING + mark,
        },
    }
}

/// A multipart with that coding and boundary, where so many groups are open around it.
fn group(
    around: u32,
    coding: Option<Coding>,
    boundary: Option<Boundary>,
) -> Result<Opening, HeadFault>
    ensures { entity_by result ≡ entity_from around (multipart (boundary_of boundary)) (coded_by coding) }
{
    if coding != Some(Coding::Plain) {
        return Err(HeadFault::CodedGroup);
    }
    let boundary = boundary.ok_or(HeadFault::BadBoundary)?;
    if around >= MOST_GROUPS {
        return Err(HeadFault::TooDeep);
    }
    Ok(Opening::Group(boundary))
}

/// The entity of a head with a Content-Type.
fn typed(around: u32, coding: Option<Coding>, media: Option<Media>) -> Result<Opening, HeadFault>
    ensures { entity_by result ≡ entity_from around (told media) (coded_by coding) }
{
    match media {
        None => Ok(leaf(coding, BROKEN_TYPE)),
        Some(Media::Single) => Ok(leaf(coding, 0)),
        Some(Media::Multipart(boundary)) => group(around, coding, boundary),
    }
}

/// The entity of a head with these fields, where so many groups are open around it.
pub(crate) fn decide(around: u32, fields: &Fields) -> Result<Opening, HeadFault>
    ensures { entity_by result ≡ entity around fields.now }
{
    let coding = coding_in(fields)?;
    fields.lookup(b"content-disposition")?;
    match fields.lookup(b"content-type")? {
        Some(value) => typed(around, coding, read_media(value)),
        None => Ok(leaf(coding, 0)),
    }
}
