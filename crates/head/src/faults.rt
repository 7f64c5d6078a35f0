ghost use Rattle.std.specs.Prelude.{◌≡◌, ◌≤◌, OnOk};
ghost use Rattle.byte_lines.specs.Lines.{lines};
ghost use Rattle.head.specs.Fields.{is_field, continues};
ghost use Rattle.head.specs.LineFaults.{unclean, judged};
ghost use Rattle.head.specs.Judging.{fault_number, verdict_of, name_byte, JudgesLine};

use byte_lines::{LineSpan, first_line};

/// How many bytes a field's name may have.
const LONGEST_NAME: usize = 64;

/// How many bytes a head may have, with the CRLFs of its lines.
const MOST_BYTES: usize = 8192;

/// How many fields a head may have.
const MOST_FIELDS: u32 = 64;

/// What is wrong with a head.
#[derive(Clone, Copy, PartialEq, Eq, Debug)]
pub enum HeadFault {
    /// A line ends behind the head's first 8,192 bytes.
    TooLong = 41,
    /// A line is no field and continues none, or has NUL, or a CR or LF that does not end it.
    Malformed = 42,
    /// A 65th field.
    TooManyFields = 43,
    /// A Content-Type, Content-Transfer-Encoding or Content-Disposition stands twice.
    Repeated = 44,
    /// A multipart has a coding, or one that is not known.
    CodedGroup = 45,
    /// A multipart has no boundary, more than one, or one that is not lawful.
    BadBoundary = 46,
    /// A multipart stands in eight groups.
    TooDeep = 47,
}

impl HeadFault {
    /// The fault's number.
    pub fn number(self) -> u32
        ensures { result ≡ fault_number self }
    {
        self as u32
    }
}

/// A fault, and its offset in the head.
#[derive(Clone, Copy, PartialEq, Eq, Debug)]
pub struct FaultAt {
    pub fault: HeadFault,
    pub offset: u32,
}

/// Whether the byte may stand in a field's name: 33 to 126 without ':'.
fn is_name_byte(b: u8) -> bool
    ensures { result ≡ name_byte b }
{
    matches!(b, b'!'..=b'~') && b != b':'
}

/// Whether the line is a field line: a name of 1 to 64 bytes, and then ':'.
fn is_field(line: &[u8]) -> bool
    ensures { result ≡ is_field line.now }
{
    match line.iter().position(|b| !is_name_byte(*b)) {
        Some(len) => line[len] == b':' && 0 < len && len <= LONGEST_NAME,
        None => false,
    }
}

/// Whether NUL, or a CR or LF that ends no line, stands in the line.
fn is_unclean(line: &[u8]) -> bool
    ensures { result ≡ unclean line.now }
{
    line.iter().any(|b| matches!(b, b'\0' | b'\r' | b'\n'))
}

/// Whether the line continues the field before it.
pub(crate) fn continues_field(line: &[u8]) -> bool
    ensures { result ≡ continues line.now }
{
    matches!(line, [b' ' | b'\t', ..])
}

/// How many fields there are up to the line, which ends behind so many bytes of the head and stands behind so many fields.
fn judge_line(line: &[u8], end: usize, fields: u32) -> Result<u32, HeadFault>
    ensures fits { OnOk result (end ≤ 8192) }
    ensures judges { JudgesLine result line.now end fields }
{
    if end > MOST_BYTES {
        return Err(HeadFault::TooLong);
    }
    if is_unclean(line) {
        return Err(HeadFault::Malformed);
    }
    if is_field(line) {
        if fields < MOST_FIELDS {
            Ok(fields + 1)
        } else {
            Err(HeadFault::TooManyFields)
        }
    } else if continues_field(line) && fields > 0 {
        Ok(fields)
    } else {
        Err(HeadFault::Malformed)
    }
}

/// How many fields a head's lines have, or the first fault.
pub fn judge(head: &[u8]) -> Result<u32, FaultAt>
    ensures { verdict_of result ≡ judged 0 0 (lines head.now) }
{
    let mut rest = head;
    let mut fields = 0;
    while !rest.is_empty() {
        let LineSpan { len, width } = first_line(rest);
        let at = head.len() - rest.len();
        let offset = at as u32;
        fields = judge_line(&rest[..len], at + width, fields).map_err(|fault| FaultAt {
            fault,
            offset,
        })?;
        rest = &rest[width..];
    }
    Ok(fields)
}
