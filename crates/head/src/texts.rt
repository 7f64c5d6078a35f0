ghost use Rattle.std.specs.Prelude.{◌≡◌};
ghost use Rattle.byte_lines.specs.Classes.{blank};
ghost use Rattle.byte_lines.specs.Strings.{trim_start, trim_end};
ghost use Rattle.head.specs.MediaReads.{Finds};

/// Whether the byte is SP or HTAB.
fn is_blank(b: u8) -> bool
    ensures { result ≡ blank b }
{
    matches!(b, b' ' | b'\t')
}

/// The text without the blanks at its start.
// Not the library's `trim_ascii_start`: CR, LF and FF are no blanks here.
pub(crate) fn trimmed_start(text: &[u8]) -> &[u8]
    ensures { result.now ≡ trim_start text.now }
{
    let start = text.iter().position(|b| !is_blank(*b));
    &text[start.unwrap_or(text.len())..]
}

/// The text without the blanks at its end.
// Nor `trim_ascii_end`, for the same reason.
pub(crate) fn trimmed_end(text: &[u8]) -> &[u8]
    ensures { result.now ≡ trim_end text.now }
{
    match text.iter().rposition(|b| !is_blank(*b)) {
        Some(last) => &text[..last + 1],
        None => &[],
    }
}

/// Where the first such byte stands.
#[tactic(auto, using(crate::proofs::Places::finds))]
pub(crate) fn find(sought: u8, text: &[u8]) -> Option<usize>
    ensures { Finds sought text.now result }
{
    text.iter().position(|b| *b == sought)
}
