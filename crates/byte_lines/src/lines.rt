ghost use Rattle.byte_lines.specs.Spans.{FirstLine};

/// A line at a text's start: how many bytes it has, and how many it takes with its CRLF.
#[derive(Clone, Copy, PartialEq, Eq, Debug)]
pub struct LineSpan {
    pub len: usize,
    pub width: usize,
}

/// The text's first line. An empty text has none, and its span is empty.
pub fn first_line(text: &[u8]) -> LineSpan
    ensures { FirstLine text.now result.len result.width }
{
    match text.windows(2).position(|pair| pair == b"\r\n".as_slice()) {
        Some(len) => LineSpan {
            len,
            width: len + 2,
        },
        None => LineSpan {
            len: text.len(),
            width: text.len(),
        },
    }
}
