ghost use Rattle.std.specs.Prelude.{◌≡◌, ◌+◌, ◌*◌, ◌<◌};
ghost use Rattle.chunked.specs.Framing.{digit as digit_step, behind_digits, in_data, in_extension, chunk as chunk_place, step, limit};

use crate::faults::Wrong;
use byte_lines::hex_value;
use source::End;

/// The largest size of a chunk.
const LARGEST: u32 = 16_777_216;

/// Where the next byte from below stands in the framing.
// No struct of a line and its value: `Size { line: Line { start, value }, digits }` is longer, and the definition of the framing takes the numbers apart.
#[derive(Clone, Copy)]
pub(crate) enum Place {
    /// In the size line that starts at `line`, behind so many digits of that value.
    Size { line: u32, digits: u32, value: u32 },
    /// In that line's extension.
    Extension { line: u32, value: u32 },
    /// Behind that line's CR.
    SizeEnd { line: u32, value: u32 },
    /// Before so many data bytes, and the CRLF behind them.
    Data { left: u32 },
    /// Behind the CR that stands at `place`, right after the data.
    DataEnd { place: u32 },
    /// At a trailer line's start.
    Trailer,
    /// Behind a CR at a trailer line's start.
    TrailerEmpty,
    /// Within a trailer line.
    TrailerText,
    /// Behind a CR within a trailer line.
    TrailerEnd,
}

fn in_digits(line: u32, digits: u32, value: u32, d: u8) -> Result<Place, End>
    ensures { result ≡ digit_step line digits (value * 16 + d) }
{
    let value = value.saturating_mul(16).saturating_add(u32::from(d));
    if digits < 8 && value <= LARGEST {
        Ok(Place::Size {
            line,
            digits: digits + 1,
            value,
        })
    } else {
        Err(Wrong::Size.at(line))
    }
}

fn behind_digits(line: u32, digits: u32, value: u32, b: u8) -> Result<Place, End>
    ensures { result ≡ behind_digits line digits value b }
{
    match b {
        _ if digits == 0 => Err(Wrong::Size.at(line)),
        b'\r' => Ok(Place::SizeEnd { line, value }),
        b';' | b' ' | b'\t' => Ok(Place::Extension { line, value }),
        _ => Err(Wrong::Size.at(line)),
    }
}

fn in_extension(line: u32, value: u32, b: u8) -> Result<Place, End>
    ensures { result ≡ in_extension line value b }
{
    match b {
        b'\r' => Ok(Place::SizeEnd { line, value }),
        b'\n' => Err(Wrong::Size.at(line)),
        _ => Ok(Place::Extension { line, value }),
    }
}

fn in_data(left: u32, at: u32, b: u8) -> Result<Place, End>
    ensures { result ≡ in_data left at b }
{
    match b {
        _ if left > 0 => Ok(Place::Data { left: left - 1 }),
        b'\r' => Ok(Place::DataEnd { place: at }),
        _ => Err(Wrong::Data.at(at)),
    }
}

/// The data of a chunk of that size, or after size 0 the trailer.
fn chunk(size: u32) -> Place
    ensures { result ≡ chunk_place size }
{
    match size {
        0 => Place::Trailer,
        left => Place::Data { left },
    }
}

impl Place {
    /// What the byte b, the one at the offset `at`, does here: the framing goes on at a place, or ends.
    pub(crate) fn step(self, at: u32, b: u8) -> Result<Place, End>
        requires { at < limit }
        ensures { result ≡ step self at b }
    {
        match self {
            Place::Size {
                line,
                digits,
                value,
            } => match hex_value(b) {
                Some(d) => in_digits(line, digits, value, d),
                None => behind_digits(line, digits, value, b),
            },
            Place::Extension { line, value } => in_extension(line, value, b),
            Place::SizeEnd { line, value } => match b {
                b'\n' => Ok(chunk(value)),
                _ => Err(Wrong::Size.at(line)),
            },
            Place::Data { left } => in_data(left, at, b),
            Place::DataEnd { place } => match b {
                b'\n' => Ok(Place::Size {
                    line: at + 1,
                    digits: 0,
                    value: 0,
                }),
                _ => Err(Wrong::Data.at(place)),
            },
            Place::Trailer => match b {
                b'\r' => Ok(Place::TrailerEmpty),
                _ => Ok(Place::TrailerText),
            },
            Place::TrailerEmpty => match b {
                b'\n' => Err(End::Clean),
                b'\r' => Ok(Place::TrailerEnd),
                _ => Ok(Place::TrailerText),
            },
            Place::TrailerText => match b {
                b'\r' => Ok(Place::TrailerEnd),
                _ => Ok(Place::TrailerText),
            },
            Place::TrailerEnd => match b {
                b'\n' => Ok(Place::Trailer),
                b'\r' => Ok(Place::TrailerEnd),
                _ => Ok(Place::TrailerText),
            },
        }
    }
}
