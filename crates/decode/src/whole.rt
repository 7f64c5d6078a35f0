ghost use Rattle.std.specs.Prelude.{◌≡◌, ℕ, ◌-◌, ◌≤◌, [], ◌++◌, length, take, drop, Some};
ghost use Rattle.byte_lines.specs.Bytes.{Bytes};
ghost use Rattle.source.specs.declared.ends.End.{End as Ending};
ghost use Rattle.source.specs.declared.ends.End.TheVariants.{Clean};
ghost use Rattle.coding.specs.Codings.{decoded};
ghost use Rattle.coding.specs.Decoding.{prefixed};
ghost use Rattle.coding.specs.Decoders.{limit, meaning, outlook};
ghost use Rattle.decode.specs.Wholes.{FedAll, Within, wholly, unfit_text};

use coding::{Coding, Decoder};
use source::End;
use std::error::Error;
use std::fmt;

/// No input is longer.
pub(crate) const LONGEST: usize = 16_777_216;

/// Why a body is not decoded.
#[derive(Clone, Copy, PartialEq, Eq, Debug)]
pub enum Unfit {
    /// It is longer than an input.
    TooLong,
    /// What it decodes to is longer than the buffer.
    NoRoom,
}

impl fmt::Display for Unfit {
    ghost output = { λ u. Some (unfit_text u) };

    fn fmt<W: fmt::Write>(&self, f: &mut fmt::Formatter<W>) -> fmt::Result {
        match self {
            Unfit::TooLong => write!(f, "a body of more than {LONGEST} bytes"),
            Unfit::NoRoom => write!(f, "a buffer too short for the decoded body"),
        }
    }
}

impl Error for Unfit {}

/// Feeds a raw body to a decoder until nothing waits: how many bytes stand at the buffer's start then. None where the buffer is full before.
fn feed_all(decoder: &mut Decoder, raw: &[u8], out: &mut [u8]) -> Option<usize>
    requires { length raw.now ≤ limit - (meaning decoder.old).place }
    ensures { FedAll (meaning decoder.old) (meaning decoder.new) raw.now out.old out.new result }
{
    let mut from = 0;
    let mut to = 0;
    while from < raw.len() || decoder.is_ready() {
        let fed = decoder.feed(&raw[from..], &mut out[to..]);
        if fed.taken + fed.given == 0 {
            return None;
        }
        from += fed.taken;
        to += fed.given;
    }
    Some(to)
}

/// Decodes a body that is no longer than an input: how many bytes it gives, and its end. None where the buffer is too short.
fn decode_within(coding: Coding, raw: &[u8], out: &mut [u8]) -> Option<(usize, End)>
    requires { length raw.now ≤ limit }
    ensures { Within (decoded coding 0 raw.now Clean) out.old out.new result }
{
    let mut decoder = Decoder::new(coding, 0);
    let given = feed_all(&mut decoder, raw, out)?;
    let _ = decoder.finish(End::Clean);
    let more = feed_all(&mut decoder, &[], &mut out[given..])?;
    Some((given + more, decoder.outcome().unwrap()))
}

/// Decodes a whole body into a buffer: how many bytes it gives, and its end. The buffer behind these is as it was. A buffer that is
/// too short holds the first of them.
pub fn decode_whole(coding: Coding, raw: &[u8], out: &mut [u8]) -> Result<(usize, End), Unfit>
    ensures { (result, out.new) ≡ wholly coding raw.now out.old }
{
    if raw.len() > LONGEST {
        return Err(Unfit::TooLong);
    }
    decode_within(coding, raw, out).ok_or(Unfit::NoRoom)
}
