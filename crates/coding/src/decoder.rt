ghost use Rattle.std.specs.Prelude.{◌≤◌};
ghost use Rattle.coding.specs.Modes.{held_by};

use crate::base64::Base64;
use crate::coder::Ready;
use crate::quoted::Quoted;
use source::End;

mod feeds;
mod modes;

/// How a body is coded for its transfer.
#[derive(Clone, Copy, PartialEq, Eq, Debug)]
pub enum Coding {
    Plain,
    Quoted,
    Base64,
}

#[derive(Clone, Copy)]
pub(crate) enum Mode {
    Plain,
    Base64(Base64),
    Quoted(Quoted),
    /// Nothing more is given, and the body's end stays what it is.
    Spent,
    /// Nothing more is given, and this is the body's end.
    Ended(End),
}

/// Decodes a raw body that is fed to it in pieces.
#[derive(Clone, Copy)]
pub struct Decoder {
    /// Decoded bytes that wait to be given.
    ready: Ready,
    /// The offset of the next raw byte.
    at: u32,
    mode: Mode,
    ghost behind: { held_by mode ≤ at },
}

/// The end of a body is refused, since a decoded byte still waits to be given.
#[derive(Clone, Copy, PartialEq, Eq, Debug)]
pub struct StillReady;
