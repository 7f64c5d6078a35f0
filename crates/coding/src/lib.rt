//! Transfer codings: what a raw body decodes to, fed in pieces.
#![tactic(auto)]

mod base64;
mod buffer;
mod coder;
mod decoder;
mod fed;
mod flaw;
mod flow;
mod laws;
mod quoted;

pub use decoder::{Coding, Decoder, StillReady};
pub use fed::Fed;
pub use laws::{base64_laws, quoted_laws};
