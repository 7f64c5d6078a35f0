//! Chunked framing, as a source over any source.
#![tactic(auto)]

mod faults;
mod laws;
mod places;
mod reader;

pub use laws::framing_laws;
pub use reader::Chunked;
