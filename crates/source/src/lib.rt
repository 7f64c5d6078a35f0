//! Byte sources: what they mean, and those that give a slice.
#![tactic(auto)]

mod block;
mod ends;
mod parcels;
mod sources;

pub use block::Block;
pub use ends::{End, Fault};
pub use parcels::Parcels;
pub use sources::Source;
