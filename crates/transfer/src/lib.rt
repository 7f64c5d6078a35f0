//! All that a source gives, into a sink.
#![tactic(auto)]

mod drains;

pub use drains::drain;
