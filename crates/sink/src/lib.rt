//! Sinks: what they mean, a store of bytes, and a tally of them.
#![tactic(auto)]

mod sinks;
mod store;
mod tally;

pub use sinks::{Refusal, Sink};
pub use store::Store;
pub use tally::Tally;
