//! Messages: events, the definition of a message's row of events, and its laws.
#![tactic(auto)]

mod events;
mod laws;

pub use events::{Event, Kind};
pub use laws::{body_laws, line_laws, row_laws};
