//! Heads: fields, Content-Type, boundary, coding, and every head fault.
#![tactic(auto)]

mod boundary;
mod codings;
mod faults;
mod heads;
mod laws;
mod lookup;
mod media;
mod names;
mod opening;
mod packs;
mod table;
mod texts;

pub use boundary::Boundary;
pub use faults::{FaultAt, HeadFault, judge};
pub use heads::{Head, HeadError, Short, clear_head, read_head};
pub use laws::{media_law, packing_law};
pub use table::Record;
