//! Where a head ends, found in the input's window.
#![tactic(auto)]

mod heads;

pub use heads::{HeadEnd, HeadSpan, find_head};
