//! A leaf's raw body through the input's window, and the lines between bodies.
#![tactic(auto)]

mod lines;
mod places;
mod scans;

pub use lines::Lines;
pub use scans::{GroupLine, Scan};
