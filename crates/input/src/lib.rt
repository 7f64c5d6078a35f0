//! The first 16,777,216 bytes of a source, seen through a window of fixed size.
#![tactic(auto)]

mod window;

pub use window::Input;
