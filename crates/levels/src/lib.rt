//! The levels of open groups, and what a line is to them.
#![tactic(auto)]

mod levels;

pub use levels::{Fit, Levels, NEAR, TooDeep};
