//! The reader of messages: what it means, its answers, and steps of next. Its calls are not there yet.
#![tactic(auto)]

mod answers;
mod reader;
mod tickets;

pub use answers::{Given, NextRefusal, Told, Unfinished, Unpoured, WrongTicket};
pub use reader::Reader;
pub use tickets::Ticket;
