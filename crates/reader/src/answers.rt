use crate::tickets::Ticket;
use message::Event;
use source::Fault;

/// What next tells.
pub enum Told {
    /// A group opened or closed, or the message's end.
    Event(Event),
    /// A leaf, whose part is open now.
    Leaf(Event, Ticket),
    /// The message's fault.
    Fault(Fault),
}

/// Why next tells nothing.
#[derive(Clone, Copy, PartialEq, Eq, Debug)]
pub enum NextRefusal {
    /// Refusal 1: a part is open.
    PartOpen = 1,
    /// Refusal 2: the head buffer has fewer than 8,192 bytes, or the table fewer than 64 records.
    Short = 2,
}

/// What read gives.
#[derive(Clone, Copy, PartialEq, Eq, Debug)]
pub enum Given {
    /// So many decoded bytes.
    Bytes(usize),
    /// No byte is left.
    Done,
    /// No byte is left, and the body has this fault.
    Fault(Fault),
}

/// Refusal 3, of read and of skip: the ticket is not that of an open part. After skip it is gone, and the reader stays as it was.
#[derive(Clone, Copy, PartialEq, Eq, Debug)]
pub struct WrongTicket;

/// Why pour leaves the part open: how many bytes it delivered, and the ticket.
pub enum Unpoured {
    /// 5: the sink's space is used up, and a byte is left.
    Full(u32, Ticket),
    /// No byte is left, and the body has this fault.
    Fault(u32, Fault, Ticket),
    /// Refusal 3.
    WrongTicket(Ticket),
}

/// Why finish leaves the part open, with the ticket.
pub enum Unfinished {
    /// The body has this fault.
    Fault(Fault, Ticket),
    /// Refusal 3.
    WrongTicket(Ticket),
    /// Refusal 4: a decoded byte is left.
    BytesLeft(Ticket),
}
