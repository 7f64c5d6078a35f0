use coding::Coding;

/// What an event tells of.
#[derive(Clone, Copy, PartialEq, Eq, Debug)]
pub enum Kind {
    /// A leaf opens.
    Leaf = 1,
    /// A group opens.
    Group = 2,
    /// A group is closed.
    Close = 3,
    /// The message has ended.
    End = 4,
}

/// An event of a message.
// One record for all kinds, as the format has it: what a kind has not is 0, and the marks are a sum.
#[derive(Clone, Copy, PartialEq, Eq, Debug)]
pub struct Event {
    pub kind: Kind,
    /// The entity's number; at the end, how many entities there were.
    pub number: u32,
    /// The number of the innermost group around it, 0 for none.
    pub parent: u32,
    /// How many groups are open around it.
    pub depth: u32,
    /// The head's offset; of a closing, that of the line that closed the group; at the end, the input's length.
    pub at: u32,
    pub coding: Coding,
    /// The sum of 1 for a broken Content-Type, 2 for an unknown coding, 4 for a group that was closed unterminated.
    pub marks: u32,
    /// How many fields the head has.
    pub fields: u32,
}
