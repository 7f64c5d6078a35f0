/// Stands for an open part of a reader. It can be neither copied nor let go: it goes to finish, pour or skip.
pub struct Ticket {
    /// The number of the reader that gave it.
    pub(crate) reader: u32,
    /// The number of the entity that the part belongs to.
    pub(crate) part: u32,
}
