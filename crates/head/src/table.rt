/// Where a field's name and value stand in the head buffer.
#[derive(Clone, Copy, PartialEq, Eq, Debug)]
pub struct Record {
    pub name_start: u16,
    pub name_len: u16,
    pub value_start: u16,
    pub value_len: u16,
}
