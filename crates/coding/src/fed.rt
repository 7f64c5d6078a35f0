/// How many raw bytes were taken, and how many decoded bytes were given for them.
#[derive(Clone, Copy, PartialEq, Eq, Debug)]
pub struct Fed {
    pub taken: usize,
    pub given: usize,
}
