use source::End;

/// How a decoder goes on behind a raw byte.
#[derive(Clone, Copy)]
pub(crate) enum Flow {
    /// As the coding says.
    On,
    /// Nothing more is given, and the body's end stays what it is.
    Spent,
    /// Nothing more is given, and this is the body's end.
    Ended(End),
}
