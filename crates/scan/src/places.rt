use levels::Fit;

/// Where a scan stands in a leaf's raw body.
#[derive(Clone, Copy)]
pub(crate) enum Place {
    /// Before a line that is not tested yet. The CRLF before that line is held back, or there is none.
    Start { held: bool },
    /// Before a CRLF that was held back, and a line of the body behind it.
    Return,
    /// Before that CRLF's second byte.
    Feed,
    /// Within a line of the body.
    Within,
    /// Behind the body: before the line that ends it, which the line test answered so, or at the input's end, with none.
    Ended(Option<Fit>),
}

/// What comes next in a body.
#[derive(Clone, Copy)]
pub(crate) enum Next {
    /// A byte of the body stands ready.
    Byte,
    /// The body has ended.
    Nothing,
    /// That is not known yet.
    Unknown,
}
