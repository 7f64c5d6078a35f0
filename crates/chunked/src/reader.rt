use crate::places::Place;
use source::{End, Source};

mod pulls;

/// The data of the chunks that come from the source below.
#[derive(Drop)]
pub struct Chunked<S: Source> {
    source: S,
    /// How many bytes were taken from below.
    taken: u32,
    /// Where the next byte stands, or the end once it was come to.
    next: Result<Place, End>,
}
