ghost use Rattle.std.specs.Prelude.{◌≡◌, ◌∷◌};
ghost use Rattle.head.specs.Media.{outside, quote_after, pieces};
ghost use Rattle.head.specs.MediaReads.{quote_of, ends_piece, piece_length, later_pieces, Shorter};

/// Where a byte stands: outside of quoted strings, inside one, or behind the '\' that protects it.
#[derive(Clone, Copy)]
enum Place {
    Outside,
    Inside,
    Protected,
}

/// Where the next byte stands.
fn place_after(place: Place, b: u8) -> Place
    ensures { quote_of result ≡ quote_after (quote_of place) b }
{
    match (place, b) {
        (Place::Outside, b'"') => Place::Inside,
        (Place::Outside, _) => Place::Outside,
        (Place::Inside, b'"') => Place::Outside,
        (Place::Inside, b'\\') => Place::Protected,
        (Place::Inside | Place::Protected, _) => Place::Inside,
    }
}

/// Whether a byte that stands there ends a piece.
fn ends_piece(place: Place, b: u8) -> bool
    ensures { result ≡ ends_piece (quote_of place) b }
{
    matches!((place, b), (Place::Outside, b';'))
}

/// How long the value's first piece is.
#[tactic(auto, using(crate::proofs::Quotes::length_ends, crate::proofs::Quotes::length_more, crate::proofs::Quotes::length_all))]
fn piece_len(value: &[u8]) -> usize
    ensures { result ≡ piece_length outside value.now }
{
    let mut place = Place::Outside;
    // A loop, since each byte moves the place on: `position` tests, and should change nothing.
    for (i, b) in value.iter().enumerate() {
        if ends_piece(place, *b) {
            return i;
        }
        place = place_after(place, *b);
    }
    value.len()
}

/// The value's first piece, and what stands behind its ';'.
#[tactic(auto, using(crate::proofs::Quotes::pieces_last))]
pub(crate) fn first_piece(value: &[u8]) -> (&[u8], Option<&[u8]>)
    ensures splits { result.0.now ∷ later_pieces result.1 ≡ pieces outside value.now }
    ensures shorter { Shorter result.1 value.now }
{
    let end = piece_len(value);
    if end < value.len() {
        (&value[..end], Some(&value[end + 1..]))
    } else {
        (value, None)
    }
}
