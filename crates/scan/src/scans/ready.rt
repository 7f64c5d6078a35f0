ghost use Rattle.std.specs.Prelude.{◌≡◌, min, length, take};
ghost use Rattle.input.specs.Inputs.{shown};
ghost use Rattle.scan.specs.Ready.{until_cr, lone_cr, ready_in, ready, waiting, place_past};
ghost use Rattle.scan.specs.Streams.{raw_left, Moves};

use super::Scan;
use crate::places::Place;
use source::Source;

/// How many bytes stand before a text's first CR.
fn run_len(text: &[u8]) -> usize
    ensures { result ≡ until_cr text.now }
{
    text.iter().position(|b| *b == b'\r').unwrap_or(text.len())
}

/// Whether a view begins with a CR that no LF follows. `all` says that nothing comes behind the view.
fn is_lone_cr(view: &[u8], all: bool) -> bool
    ensures { result ≡ lone_cr view.now all }
{
    match view {
        [b'\r'] => all,
        [b'\r', next, ..] => *next != b'\n',
        _ => false,
    }
}

/// How many bytes of the line at hand stand ready at a view's start, at most `most`.
fn ready_in(view: &[u8], all: bool, most: usize) -> usize
    ensures { result ≡ min most (ready_in view.now all) }
{
    if is_lone_cr(view, all) {
        return most.min(1);
    }
    run_len(&view[..view.len().min(most)])
}

/// The place behind n of the bytes that stand ready before a line.
fn past(place: Place, n: usize) -> Place
    ensures { result ≡ place_past place n }
{
    match (place, n) {
        (Place::Return, 1) => Place::Feed,
        (Place::Return, 2) | (Place::Feed, 1) => Place::Within,
        _ => place,
    }
}

impl<S: Source> Scan<S> {
    /// How many bytes of the body stand ready, at most `most`.
    #[tactic(auto, unfolding(crate::specs::Ready::ready))]
    fn ready(&self, most: usize) -> usize
        ensures { result ≡ min most (ready self.now) }
    {
        match self.place {
            Place::Return => most.min(2),
            Place::Feed => most.min(1),
            Place::Within => ready_in(
                self.lines.input.view(),
                self.lines.input.end().is_some(),
                most,
            ),
            Place::Start { .. } | Place::Ended(_) => 0,
        }
    }

    /// A text that begins with the bytes that stand ready.
    fn waiting(&self) -> &[u8]
        ensures { result.now ≡ waiting self.now.place (shown self.now.lines.input) }
    {
        match self.place {
            Place::Return => b"\r\n",
            Place::Feed => b"\n",
            _ => self.lines.input.view(),
        }
    }

    /// The bytes of the body that stand ready, at most `most` of them.
    pub fn chunk(&self, most: usize) -> &[u8]
        ensures front { result.now ≡ take (min most (ready self.now)) (raw_left S.Source.meaning self.now) }
        ensures many { length result.now ≡ min most (ready self.now) }
    {
        &self.waiting()[..self.ready(most)]
    }

    /// Passes over the bytes of the body that stand ready, or over the first n of them.
    pub fn advance(&mut self, n: usize)
        ensures { Moves S.Source.meaning self.old self.new (take (min n (ready self.old)) (raw_left S.Source.meaning self.old)) }
    {
        let n = self.ready(n);
        match self.place {
            Place::Within => self.lines.input.consume(n),
            place => self.place = past(place, n),
        }
    }
}
