ghost use Rattle.std.specs.Prelude.{◌≡◌, ◌<◌, [], length, MatchBool};
ghost use Rattle.scan.specs.declared.places.Place.TheVariants.{Start as AtStart, Within as InLine};
ghost use Rattle.scan.specs.Streams.{raw_left, weight, Moves, place_by, next_of};
ghost use Rattle.scan.specs.Ready.{ready};
ghost use Rattle.scan.specs.Settles.{Behind, Found};

use super::Scan;
use crate::places::{Next, Place};
use levels::{Fit, NEAR};
use source::Source;

/// The place at a line's start, by what the line is.
fn opening(fit: Option<Fit>, held: bool) -> Place
    ensures { result ≡ place_by fit held }
{
    match fit {
        Some(_) => Place::Ended(fit),
        None if held => Place::Return,
        None => Place::Within,
    }
}

/// What comes next within a line, by a view of two bytes or of all that is left.
fn next_of(view: &[u8]) -> Next
    ensures { result ≡ next_of view.now }
{
    match view {
        [] => Next::Nothing,
        [b'\r', b'\n', ..] => Next::Unknown,
        _ => Next::Byte,
    }
}

impl<S: Source> Scan<S> {
    /// Tests the line that begins here.
    fn begin(&mut self, held: bool)
        requires { self.old.place ≡ AtStart held }
        ensures moved { Moves S.Source.meaning self.old self.new [] }
        ensures nearer { weight S.Source.meaning self.new < weight S.Source.meaning self.old }
    {
        self.lines.input.fill(NEAR);
        let fit = self.lines.levels.fit_view(self.lines.input.view());
        self.place = opening(fit, held);
    }

    /// Looks on within a line: where no byte is next, past the line's CRLF, or behind the body.
    fn look_in(&mut self) -> Next
        requires { self.old.place ≡ InLine }
        ensures moved { Moves S.Source.meaning self.old self.new [] }
        ensures found { Found S.Source.meaning result self.new (weight S.Source.meaning self.old) }
    {
        self.lines.input.fill(2);
        let next = next_of(self.lines.input.view());
        match next {
            Next::Byte => {}
            Next::Nothing => self.place = Place::Ended(None),
            Next::Unknown => {
                self.lines.input.consume(2);
                self.place = Place::Start { held: true };
            }
        }
        next
    }

    /// Looks on.
    #[tactic(auto, unfolding(crate::specs::Ready::ready))]
    fn look(&mut self) -> Next
        ensures moved { Moves S.Source.meaning self.old self.new [] }
        ensures found { Found S.Source.meaning result self.new (weight S.Source.meaning self.old) }
    {
        match self.place {
            Place::Start { held } => {
                self.begin(held);
                Next::Unknown
            }
            Place::Return | Place::Feed => Next::Byte,
            Place::Within => self.look_in(),
            Place::Ended(_) => Next::Nothing,
        }
    }

    /// Whether a byte of the body is left. If so, one at least stands ready; else the scan stands behind the body.
    #[tactic(auto, using(crate::proofs::ReadyBytes::ready_within))]
    pub fn settle(&mut self) -> bool
        ensures moved { Moves S.Source.meaning self.old self.new [] }
        ensures left { MatchBool result (0 < length (raw_left S.Source.meaning self.new)) (raw_left S.Source.meaning self.new ≡ []) }
        ensures some { MatchBool result (0 < ready self.new) (Behind S.Source.meaning self.new) }
    {
        loop {
            match self.look() {
                Next::Byte => return true,
                Next::Nothing => return false,
                Next::Unknown => {}
            }
        }
    }

    /// Goes behind the body: to the line that ends it, or to the input's end.
    pub fn skip_body(&mut self)
        ensures moved { Moves S.Source.meaning self.old self.new (raw_left S.Source.meaning self.old) }
        ensures behind { Behind S.Source.meaning self.new }
    {
        while self.settle() {
            self.advance(usize::MAX);
        }
    }
}
