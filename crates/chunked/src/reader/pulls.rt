ghost use Rattle.std.specs.Prelude.{◌≡◌, ◌<◌, true, false, not, ◌||◌, length, MatchResult, ◌==◌, Ok, Err};
ghost use Rattle.source.specs.Meanings.{Pulls, answer};
ghost use Rattle.chunked.specs.declared.places.Place.TheVariants.{Data};
ghost use Rattle.chunked.specs.Framing.{unframed, is_data, limit, early as early_end};
ghost use Rattle.chunked.specs.Reading.{framing, unframes, at_end, below_meaning, pending};

use crate::faults::Wrong;
use crate::places::Place;
use crate::reader::Chunked;
use source::{End, Source};

/// How many bytes may be taken from below.
const LIMIT: u32 = 33_554_432;

/// The end of the framing where below ends too early.
fn early(at: u32, below: End) -> End
    ensures { result ≡ early_end at below }
{
    match below {
        End::Clean => Wrong::Short.at(at),
        End::Faulty(_) => below,
    }
}

impl<S: Source> Chunked<S> {
    /// The data of the chunks that the source gives from here on.
    pub fn new(source: S) -> Self
        ensures { framing S.Source.meaning result ≡ unframed (S.Source.meaning source).coming (S.Source.meaning source).ending }
    {
        let place = Place::Size {
            line: 0,
            digits: 0,
            value: 0,
        };
        Chunked {
            source,
            taken: 0,
            next: Ok(place),
        }
    }

    /// Hands the source below back. Once a pull has told the end, it stands where the framing left it: after a clean end, just
    /// past the empty line.
    pub fn into_source(self) -> S
        ensures below { S.Source.meaning result ≡ below_meaning S.Source.meaning self }
        ensures past { at_end self ≡ true → (S.Source.meaning result).coming ≡ (framing S.Source.meaning self).left }
    {
        let Chunked { source, .. } = self;
        source
    }

    /// Takes the next byte from below, at a place where it is not one of a chunk's data, or sees that none can be taken.
    fn advance(&mut self, place: Place)
        requires here { self.old.next ≡ Ok place }
        requires overhead { self.old.taken < limit → is_data place ≡ false }
        ensures same { framing S.Source.meaning self.new ≡ framing S.Source.meaning self.old }
        ensures nearer { pending S.Source.meaning self.new < pending S.Source.meaning self.old }
    {
        if self.taken >= LIMIT {
            self.next = Err(Wrong::Long.at(LIMIT));
            return;
        }
        let mut byte = [0; 1];
        match self.source.pull(&mut byte) {
            Ok(_) => {
                self.next = place.step(self.taken, byte[0]);
                self.taken += 1;
            }
            Err(end) => self.next = Err(early(self.taken, end)),
        }
    }

    /// Goes on to the next data byte, or to the end: answers how many data bytes the chunk still has.
    fn settle(&mut self) -> Result<u32, End>
        ensures same { framing S.Source.meaning self.new ≡ framing S.Source.meaning self.old }
        ensures found { MatchResult result
            (λ n. (self.new.next ≡ Ok (Data n)) × (0 < n) × (self.new.taken < limit))
            (λ e. self.new.next ≡ Err e) }
    {
        loop {
            match self.next? {
                Place::Data { left } if left > 0 && self.taken < LIMIT => return Ok(left),
                place => self.advance(place),
            }
        }
    }

    /// Pulls data straight into the buffer, of the `left` bytes that the chunk still has.
    fn deliver(&mut self, left: u32, buffer: &mut [u8]) -> Result<usize, End>
        requires here { self.old.next ≡ Ok (Data left) }
        requires some { 0 < left }
        requires more { self.old.taken < limit }
        requires room { 0 < length buffer.old }
        ensures pulls { Pulls (unframes (framing S.Source.meaning self.old)) buffer.old (answer result) (unframes (framing S.Source.meaning self.new)) buffer.new }
        ensures taken { (framing S.Source.meaning self.new).taken ≡ (framing S.Source.meaning self.old).taken }
        ensures left { (framing S.Source.meaning self.new).left ≡ (framing S.Source.meaning self.old).left }
        ensures tells { at_end self.new ≡ not ((answer result).0 == 0) }
    {
        // No `From` leads between u32 and usize: these casts are proved to fit.
        let most = left.min(LIMIT - self.taken) as usize;
        let room = most.min(buffer.len());
        match self.source.pull(&mut buffer[..room]) {
            Ok(n) => {
                self.next = Ok(Place::Data {
                    left: left - n as u32,
                });
                self.taken += n as u32;
                Ok(n)
            }
            Err(end) => {
                let end = early(self.taken, end);
                self.next = Err(end);
                Err(end)
            }
        }
    }
}

impl<S: Source> Source for Chunked<S> {
    ghost meaning = { λ s. unframes (framing S.Source.meaning s) };

    fn pull(&mut self, buffer: &mut [u8]) -> Result<usize, End>
        ensures pulls { Pulls (unframes (framing S.Source.meaning self.old)) buffer.old (answer result) (unframes (framing S.Source.meaning self.new)) buffer.new }
        ensures taken { (framing S.Source.meaning self.new).taken ≡ (framing S.Source.meaning self.old).taken }
        ensures left { (framing S.Source.meaning self.new).left ≡ (framing S.Source.meaning self.old).left }
        ensures tells { at_end self.new ≡ (at_end self.old || not ((answer result).0 == 0)) }
    {
        if buffer.is_empty() {
            return Ok(0);
        }
        let left = self.settle()?;
        self.deliver(left, buffer)
    }
}
