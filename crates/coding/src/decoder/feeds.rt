ghost use Rattle.std.specs.Prelude.{◌≡◌, ◌+◌, ◌≤◌, not, [], length, is_ok, ◌==◌};
ghost use Rattle.byte_lines.specs.Bytes.{Bytes};
ghost use Rattle.source.specs.declared.ends.End.{End as Ending};
ghost use Rattle.coding.specs.Codings.{decoded};
ghost use Rattle.coding.specs.Decoders.{meaning, backlog, Feeds, Finishes, Releases, Outcome};

use crate::coder::{Coder, Ready};
use crate::decoder::{Coding, Decoder, Mode, StillReady};
use crate::fed::Fed;
use crate::flow::Flow;
use source::End;

/// The input has no byte at this offset or past it.
const LIMIT: u32 = 16_777_216;

impl Decoder {
    /// For a raw body that begins at the offset `at`.
    #[tactic(auto, unfolding(crate::specs::Decoders::backlog))]
    pub fn new(coding: Coding, at: u32) -> Self
        ensures ready { (meaning result).ready ≡ [] }
        ensures place { (meaning result).place ≡ at }
        ensures later { (raw : Bytes) (e : Ending) → (meaning result).later raw e ≡ decoded coding at raw e }
        ensures none { backlog result ≡ 0 }
    {
        Decoder {
            ready: Ready::new(),
            at,
            mode: Mode::start(coding),
        }
    }

    /// A decoded byte waits to be given.
    pub fn is_ready(&self) -> bool
        ensures { result ≡ not (length (meaning self.now).ready == 0) }
    {
        !self.ready.is_empty()
    }

    /// Gives what waits; or takes raw bytes, at least one if there is one, and gives what they set free or lets it wait.
    #[tactic(auto, unfolding(crate::specs::Decoders::backlog))]
    pub fn feed(&mut self, raw: &[u8], out: &mut [u8]) -> Fed
        ensures feeds { Feeds (meaning self.old) raw.now out.old result.taken result.given (meaning self.new) out.new }
        ensures fewer { result.given + backlog self.new ≤ backlog self.old + result.taken }
    {
        if self.is_ready() {
            let given = self.ready.give(out);
            return Fed { taken: 0, given };
        }
        let most = raw.len().min(LIMIT.saturating_sub(self.at) as usize);
        let raw = &raw[..most];
        let [b, ..] = raw else {
            return Fed { taken: 0, given: 0 };
        };
        let fed = self.mode.run(raw, out);
        if fed.taken > 0 {
            self.at += fed.taken as u32;
            return fed;
        }
        match self.mode.step(self.at, *b, &mut self.ready) {
            Flow::On => {}
            Flow::Spent => self.mode = Mode::Spent,
            Flow::Ended(end) => self.mode = Mode::Ended(end),
        }
        self.at += 1;
        Fed { taken: 1, given: 0 }
    }

    /// The raw body has ended here, with that end. Refuses, and changes nothing, while a decoded byte waits.
    #[tactic(auto, unfolding(crate::specs::Decoders::backlog))]
    pub fn finish(&mut self, end: End) -> Result<(), StillReady>
        ensures finishes { Finishes (is_ok result) (meaning self.old) end (meaning self.new) }
        ensures releases { Releases (is_ok result) (meaning self.old) end (meaning self.new) }
        ensures fewer { backlog self.new ≤ backlog self.old }
    {
        if self.is_ready() {
            return Err(StillReady);
        }
        let (end, ready) = self.mode.finish(self.at, end);
        self.mode = Mode::Ended(end);
        self.ready = ready;
        Ok(())
    }

    /// The decoded body's end, once nothing more is to be given, whatever comes.
    pub fn outcome(&self) -> Option<End>
        ensures { Outcome (meaning self.now) result }
    {
        if self.is_ready() {
            return None;
        }
        match self.mode {
            Mode::Ended(end) => Some(end),
            _ => None,
        }
    }
}
