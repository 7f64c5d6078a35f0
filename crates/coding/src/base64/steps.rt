ghost use Rattle.std.specs.Prelude.{◌≡◌, [], length};
ghost use Rattle.coding.specs.Base64.{base64_from};
ghost use Rattle.coding.specs.Sextets.{sextets_of, Closes};

use crate::base64::groups::{bytes_of, group, is_ignored, sextet_of};
use crate::base64::{Base64, Sextets};
use crate::coder::{Coder, Ready};
use crate::fed::Fed;
use crate::flaw::Flaw;
use crate::flow::Flow;
use source::End;

impl Base64 {
    pub(crate) fn new() -> Self
        ensures { sextets_of result.held ≡ [] }
    {
        Base64 {
            held: Sextets::None,
        }
    }

    /// The whole bytes of the characters that are held; None if one character is left over.
    fn close(&self) -> Option<Ready>
        ensures { Closes (sextets_of self.now.held) result }
    {
        match self.held {
            Sextets::None => Some(Ready::new()),
            Sextets::One(_) => None,
            Sextets::Two(a, b) => Some(Ready::of(&bytes_of(a, b, 0, 0)[..1])),
            Sextets::Three(a, b, c) => Some(Ready::of(&bytes_of(a, b, c, 0)[..2])),
        }
    }
}

impl Coder for Base64 {
    ghost later = { λ d. base64_from (sextets_of d.held) };

    ghost held = { λ d. 0 };

    ghost backlog = { λ d. length (sextets_of d.held) };

    /// By leading groups of four characters, and what is ignored between them, as far as there is room for three bytes more.
    #[inline(never)]
    fn run(&self, raw: &[u8], out: &mut [u8]) -> Fed {
        if !matches!(self.held, Sextets::None) {
            return Fed { taken: 0, given: 0 };
        }
        let mut rest = raw;
        let mut given = 0;
        while out.len() - given >= 3 {
            let [a, b, c, d, behind @ ..] = rest else {
                break;
            };
            if let Some(three) = group(*a, *b, *c, *d) {
                out[given..given + 3].copy_from_slice(&three);
                given += 3;
                rest = behind;
            } else if is_ignored(*a) {
                rest = &rest[1..];
            } else {
                break;
            }
        }
        Fed {
            taken: raw.len() - rest.len(),
            given,
        }
    }

    #[tactic(auto, using(crate::proofs::Base64Steps::step_equals, crate::proofs::Base64Steps::from_ignored, crate::proofs::Base64Steps::from_character, crate::proofs::Base64Steps::from_fourth, crate::proofs::Base64Steps::octets_fewer))]
    fn step(&mut self, at: u32, b: u8, ready: &mut Ready) -> Flow {
        ready.clear();
        let Some(v) = sextet_of(b) else {
            if b != b'=' {
                return Flow::On;
            }
            let Some(last) = self.close() else {
                return Flow::Ended(Flaw::LeftOver.at(at));
            };
            *ready = last;
            return Flow::Spent;
        };
        match self.held {
            Sextets::None => self.held = Sextets::One(v),
            Sextets::One(x) => self.held = Sextets::Two(x, v),
            Sextets::Two(x, y) => self.held = Sextets::Three(x, y, v),
            Sextets::Three(x, y, z) => {
                self.held = Sextets::None;
                ready.set(&bytes_of(x, y, z, v));
            }
        }
        Flow::On
    }

    #[tactic(auto, using(crate::proofs::Base64Steps::from_end))]
    fn finish(&self, at: u32, end: End) -> (End, Ready) {
        match (self.close(), end) {
            (Some(ready), _) => (end, ready),
            (None, End::Clean) => (Flaw::LeftOver.at(at), Ready::new()),
            (None, End::Faulty(_)) => (end, Ready::new()),
        }
    }
}
