ghost use Rattle.std.specs.Prelude.{◌≡◌, true, [], ◌∷◌, ◌++◌, length};
ghost use Rattle.coding.specs.Buffers.{items};
ghost use Rattle.coding.specs.QuotedShapes.{shaped};
ghost use Rattle.coding.specs.QuotedHeld.{quoted_from};

use crate::buffer::Buffer;
use crate::coder::{Coder, Ready};
use crate::fed::Fed;
use crate::flaw::Flaw;
use crate::flow::Flow;
use crate::quoted::runs::{escaped, token};
use crate::quoted::{Kind, MOST_BLANKS, Quoted, Token};
use source::End;

impl Quoted {
    /// Nothing is held back.
    pub(crate) fn new() -> Self
        ensures { items result.held ≡ [] }
    {
        Quoted {
            held: Buffer::new(),
            kind: Kind::Blanks { soft: false },
        }
    }

    /// Holds one more byte back, so that what is held is of this kind.
    fn hold(&mut self, b: u8, kind: Kind)
        requires { shaped kind (items self.old.held ++ (b ∷ [])) ≡ true }
        ensures { items self.new.held ≡ items self.old.held ++ (b ∷ []) }
    {
        self.held.push(b);
        self.kind = kind;
    }

    /// Forgets what is held back.
    fn clear(&mut self)
        ensures { items self.new.held ≡ [] }
    {
        self.held.clear();
        self.kind = Kind::Blanks { soft: false };
    }

    /// Puts what is held back, as it is, in place of what was ready; nothing is held back then.
    fn release(&mut self, ready: &mut Ready)
        ensures given { items ready.new ≡ items self.old.held }
        ensures none { items self.new.held ≡ [] }
    {
        ready.set(self.held.as_slice());
        self.clear();
    }
}

impl Coder for Quoted {
    ghost later = { λ d. quoted_from (items d.held) };

    ghost held = { λ d. length (items d.held) };

    ghost backlog = { λ d. length (items d.held) };

    #[inline(never)]
    fn run(&self, raw: &[u8], out: &mut [u8]) -> Fed {
        if !self.held.is_empty() {
            return Fed { taken: 0, given: 0 };
        }
        let most = raw.len().min(out.len());
        let mut rest = &raw[..most];
        let mut given = 0;
        while let [a, b, c, ..] = rest {
            let Some(token) = token(*a, *b, *c) else {
                break;
            };
            match token {
                Token::Itself => {
                    out[given] = *a;
                    given += 1;
                    rest = &rest[1..];
                }
                Token::Byte(b) => {
                    out[given] = b;
                    given += 1;
                    rest = &rest[3..];
                }
                Token::Soft => rest = &rest[3..],
                Token::Hard => {
                    out[given..given + 2].copy_from_slice(b"\r\n");
                    given += 2;
                    rest = &rest[2..];
                }
            }
        }
        Fed {
            taken: most - rest.len(),
            given,
        }
    }

    fn step(&mut self, at: u32, b: u8, ready: &mut Ready) -> Flow {
        ready.clear();
        match (self.kind, b) {
            (Kind::Digit, b'0'..=b'9' | b'A'..=b'F' | b'a'..=b'f') => {
                let held = self.held.as_slice();
                let byte = escaped(held[1], b).unwrap();
                self.clear();
                ready.set(&[byte]);
            }
            (Kind::Blanks { soft: true }, b'0'..=b'9' | b'A'..=b'F' | b'a'..=b'f')
                if self.held.len() == 1 => self.hold(b, Kind::Digit),
            (Kind::Cr { soft: true }, b'\n') => self.clear(),
            (Kind::Cr { soft: false }, b'\n') => {
                self.clear();
                ready.set(b"\r\n");
            }
            (Kind::Blanks { soft }, b' ' | b'\t')
                if self.held.len() == MOST_BLANKS + usize::from(soft) => {
                ready.set(&self.held.as_slice()[..usize::from(soft)]);
                return Flow::Ended(Flaw::TooManyBlanks.at(at - MOST_BLANKS as u32));
            }
            (Kind::Blanks { soft }, b' ' | b'\t') => self.hold(b, Kind::Blanks { soft }),
            (Kind::Blanks { soft }, b'\r') => self.hold(b, Kind::Cr { soft }),
            (_, b'=') => {
                self.release(ready);
                self.hold(b, Kind::Blanks { soft: true });
            }
            (_, b' ' | b'\t') => {
                self.release(ready);
                self.hold(b, Kind::Blanks { soft: false });
            }
            (_, b'\r') => {
                self.release(ready);
                self.hold(b, Kind::Cr { soft: false });
            }
            (_, _) => {
                self.release(ready);
                ready.push(b);
            }
        }
        Flow::On
    }

    /// Gives what is held back, but for blanks and an `=` before them.
    fn finish(&self, _at: u32, end: End) -> (End, Ready) {
        match self.kind {
            Kind::Digit | Kind::Cr { .. } => (end, Ready::of(self.held.as_slice())),
            _ => (end, Ready::new()),
        }
    }
}
