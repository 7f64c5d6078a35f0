ghost use Rattle.std.specs.Prelude.{◌≡◌, ℕ, ◌≤◌, ◌++◌, length, take, drop};
ghost use Rattle.byte_lines.specs.Bytes.{Bytes};
ghost use Rattle.source.specs.declared.ends.End.{End as Ending};
ghost use Rattle.coding.specs.Codings.{decoded};
ghost use Rattle.coding.specs.Modes.{later_by, held_by, backlog_by};

use crate::base64::Base64;
use crate::coder::{Coder, Ready};
use crate::decoder::{Coding, Mode};
use crate::fed::Fed;
use crate::flow::Flow;
use crate::quoted::Quoted;
use source::End;

impl Mode {
    /// Before the first raw byte.
    pub(crate) fn start(coding: Coding) -> Self
        ensures later { (at : ℕ) (raw : Bytes) (e : Ending) → later_by result at raw e ≡ decoded coding at raw e }
        ensures none { held_by result ≡ 0 }
        ensures clear { backlog_by result ≡ 0 }
    {
        match coding {
            Coding::Plain => Mode::Plain,
            Coding::Quoted => Mode::Quoted(Quoted::new()),
            Coding::Base64 => Mode::Base64(Base64::new()),
        }
    }
}

impl Coder for Mode {
    ghost later = { later_by };

    ghost held = { held_by };

    ghost backlog = { backlog_by };

    fn run(&self, raw: &[u8], out: &mut [u8]) -> Fed {
        match self {
            Mode::Plain => {
                let n = raw.len().min(out.len());
                out[..n].copy_from_slice(&raw[..n]);
                Fed { taken: n, given: n }
            }
            Mode::Base64(coder) => coder.run(raw, out),
            Mode::Quoted(coder) => coder.run(raw, out),
            Mode::Spent | Mode::Ended(_) => Fed {
                taken: raw.len(),
                given: 0,
            },
        }
    }

    fn step(&mut self, at: u32, b: u8, ready: &mut Ready) -> Flow {
        match self {
            Mode::Plain => ready.set(&[b]),
            Mode::Base64(coder) => return coder.step(at, b, ready),
            Mode::Quoted(coder) => return coder.step(at, b, ready),
            Mode::Spent | Mode::Ended(_) => ready.clear(),
        }
        Flow::On
    }

    fn finish(&self, at: u32, end: End) -> (End, Ready) {
        match self {
            Mode::Plain | Mode::Spent => (end, Ready::new()),
            Mode::Base64(coder) => coder.finish(at, end),
            Mode::Quoted(coder) => coder.finish(at, end),
            Mode::Ended(end) => (*end, Ready::new()),
        }
    }
}
