ghost use Rattle.std.specs.Prelude.{Some};
ghost use Rattle.source.specs.Texts.{fault_text, end_text};

use std::fmt;

/// What went wrong: its number, the layer that found it (1 source, 2 framing, 3 message, 4 head, 5 coding), and its place.
// Three numbers, as the rules of the format state a fault, and no enum: a source of anyone's may tell a number of its own.
#[derive(Clone, Copy, PartialEq, Eq, Debug)]
pub struct Fault {
    pub number: u32,
    pub layer: u32,
    pub place: u32,
}

/// How a source ends, behind all its bytes.
// No `Option<Fault>`: a pull would answer `Result<usize, Option<Fault>>`, and an end that is not known yet be an `Option` of an `Option`.
#[derive(Clone, Copy, PartialEq, Eq, Debug)]
pub enum End {
    Clean,
    Faulty(Fault),
}

impl fmt::Display for Fault {
    ghost output = { λ f. Some (fault_text f) };

    fn fmt<W: fmt::Write>(&self, f: &mut fmt::Formatter<W>) -> fmt::Result {
        let Fault {
            number,
            layer,
            place,
        } = self;
        write!(f, "{number} {layer} {place}")
    }
}

impl fmt::Display for End {
    ghost output = { λ e. Some (end_text e) };

    fn fmt<W: fmt::Write>(&self, f: &mut fmt::Formatter<W>) -> fmt::Result {
        match self {
            End::Clean => write!(f, "clean"),
            End::Faulty(fault) => write!(f, "fault {fault}"),
        }
    }
}
