ghost use Rattle.std.specs.Prelude.{◌≡◌};
ghost use Rattle.transfer.specs.Drains.{answer, drained as drained_by};

use sink::{Refusal, Sink};
use source::{End, Source};

/// Moves all that the source gives into the sink, as far as the sink's space goes.
///
/// Answers how the source ends, where it has ended before the space was used up. Else the sink is full, and the source stands
/// behind the last byte that the sink took.
pub fn drain<S: Source, K: Sink>(source: &mut S, sink: &mut K) -> Result<End, Refusal>
    ensures { (answer result, S.Source.meaning source.new, K.Sink.meaning sink.new) ≡ drained_by (S.Source.meaning source.old) (K.Sink.meaning sink.old) }
{
    let mut buffer = [0; 1460];
    loop {
        let room = buffer.len().min(sink.space() as usize);
        if room == 0 {
            return Err(Refusal::Full);
        }
        match source.pull(&mut buffer[0..room]) {
            Ok(n) => sink.take(&buffer[0..n])?,
            Err(end) => return Ok(end),
        }
    }
}
