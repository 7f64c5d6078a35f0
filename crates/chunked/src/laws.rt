ghost use Rattle.chunked.specs.Written.{FramingLaws};

/// The laws of the framing hold.
pub fn framing_laws()
    ensures { FramingLaws }
{}
