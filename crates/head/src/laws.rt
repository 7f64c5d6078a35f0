ghost use Rattle.head.specs.MediaLaw.{ReadsBack};
ghost use Rattle.head.specs.PackingLaw.{PackingGivesBack};

/// The records of the table name in the head buffer the very fields that were packed, in their order.
pub fn packing_law()
    ensures { PackingGivesBack }
{}

/// A Content-Type that is written from its parts is read back as the same parts.
pub fn media_law()
    ensures { ReadsBack }
{}
