ghost use Rattle.message.specs.BodyLaws.{BodyToTheEnd, BodyToALine};
ghost use Rattle.message.specs.GroupLaws.{WholeLines};
ghost use Rattle.message.specs.RowLaws.{RowsProceed, BodiesInOrder};

/// A line fits a group only as a whole, and the innermost group that it fits counts.
pub fn line_laws()
    ensures { WholeLines }
{}

/// A body runs to the line that ends it, or to the input's end.
pub fn body_laws()
    ensures to_the_end { BodyToTheEnd }
    ensures to_a_line { BodyToALine }
{}

/// Every row has one end, numbers its entities in order, and closes its groups deepest first; bodies lie one behind the other.
pub fn row_laws()
    ensures proceed { RowsProceed }
    ensures bodies { BodiesInOrder }
{}
