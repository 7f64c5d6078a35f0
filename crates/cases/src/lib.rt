//! The worked examples, proved of the definitions, and tests by tables.
#![tactic(auto)]

ghost use Rattle.cases.specs.Examples.{WorkedExamples};
ghost use Rattle.cases.specs.Messages.{MessageExamples};

#[cfg(test)]
mod codings;
mod cut;
#[cfg(test)]
mod framing;
#[cfg(test)]
mod heads;
#[cfg(test)]
mod sinks;
#[cfg(test)]
mod sources;

pub use cut::Cut;

/// The worked examples hold of the definitions.
pub fn worked_examples()
    ensures { WorkedExamples }
{}

/// The worked messages have the rows that the rules give them.
pub fn worked_messages()
    ensures { MessageExamples }
{}
