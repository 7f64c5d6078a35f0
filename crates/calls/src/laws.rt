ghost use Rattle.calls.specs.Mixed.{StoreOrTally, value_of};
ghost use Rattle.calls.specs.Theorems.{EveryRunKeepsTheLaw, RefusalsLeaveNoTrace, RunsAlike, RunsGoOn};

/// The kinds of the sinks of a run.
pub(crate) trait Kinds {
    ghost Index: { Type 0 };

    ghost kind: { Index → Type 0 };
}

/// Every run keeps the law, whichever calls it holds and whatever kinds of sinks; two runs of the same calls are alike; a run can go on with any
/// call; and without its refused calls a run is still a run.
pub(crate) fn every_run_keeps_the_law<K: Kinds>()
    ensures keeps { EveryRunKeepsTheLaw K.Kinds.Index K.Kinds.kind }
    ensures alike { RunsAlike K.Kinds.Index K.Kinds.kind }
    ensures goes_on { RunsGoOn K.Kinds.Index K.Kinds.kind }
    ensures refusals { RefusalsLeaveNoTrace K.Kinds.Index K.Kinds.kind }
{}

/// Stores and tallies in one run.
#[derive(Drop)]
pub(crate) struct Mixed;

impl Kinds for Mixed {
    ghost Index = { StoreOrTally };

    ghost kind = { value_of };
}

/// Runs with stores and tallies keep the law.
pub(crate) fn mixed_runs_keep_the_law()
    ensures keeps { EveryRunKeepsTheLaw StoreOrTally value_of }
    ensures alike { RunsAlike StoreOrTally value_of }
    ensures goes_on { RunsGoOn StoreOrTally value_of }
    ensures refusals { RefusalsLeaveNoTrace StoreOrTally value_of }
{
    every_run_keeps_the_law::<Mixed>();
}
