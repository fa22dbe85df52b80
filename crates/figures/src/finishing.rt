//! Runs of the least kind finish.
ghost use Rattle.figures.specs.Finishing.{LeastRunsFinish};

/// From every start of a network and at every weight in range, over any cells for all nodes, a run of the least kind
/// finishes. The contract is the theorem; the answer, 0, says nothing.
pub fn least_runs_finish() -> u8
    ensures { LeastRunsFinish }
{
    0
}
