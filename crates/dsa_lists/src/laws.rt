//! What the definitions promise of descriptors as operations of a list. Each function is a law: its body is empty, and
//! its clauses are what the proof shows.

ghost use Rattle.dsa_lists.specs.Laws.{DescriptorsAreSubmittedAlike, DescriptorsConflictAlike, OperationsAreSubmittedAlike};

/// Descriptors conflict as operations of a list exactly if they conflict as descriptors.
pub fn descriptors_conflict_alike()
    ensures { DescriptorsConflictAlike }
{}

/// What [`check_bytes`](dsa_calls::check_bytes()) accepts is accepted alike as submitting operations, at the same cost;
/// and if bytes submit descriptors, it accepts what is accepted as submitting operations.
pub fn descriptors_are_submitted_alike()
    ensures there { DescriptorsAreSubmittedAlike }
    ensures back { OperationsAreSubmittedAlike }
{}
