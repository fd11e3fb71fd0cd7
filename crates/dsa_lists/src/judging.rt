//! Judging a plan for a list of operations.

ghost use Rattle.std.specs.Prelude.{ℕ, Result};
ghost use Rattle.dsa_calls.specs.declared.fault.PlanFault.{PlanFault};
ghost use Rattle.dsa_calls.specs.Lists.{IsOrMemory, OrMemory};
ghost use Rattle.dsa_lists.specs.Submissions.{JudgesOperationList};

use dsa_calls::{PlanFault, judge_pieces};
use dsa_descriptor::read_entries;
use dsa_operations::Operation;
use dsa_settings::{Plan, Settings};
use std::alloc::Global;

/// The cost of the plan for the operations that the bytes spell, none of which is split. One with the flag 0x0001,
/// fence, begins after a barrier, which the plan has to keep; a fence on the first operation says nothing.
///
/// # Errors
/// The first fault of the bytes without their fences as a list, as [`read_entries`] reports it; else the first cause to
/// refuse the plan, as [`judge_pieces`] reports it; [`PlanFault::Memory`] if an allocation fails.
pub fn judge_operation_list(
    alloc: Global,
    list: &[u8],
    plan: &Plan,
    settings: &Settings,
) -> Result<u64, PlanFault>
    ensures answer { OrMemory (λ cost. cost)
        (JudgesOperationList list.now plan.now settings.now) result }
    // What it answers is the one outcome, but for an allocation failure.
    ensures only { (outcome : Result ℕ PlanFault) →
        JudgesOperationList list.now plan.now settings.now outcome →
        IsOrMemory (λ cost. cost) outcome result }
{
    let operations = read_entries::<Operation>(alloc, list)?;
    judge_pieces(&operations.entries, &operations.barriers, plan, settings)
}
