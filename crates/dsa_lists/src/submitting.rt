//! Planning operations as they are, and the bytes that submit them.

ghost use Rattle.std.specs.Prelude.{◌≡◌, ◌↔◌, Bool, List, length, IfOk, IsTrue, MatchOption, Err, Result};
ghost use Rattle.dsa_descriptor.specs.Lists.{AreOfOneOwner};
ghost use Rattle.dsa_settings.specs.Barriers.{WithBarriers};
ghost use Rattle.dsa_settings.specs.Legal.{IsLeast};
ghost use Rattle.dsa_plan.specs.Certificate.{IsGood};
ghost use Rattle.dsa_settings.specs.Settings.{tariff_of};
ghost use Rattle.dsa_calls.specs.declared.fault.PlanFault.{PlanFault};
ghost use Rattle.dsa_calls.specs.Lists.{IsOrMemory, OrMemory};
ghost use Rattle.dsa_operations.specs.Operations.{OperationConflictAt, spelling_of};
ghost use Rattle.dsa_lists.specs.Submissions.{CanBeSubmitted, IsFirst, IsOperationSubmission, TouchesArea, NoneHas, OperationSubmission, PlansOperationList, PlansEntries, operation_submission_of};

use crate::planning::search_operations;
use dsa_calls::{PlanFault, first_over};
use dsa_descriptor::{MOST_PIECES, Span, read_entries};
use dsa_emission::{Emission, emit_entries};
use dsa_operations::{Operation, OperationList};
use dsa_plan::Certificate;
use dsa_ranges::{Touching, meets_some};
use dsa_search::Found;
use dsa_settings::{Plan, STAGED_LEN, Settings};
use dsa_splitter::SplitFault;
use std::alloc::{AllocError, Global};

/// Planned operations.
#[derive(Drop)]
pub struct PlannedOperations {
    /// The number of pieces that were planned.
    pub pieces: usize,
    /// The plan of these pieces. No legal plan that keeps the barriers costs less.
    pub plan: Plan,
    /// The certificate that none does.
    pub certificate: Certificate,
    /// What the plan costs, in the unit of the settings' prices.
    pub cost: u64,
    /// The bytes to submit.
    pub emission: Emission,
}

/// Whether the operation reads or writes an address of the area.
fn touches_area(operation: &Operation, area: Span) -> bool
    ensures { IsTrue result ↔ TouchesArea area operation.now }
{
    let touched = operation.touched_spans();
    if meets_some(area, &touched.reads) {
        return true;
    }
    meets_some(area, &touched.writes)
}

/// The index of the first operation that reads or writes an address of the area.
fn first_meeting(operations: &[Operation], area: Span) -> Option<usize>
    ensures { MatchOption result (NoneHas (TouchesArea area) operations.now)
        (λ i. IsFirst (TouchesArea area) operations.now i) }
{
    for (index, operation) in operations.iter().enumerate() {
        if touches_area(operation, area) {
            return Some(index);
        }
    }
    None
}

/// Why the operations cannot be submitted as they are, if they cannot.
pub(crate) fn refusal(operations: &[Operation], settings: &Settings) -> Option<PlanFault>
    ensures { MatchOption result (CanBeSubmitted settings.now operations.now)
        (λ fault. (barriers : List Bool) →
        PlansEntries settings.now operations.now barriers (Err fault)) }
{
    if operations.len() > MOST_PIECES {
        return Some(PlanFault::Split(SplitFault::TooManyPieces));
    }
    if let Some(index) = first_over(operations, settings.greatest_transfer()) {
        return Some(PlanFault::OverTransfer(index));
    }
    let area = Span {
        first: settings.staging(),
        len: STAGED_LEN * operations.len() as u64,
    };
    if let Some(index) = first_meeting(operations, area) {
        return Some(PlanFault::Split(SplitFault::StagingMeets(index)));
    }
    None
}

/// The plan of least cost for the operations and their barriers, with its certificate, its cost and its emission.
pub(crate) fn plan_as_they_are(
    alloc: Global,
    operations: &[Operation],
    barriers: &[bool],
    settings: &Settings,
) -> Result<PlannedOperations, AllocError>
    requires can { CanBeSubmitted settings.now operations.now }
    requires owner { AreOfOneOwner spelling_of operations.now }
    ensures { IfOk result (λ p. IsOperationSubmission
        settings.now operations.now barriers.now (operation_submission_of p)) }
{
    let Found {
        plan,
        prices,
        pairs,
    } = search_operations(alloc, operations, barriers, settings)?;
    let emission = emit_entries(alloc, &plan, operations, settings)?;
    // The last price is what the plan costs.
    let cost = prices[operations.len()];
    let certificate = Certificate {
        version: settings.version(),
        prices,
        pairs,
    };
    Ok(PlannedOperations {
        pieces: operations.len(),
        plan,
        certificate,
        cost,
        emission,
    })
}

/// Plans operations, as [`plan_operation_list`] plans those that bytes spell: for callers that have read a list
/// already. If they have barriers, the plan is of least cost among those that keep them.
///
/// # Errors
/// [`SplitFault::TooManyPieces`] if there are more than 65,536 operations; else [`PlanFault::OverTransfer`] of the
/// first operation that is longer than the greatest transfer; else [`SplitFault::StagingMeets`] of the first that reads
/// or writes an address of the staging area, which has 96 bytes for each operation; [`PlanFault::Memory`] at the first
/// allocation that fails.
pub fn plan_entries(
    alloc: Global,
    operations: &OperationList,
    settings: &Settings,
) -> Result<PlannedOperations, PlanFault>
    ensures answer { OrMemory operation_submission_of (PlansEntries
        settings.now operations.now.entries.items operations.now.barriers.items) result }
    // What it answers is the one outcome, but for an allocation failure.
    ensures only { (outcome : Result OperationSubmission PlanFault) → PlansEntries
        settings.now operations.now.entries.items operations.now.barriers.items outcome →
        IsOrMemory operation_submission_of outcome result }
    // What is refused is refused for its cause, whether or not there is memory.
    ensures refused { (fault : PlanFault) → PlansEntries
        settings.now operations.now.entries.items operations.now.barriers.items (Err fault) →
        result ≡ Err fault }
    // The plan keeps the barriers, and no legal plan that does costs less.
    ensures least { IfOk result (λ p. IsLeast
        (WithBarriers (OperationConflictAt operations.now.entries.items)
        operations.now.barriers.items)
        settings.now.greatest_batch (tariff_of settings.now)
        (length operations.now.entries.items) p.plan) }
    // The certificate is good for the cost.
    ensures certificate_good { IfOk result (λ p. IsGood
        (WithBarriers (OperationConflictAt operations.now.entries.items)
        operations.now.barriers.items)
        settings.now.greatest_batch (tariff_of settings.now)
        (length operations.now.entries.items)
        p.certificate.prices.items p.certificate.pairs.items p.cost) }
{
    if let Some(fault) = refusal(&operations.entries, settings) {
        return Err(fault);
    }
    let planned = plan_as_they_are(alloc, &operations.entries, &operations.barriers, settings)?;
    Ok(planned)
}

/// Plans the operations that the bytes spell, as [`plan_entries`] plans those of a list that was read: finds the chosen
/// plan and its certificate, and writes the bytes that submit it. No operation is split. One with the flag 0x0001,
/// fence, begins after a barrier, which the plan keeps; a fence on the first operation says nothing.
///
/// # Errors
/// The first fault of the bytes without their fences as a list, as [`read_entries`] reports it; else the first cause to
/// refuse the operations, as [`plan_entries`] reports it; [`PlanFault::Memory`] at the first allocation that fails.
pub fn plan_operation_list(
    alloc: Global,
    list: &[u8],
    settings: &Settings,
) -> Result<PlannedOperations, PlanFault>
    ensures answer { OrMemory operation_submission_of
        (PlansOperationList list.now settings.now) result }
    // What it answers is the one outcome, but for an allocation failure.
    ensures only { (outcome : Result OperationSubmission PlanFault) →
        PlansOperationList list.now settings.now outcome →
        IsOrMemory operation_submission_of outcome result }
{
    let operations = read_entries::<Operation>(alloc, list)?;
    plan_entries(alloc, &operations, settings)
}
