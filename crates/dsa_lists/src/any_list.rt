//! Lists of descriptors, and lists with checksums.

ghost use Rattle.std.specs.Prelude.{◌≡◌, ◌⊎◌, ◌↔◌, ℕ, Err, IfOk, IsTrue, Ok, Result};
ghost use Rattle.dsa_descriptor.specs.declared.fault.ListFault.{ListFault};
ghost use Rattle.dsa_plan.specs.Certificate.{contents};
ghost use Rattle.dsa_calls.specs.declared.checking.FencedFault.{FencedFault};
ghost use Rattle.dsa_calls.specs.declared.checking.FencedFault.TheVariants.{Call};
ghost use Rattle.dsa_calls.specs.declared.fault.PlanFault.{PlanFault};
ghost use Rattle.dsa_calls.specs.declared.fault.PlanFault.TheVariants.{List as InList, Memory};
ghost use Rattle.dsa_calls.specs.Lists.{IsOrMemory, OrMemory};
ghost use Rattle.dsa_calls.specs.Planned.{submission_of};
ghost use Rattle.dsa_lists.specs.AnyLists.{ChecksAnyList, IsLeastEmissionOfAnyList, IsLeastOfAnyList, JudgesAnyList, PlansAnyList, counted};
ghost use Rattle.dsa_lists.specs.Submissions.{OperationSubmission, operation_submission_of};

use crate::checking::check_operation_list;
use crate::judging::judge_operation_list;
use crate::submitting::{PlannedOperations, plan_operation_list};
use dsa_calls::{
    FencedFault, PlanFault, Planned, check_fenced_list, judge_fenced_list, plan_fenced_list,
};
use dsa_plan::{Certificate, Plan, Settings};
use std::alloc::Global;

/// What was planned of a list of descriptors, with the number of its pieces in place of these.
#[inline(always)]
fn counted(planned: Planned) -> PlannedOperations
    ensures { operation_submission_of result ≡ counted (submission_of planned) }
{
    PlannedOperations {
        pieces: planned.pieces.len(),
        plan: planned.plan,
        certificate: planned.certificate,
        cost: planned.cost,
        emission: planned.emission,
    }
}

/// Whether the fault says that bytes are no list of descriptors.
pub(crate) fn is_of_bytes(fault: PlanFault) -> bool
    ensures { IsTrue result ↔ ((cause : ListFault) × (fault ≡ InList cause)) }
{
    matches!(fault, PlanFault::List(_))
}

/// Plans a list that may have checksums: one of descriptors as [`plan_fenced_list`] does, which splits long operations,
/// and any other as [`plan_operation_list`] does, which splits none.
///
/// # Errors
/// As [`plan_fenced_list`] reports it if the bytes without their fences are a list of descriptors; else as
/// [`plan_operation_list`] does.
pub fn plan_any_list(
    alloc: Global,
    list: &[u8],
    settings: &Settings,
) -> Result<PlannedOperations, PlanFault>
    ensures answer { OrMemory operation_submission_of
        (PlansAnyList list.now settings.now) result }
    // What it answers is the one outcome, but for an allocation failure.
    ensures only { (outcome : Result OperationSubmission PlanFault) →
        PlansAnyList list.now settings.now outcome →
        IsOrMemory operation_submission_of outcome result }
    // The plan keeps the barriers, no legal plan that does costs less, and its certificate is good.
    ensures least { IfOk result
        (λ p. IsLeastOfAnyList list.now settings.now (operation_submission_of p)) }
    // Checking the emission for the list, with the certificate, answers the cost.
    ensures checks { IfOk result (λ p. ChecksAnyList list.now p.emission.portal.items
        p.emission.staging.items settings.now (contents p.certificate) (Ok p.cost)) }
{
    match plan_fenced_list(alloc, list, settings) {
        Ok(planned) => Ok(counted(planned)),
        Err(fault) => {
            if is_of_bytes(fault) {
                return plan_operation_list(alloc, list, settings);
            }
            Err(fault)
        }
    }
}

/// The cost of the plan that the bytes of a portal and a staging area submit for a list that may have checksums, as
/// [`check_fenced_list`] checks them if the list is one of descriptors, and else as [`check_operation_list`] does.
///
/// # Errors
/// As the one of the two reports it.
pub fn check_any_list(
    alloc: Global,
    list: &[u8],
    portal: &[u8],
    staging: &[u8],
    settings: &Settings,
    certificate: &Certificate,
) -> Result<u64, FencedFault>
    ensures answer { (result ≡ Err (Call Memory)) ⊎
        ChecksAnyList list.now portal.now staging.now settings.now
        (contents certificate.now) result }
    // What it answers is the one outcome, but for an allocation failure.
    ensures only { (outcome : Result ℕ FencedFault) →
        ChecksAnyList list.now portal.now staging.now settings.now
        (contents certificate.now) outcome → (result ≡ Err (Call Memory)) ⊎ (result ≡ outcome) }
    // The bytes submit the list's pieces, by a plan that keeps the barriers; no such plan costs less, whoever wrote the
    // certificate.
    ensures least { IfOk result
        (IsLeastEmissionOfAnyList list.now portal.now staging.now settings.now) }
{
    match check_fenced_list(alloc, list, portal, staging, settings, certificate) {
        Ok(cost) => Ok(cost),
        Err(FencedFault::OtherPiece(index)) => Err(FencedFault::OtherPiece(index)),
        Err(FencedFault::Call(fault)) => {
            if is_of_bytes(fault) {
                return check_operation_list(alloc, list, portal, staging, settings, certificate);
            }
            Err(FencedFault::Call(fault))
        }
    }
}

/// The cost of the plan for a list that may have checksums, none of whose operations is split, as [`judge_fenced_list`]
/// judges it if the list is one of descriptors, and else as [`judge_operation_list`] does.
///
/// # Errors
/// As the one of the two reports it.
pub fn judge_any_list(
    alloc: Global,
    list: &[u8],
    plan: &Plan,
    settings: &Settings,
) -> Result<u64, PlanFault>
    ensures answer { OrMemory (λ cost. cost)
        (JudgesAnyList list.now plan.now settings.now) result }
    // What it answers is the one outcome, but for an allocation failure.
    ensures only { (outcome : Result ℕ PlanFault) →
        JudgesAnyList list.now plan.now settings.now outcome →
        IsOrMemory (λ cost. cost) outcome result }
{
    match judge_fenced_list(alloc, list, plan, settings) {
        Ok(cost) => Ok(cost),
        Err(fault) => {
            if is_of_bytes(fault) {
                return judge_operation_list(alloc, list, plan, settings);
            }
            Err(fault)
        }
    }
}
