//! Checking the bytes that submit operations.

ghost use Rattle.std.specs.Prelude.{◌≡◌, ◌⊎◌, ℕ, Err, IfErr, IfOk, Result};
ghost use Rattle.dsa_descriptor.specs.Fences.{barriers_of};
ghost use Rattle.dsa_plan.specs.Certificate.{contents};
ghost use Rattle.dsa_calls.specs.declared.checking.FencedFault.{FencedFault};
ghost use Rattle.dsa_calls.specs.declared.checking.FencedFault.TheVariants.{Call};
ghost use Rattle.dsa_calls.specs.declared.fault.PlanFault.TheVariants.{Memory};
ghost use Rattle.dsa_lists.specs.Checking.{ChecksOperationList, IsLeastOperationEmission};
ghost use Rattle.dsa_lists.specs.Submissions.{AreReady, PlansOperationList};

use crate::submitting::refusal;
use dsa_calls::{FencedFault, PlanFault, check_pieces};
use dsa_descriptor::read_entries;
use dsa_operations::{Operation, OperationList};
use dsa_plan::{Certificate, Settings};
use std::alloc::Global;

/// The operations that the bytes spell, fenced or not, and their barriers, if they can be submitted as they are.
pub(crate) fn ready_operations(
    alloc: Global,
    list: &[u8],
    settings: &Settings,
) -> Result<OperationList, PlanFault>
    ensures ready { IfOk result
        (λ found. AreReady list.now settings.now found.entries.items) }
    ensures barriers { IfOk result (λ found. found.barriers.items ≡ barriers_of list.now) }
    ensures fault { IfErr result (λ fault. (fault ≡ Memory) ⊎
        PlansOperationList list.now settings.now (Err fault)) }
{
    let operations = read_entries::<Operation>(alloc, list)?;
    match refusal(&operations.entries, settings) {
        Some(fault) => Err(fault),
        None => Ok(operations),
    }
}

/// The cost of the plan that the bytes of a portal and a staging area submit for a list, as
/// [`plan_operation_list`](crate::plan_operation_list) reads it: the plan is legal for the operations of the list and
/// keeps its barriers, and the certificate proves that no such plan costs less. The list says where barriers are: a
/// submitted fence need not be one.
///
/// # Errors
/// What planning the list refuses, as [`plan_operation_list`](crate::plan_operation_list) reports it; else the first
/// cause to refuse the bytes, as [`check_pieces`] reports it; [`PlanFault::Memory`] if an allocation fails.
pub fn check_operation_list(
    alloc: Global,
    list: &[u8],
    portal: &[u8],
    staging: &[u8],
    settings: &Settings,
    certificate: &Certificate,
) -> Result<u64, FencedFault>
    ensures answer { (result ≡ Err (Call Memory)) ⊎
        ChecksOperationList list.now portal.now staging.now settings.now
        (contents certificate.now) result }
    // What it answers is the one outcome, but for an allocation failure.
    ensures only { (outcome : Result ℕ FencedFault) →
        ChecksOperationList list.now portal.now staging.now settings.now
        (contents certificate.now) outcome → (result ≡ Err (Call Memory)) ⊎ (result ≡ outcome) }
    // The bytes submit the list's operations, by a plan that keeps the barriers; no such plan costs less, whoever wrote
    // the certificate.
    ensures least { IfOk result
        (IsLeastOperationEmission list.now portal.now staging.now settings.now) }
{
    let operations = match ready_operations(alloc, list, settings) {
        Ok(operations) => operations,
        Err(fault) => return Err(FencedFault::Call(fault)),
    };
    check_pieces(
        alloc,
        &operations.entries,
        &operations.barriers,
        portal,
        staging,
        settings,
        certificate,
    )
}
