//! Planning operations that were read already.

ghost use Rattle.std.specs.Prelude.{◌≡◌, ◌≢◌, ◌≤◌, [], IfErr, IfOk, MatchOption, length, map};
ghost use Rattle.dsa_descriptor.specs.Descriptors.{fields};
ghost use Rattle.dsa_descriptor.specs.Lists.{HaveOneOwner};
ghost use Rattle.dsa_descriptor.specs.Pieces.{most_pieces};
ghost use Rattle.dsa_settings.specs.Barriers.{WithBarriers};
ghost use Rattle.dsa_settings.specs.Legal.{IsLegal};
ghost use Rattle.dsa_calls.specs.Lists.{OrMemory};
ghost use Rattle.dsa_operations.specs.Operations.{OperationConflictAt};
ghost use Rattle.dsa_operations.specs.declared.operation.Operation.TheVariants as operation;
ghost use Rattle.dsa_lists.specs.ReadLists.{AreDescriptors, PlansEntire, PlansRead, PlansSplit, planned_pieces_of};
ghost use Rattle.dsa_lists.specs.Resuming.{LeavesLists};

use crate::pieces::{AnyPlanned, operations_of};
use crate::submitting::plan_entries;
use dsa_calls::{PlanFault, plan_operations};
use dsa_descriptor::{Descriptor, DescriptorList};
use dsa_operations::{Operation, OperationList};
use dsa_settings::Settings;
use std::alloc::{AllocError, Global};

/// The descriptors that the operations are; none if one makes a checksum.
fn descriptors_of(
    alloc: Global,
    operations: &[Operation],
) -> Result<Option<Vec<Descriptor>>, AllocError>
    ensures { IfOk result (λ found. MatchOption found (¬ AreDescriptors operations.now)
        (λ ds. operations.now ≡ map operation.Descriptor ds.items)) }
{
    let mut descriptors = Vec::with_capacity(alloc, operations.len())?;
    for operation in operations {
        match operation {
            Operation::Descriptor(descriptor) => descriptors.push(*descriptor)?,
            Operation::Checksum(_) => return Ok(None),
        }
    }
    Ok(Some(descriptors))
}

/// Descriptors of one owner with barriers.
fn with_barriers(
    alloc: Global,
    descriptors: Vec<Descriptor>,
    barriers: &[bool],
) -> Result<DescriptorList, AllocError>
    requires owner { HaveOneOwner (map fields descriptors.items) }
    requires marked { barriers.now ≢ [] → length barriers.now ≡ length descriptors.items }
    ensures descriptors { IfOk result (λ list. list.descriptors.items ≡ descriptors.items) }
    ensures barriers { IfOk result (λ list. list.barriers.items ≡ barriers.now) }
{
    Ok(DescriptorList {
        descriptors,
        barriers: Vec::from_slice(alloc, barriers)?,
    })
}

/// The operations as a list of descriptors, with their barriers; none if one makes a checksum.
///
/// # Errors
/// [`AllocError`] at the first allocation that fails.
pub fn descriptors_in(
    alloc: Global,
    list: &OperationList,
) -> Result<Option<DescriptorList>, AllocError>
    ensures { IfOk result (λ found. MatchOption found (¬ AreDescriptors list.now.entries.items)
        (λ ds. (list.now.entries.items ≡ map operation.Descriptor ds.descriptors.items)
        × (ds.barriers.items ≡ list.now.barriers.items))) }
{
    match descriptors_of(alloc, &list.entries)? {
        Some(descriptors) => Ok(Some(with_barriers(alloc, descriptors, &list.barriers)?)),
        None => Ok(None),
    }
}

/// Descriptors of one owner as operations without barriers.
///
/// # Errors
/// [`AllocError`] at the first allocation that fails.
pub fn as_operation_list(
    alloc: Global,
    descriptors: &[Descriptor],
) -> Result<OperationList, AllocError>
    requires { HaveOneOwner (map fields descriptors.now) }
    ensures { IfOk result (λ list. (list.barriers.items ≡ []) ×
        (list.entries.items ≡ map operation.Descriptor descriptors.now)) }
{
    Ok(OperationList {
        entries: operations_of(alloc, descriptors)?,
        barriers: Vec::new(alloc),
    })
}

/// Plans descriptors, which are split, and shows the pieces as operations.
fn plan_split(
    alloc: Global,
    list: &DescriptorList,
    settings: &Settings,
) -> Result<AnyPlanned, PlanFault>
    ensures answer { OrMemory planned_pieces_of (PlansSplit
        settings.now list.now.descriptors.items list.now.barriers.items) result }
    ensures marked { IfOk result
        (λ p. p.barriers.items ≢ [] → length p.barriers.items ≡ length p.operations.items) }
{
    let planned = plan_operations(alloc, list, settings)?;
    Ok(AnyPlanned {
        operations: operations_of(alloc, &planned.pieces)?,
        barriers: planned.barriers,
        plan: planned.plan,
        cost: planned.cost,
    })
}

/// Plans operations, one of which makes a checksum, as they are.
fn plan_entire(
    alloc: Global,
    list: &OperationList,
    settings: &Settings,
) -> Result<AnyPlanned, PlanFault>
    ensures answer { OrMemory planned_pieces_of (PlansEntire
        settings.now list.now.entries.items list.now.barriers.items) result }
    ensures marked { IfOk result
        (λ p. p.barriers.items ≢ [] → length p.barriers.items ≡ length p.operations.items) }
{
    let planned = plan_entries(alloc, list, settings)?;
    Ok(AnyPlanned {
        operations: Vec::from_slice(alloc, &list.entries)?,
        barriers: Vec::from_slice(alloc, &list.barriers)?,
        plan: planned.plan,
        cost: planned.cost,
    })
}

/// Plans operations that were read already, as [`plan_any_list`](crate::plan_any_list()) plans those that bytes spell:
/// descriptors alone as [`plan_operations`] does, which splits long ones, and others as [`plan_entries`] does, which
/// splits none. It returns the pieces as operations, with their plan and what it costs. What is left of them after a
/// failure is found by [`resume_pieces`](dsa_resume::resume_pieces()).
///
/// # Errors
/// As the one of the two reports it.
pub fn plan_read_list(
    alloc: Global,
    list: &OperationList,
    settings: &Settings,
) -> Result<AnyPlanned, PlanFault>
    ensures answer { OrMemory planned_pieces_of (PlansRead
        settings.now list.now.entries.items list.now.barriers.items) result }
    // The plan is legal for the pieces and keeps their barriers.
    ensures legal { IfOk result (λ p. IsLegal
        (WithBarriers (OperationConflictAt p.operations.items) p.barriers.items)
        settings.now.greatest_batch (length p.operations.items) p.plan) }
    ensures few { IfOk result (λ p. length p.operations.items ≤ most_pieces) }
    ensures marked { IfOk result
        (λ p. p.barriers.items ≢ [] → length p.barriers.items ≡ length p.operations.items) }
    // What is left of them after a failure can be planned with the same settings.
    ensures again { IfOk result (λ p. LeavesLists settings.now (planned_pieces_of p)) }
{
    match descriptors_in(alloc, list)? {
        Some(descriptors) => plan_split(alloc, &descriptors, settings),
        None => plan_entire(alloc, list, settings),
    }
}
