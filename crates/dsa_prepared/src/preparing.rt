//! Preparing a list: planning it, and keeping its submission with each address as a region and an offset.

ghost use Rattle.std.specs.Prelude.{◌≡◌, ◌⊎◌, List, IfErr, IfOk, Err, ℕ, map};
ghost use Rattle.dsa_descriptor.specs.declared.descriptor.Descriptor.{Descriptor};
ghost use Rattle.dsa_descriptor.specs.Fences.{barriers_of, unfenced_list};
ghost use Rattle.dsa_calls.specs.Lists.{IsListOf};
ghost use Rattle.dsa_calls.specs.declared.fault.PlanFault.TheVariants.{Memory};
ghost use Rattle.dsa_prepared.specs.declared.fault.PrepareFault.{PrepareFault};
ghost use Rattle.dsa_prepared.specs.declared.fault.PrepareFault.TheVariants.{Plan};
ghost use Rattle.dsa_operations.specs.declared.operation.Operation.TheVariants as operation;
ghost use Rattle.dsa_prepared.specs.Preparing.{IsCostedOf, IsFirstPrepareFault, IsKept, IsPlaceFault};
ghost use Rattle.dsa_prepared.specs.Sound.{CanBeKept};

use crate::fault::PrepareFault;
use crate::places::{first_outside, region_fault};
use crate::prepared::Prepared;
use crate::template::template_of;
use dsa_calls::{PlanFault, Planned, plan_operations};
use dsa_descriptor::{Descriptor, DescriptorList, Span, read_descriptor_list};
use dsa_lists::operations_of;
use dsa_operations::Operation;
use dsa_plan::{Plan as GroupPlan, Settings};
use std::alloc::Global;

/// A prepared list, and what its plan costs.
#[derive(Drop)]
pub struct Costed {
    /// The prepared submission.
    pub prepared: Prepared,
    /// What the plan costs, in the unit of the settings' prices.
    pub cost: u64,
}

/// Keeps the submission of operations and their pieces by this plan.
pub(crate) fn keep(
    alloc: Global,
    operations: &[Operation],
    pieces: &[Operation],
    plan: &GroupPlan,
    settings: &Settings,
    regions: &[Span],
) -> Result<Prepared, PrepareFault>
    requires { CanBeKept settings.now operations.now pieces.now plan.now }
    ensures kept { IfOk result
        (IsKept settings.now regions.now operations.now pieces.now plan.now) }
    ensures fault { IfErr result (λ fault. (fault ≡ Plan Memory) ⊎
        IsPlaceFault settings.now regions.now operations.now fault) }
{
    if let Some(fault) = region_fault(regions) {
        return Err(fault);
    }
    if let Some(i) = first_outside(operations, regions, settings.greatest_transfer()) {
        return Err(PrepareFault::Outside(i));
    }
    match template_of(alloc, regions, operations, plan, pieces) {
        Ok(prepared) => Ok(prepared),
        Err(_) => Err(PrepareFault::Plan(PlanFault::Memory)),
    }
}

/// Keeps the submission of planned descriptors.
fn keep_descriptors(
    alloc: Global,
    descriptors: &[Descriptor],
    planned: &Planned,
    settings: &Settings,
    regions: &[Span],
) -> Result<Prepared, PrepareFault>
    requires { CanBeKept settings.now (map operation.Descriptor descriptors.now)
        (map operation.Descriptor planned.now.pieces.items) planned.now.plan }
    ensures kept { IfOk result (IsKept settings.now regions.now
        (map operation.Descriptor descriptors.now)
        (map operation.Descriptor planned.now.pieces.items) planned.now.plan) }
    ensures fault { IfErr result (λ fault. (fault ≡ Plan Memory) ⊎ IsPlaceFault settings.now
        regions.now (map operation.Descriptor descriptors.now) fault) }
{
    let Ok(operations) = operations_of(alloc, descriptors) else {
        return Err(PrepareFault::Plan(PlanFault::Memory));
    };
    let Ok(pieces) = operations_of(alloc, &planned.pieces) else {
        return Err(PrepareFault::Plan(PlanFault::Memory));
    };
    keep(
        alloc,
        &operations,
        &pieces,
        &planned.plan,
        settings,
        regions,
    )
}

/// Plans operations that keep their barriers, and keeps their submission.
fn prepare_operations(
    alloc: Global,
    operations: &DescriptorList,
    settings: &Settings,
    regions: &[Span],
) -> Result<Costed, PrepareFault>
    ensures prepared { (list : List ℕ) →
        IsListOf (unfenced_list list) operations.now.descriptors.items →
        operations.now.barriers.items ≡ barriers_of list → IfOk result (λ x. IsCostedOf list
        settings.now regions.now operations.now.descriptors.items x.prepared x.cost) }
    ensures fault { (list : List ℕ) →
        IsListOf (unfenced_list list) operations.now.descriptors.items →
        operations.now.barriers.items ≡ barriers_of list →
        IfErr result (λ fault. (fault ≡ Plan Memory) ⊎
        IsFirstPrepareFault list settings.now regions.now fault) }
{
    let planned = match plan_operations(alloc, operations, settings) {
        Ok(planned) => planned,
        Err(fault) => return Err(PrepareFault::Plan(fault)),
    };
    match keep_descriptors(alloc, &operations.descriptors, &planned, settings, regions) {
        Ok(prepared) => Ok(Costed {
            prepared,
            cost: planned.cost,
        }),
        Err(fault) => Err(fault),
    }
}

/// Plans the operations that the bytes spell, as [`plan_fenced_list`](dsa_calls::plan_fenced_list()) does, and keeps
/// their submission so that [`fill_rows`](crate::fill_rows) writes it for other buffers, with the fences that keep its
/// barriers. It also returns what the plan costs. The regions are the buffers with which the list was made: each range
/// of each operation, and the row of the records of its pieces, lies in one of them. They come in the order of their
/// addresses.
///
/// # Errors
/// What [`plan_fenced_list`](dsa_calls::plan_fenced_list()) refuses, as [`PrepareFault::Plan`]; for the least region
/// [`PrepareFault::RegionWrap`], or else `RegionOrder`; the least operation that is `Outside`;
/// `Plan(PlanFault::Memory)` at the first allocation that fails.
pub fn prepare(
    alloc: Global,
    list: &[u8],
    settings: &Settings,
    regions: &[Span],
) -> Result<Costed, PrepareFault>
    // What it answers is the template of the planned list, and the plan's cost.
    ensures prepared { IfOk result (λ x. (ds : List Descriptor) ×
        IsCostedOf list.now settings.now regions.now ds x.prepared x.cost) }
    // A refusal is the first cause, or that an allocation failed.
    ensures fault { IfErr result (λ fault. (fault ≡ Plan Memory) ⊎
        IsFirstPrepareFault list.now settings.now regions.now fault) }
    // The first cause is the answer, unless an allocation failed before it was found.
    ensures refused { (fault : PrepareFault) →
        IsFirstPrepareFault list.now settings.now regions.now fault →
        (result ≡ Err fault) ⊎ (result ≡ Err (Plan Memory)) }
{
    match read_descriptor_list(alloc, list) {
        Ok(operations) => prepare_operations(alloc, &operations, settings, regions),
        Err(fault) => Err(PrepareFault::Plan(PlanFault::from(fault))),
    }
}
