//! The pieces of a list that may have checksums, and their plan.

ghost use Rattle.std.specs.Prelude.{◌≡◌, ◌⊎◌, Err, IfErr, IfOk, map};
ghost use Rattle.dsa_calls.specs.declared.fault.PlanFault.TheVariants.{Memory};
ghost use Rattle.dsa_lists.specs.AnyLists.{ArePiecesOfList, HasCostOf, IsAnyPlan, IsOfDescriptors, PlansAnyList};
ghost use Rattle.dsa_operations.specs.declared.operation.Operation.TheVariants as operation;

use crate::any_list::is_of_bytes;
use crate::checking::ready_operations;
use crate::submitting::plan_as_they_are;
use dsa_calls::{PlanFault, fenced_pieces, plan_fenced_list};
use dsa_descriptor::Descriptor;
use dsa_operations::Operation;
use dsa_settings::{Plan, Settings};
use std::alloc::{AllocError, Global};

/// The pieces of a list that may have checksums.
#[derive(Drop)]
pub enum AnyPieces {
    /// Those into which the operations of a list of descriptors are split.
    Descriptors(Vec<Descriptor>),
    /// The operations of any other list, as they are.
    Operations(Vec<Operation>),
}

/// The pieces of a list, and the plan of least cost for them.
#[derive(Drop)]
pub struct AnyPlanned {
    /// The pieces, those of a list of descriptors too as operations.
    pub operations: Vec<Operation>,
    /// For each whether it begins after a barrier; empty if there is none.
    pub barriers: Vec<bool>,
    /// Their plan.
    pub plan: Plan,
    /// What it costs, in the unit of the settings' prices.
    pub cost: u64,
}

/// Each descriptor as an operation.
pub fn operations_of(
    alloc: Global,
    descriptors: &[Descriptor],
) -> Result<Vec<Operation>, AllocError>
    ensures { IfOk result
        (λ operations. operations.items ≡ map operation.Descriptor descriptors.now) }
{
    let mut operations = Vec::with_capacity(alloc, descriptors.len())?;
    for k in 0..descriptors.len() {
        operations.push(Operation::Descriptor(descriptors[k]))?;
    }
    Ok(operations)
}

/// The pieces of a list that may have checksums: those into which the operations of a list of descriptors are split,
/// and of any other list the operations, as they are.
///
/// # Errors
/// As [`plan_any_list`](crate::plan_any_list) reports it.
pub fn any_pieces(alloc: Global, list: &[u8], settings: &Settings) -> Result<AnyPieces, PlanFault>
    ensures found { IfOk result (ArePiecesOfList list.now settings.now) }
    ensures fault { IfErr result
        (λ fault. (fault ≡ Memory) ⊎ PlansAnyList list.now settings.now (Err fault)) }
{
    match fenced_pieces(alloc, list, settings) {
        Ok(found) => Ok(AnyPieces::Descriptors(found.descriptors)),
        Err(fault) => {
            if !is_of_bytes(fault) {
                return Err(fault);
            }
            let operations = ready_operations(alloc, list, settings)?;
            Ok(AnyPieces::Operations(operations.entries))
        }
    }
}

/// The operations of a list that is not one of descriptors, and their plan.
fn plan_ready(alloc: Global, list: &[u8], settings: &Settings) -> Result<AnyPlanned, PlanFault>
    ensures found { ¬ IsOfDescriptors list.now → IfOk result (λ p. IsAnyPlan
        list.now settings.now p.operations.items p.barriers.items p.plan) }
    ensures cost { ¬ IsOfDescriptors list.now → IfOk result
        (λ p. HasCostOf list.now settings.now p.cost) }
    ensures fault { ¬ IsOfDescriptors list.now → IfErr result
        (λ fault. (fault ≡ Memory) ⊎ PlansAnyList list.now settings.now (Err fault)) }
{
    let read = ready_operations(alloc, list, settings)?;
    let planned = plan_as_they_are(alloc, &read.entries, &read.barriers, settings)?;
    Ok(AnyPlanned {
        operations: read.entries,
        barriers: read.barriers,
        plan: planned.plan,
        cost: planned.cost,
    })
}

/// The pieces of a list that may have checksums, as [`any_pieces`] finds them, and the plan that
/// [`plan_any_list`](crate::plan_any_list) answers for it: for callers who have to know which piece is where.
///
/// # Errors
/// As [`plan_any_list`](crate::plan_any_list) reports it.
pub fn plan_any_pieces(
    alloc: Global,
    list: &[u8],
    settings: &Settings,
) -> Result<AnyPlanned, PlanFault>
    ensures found { IfOk result (λ p. IsAnyPlan list.now settings.now
        p.operations.items p.barriers.items p.plan) }
    ensures cost { IfOk result (λ p. HasCostOf list.now settings.now p.cost) }
    ensures fault { IfErr result
        (λ fault. (fault ≡ Memory) ⊎ PlansAnyList list.now settings.now (Err fault)) }
{
    match plan_fenced_list(alloc, list, settings) {
        Ok(planned) => {
            let operations = operations_of(alloc, &planned.pieces)?;
            Ok(AnyPlanned {
                operations,
                barriers: planned.barriers,
                plan: planned.plan,
                cost: planned.cost,
            })
        }
        Err(fault) => {
            if !is_of_bytes(fault) {
                return Err(fault);
            }
            plan_ready(alloc, list, settings)
        }
    }
}
