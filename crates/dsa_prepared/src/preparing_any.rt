//! Preparing a list that may have checksums.

ghost use Rattle.std.specs.Prelude.{◌≡◌, ◌⊎◌, ◌↔◌, List, Err, IfErr, IfOk, IsTrue};
ghost use Rattle.dsa_descriptor.specs.declared.fault.ListFault.{ListFault};
ghost use Rattle.dsa_calls.specs.declared.fault.PlanFault.TheVariants.{List as InList, Memory};
ghost use Rattle.dsa_lists.specs.AnyLists.{IsOfDescriptors};
ghost use Rattle.dsa_operations.specs.declared.operation.Operation.{Operation};
ghost use Rattle.dsa_prepared.specs.declared.fault.PrepareFault.{PrepareFault};
ghost use Rattle.dsa_prepared.specs.declared.fault.PrepareFault.TheVariants.{Plan};
ghost use Rattle.dsa_prepared.specs.Preparing.{IsAnyCostedOf, IsFirstAnyPrepareFault};

use crate::fault::PrepareFault;
use crate::preparing::{Costed, keep, prepare};
use dsa_calls::PlanFault;
use dsa_descriptor::{Span, read_entries};
use dsa_lists::plan_entries;
use dsa_operations::Operation;
use dsa_plan::Settings;
use std::alloc::Global;

/// Plans the operations that the bytes spell as they are, and keeps their submission.
fn prepare_operation_list(
    alloc: Global,
    list: &[u8],
    settings: &Settings,
    regions: &[Span],
) -> Result<Costed, PrepareFault>
    ensures prepared { ¬ IsOfDescriptors list.now → IfOk result (λ x. (os : List Operation) ×
        IsAnyCostedOf list.now settings.now regions.now os x.prepared x.cost) }
    ensures fault { ¬ IsOfDescriptors list.now →
        IfErr result (λ fault. (fault ≡ Plan Memory) ⊎
        IsFirstAnyPrepareFault list.now settings.now regions.now fault) }
{
    let operations = match read_entries::<Operation>(alloc, list) {
        Ok(operations) => operations,
        Err(fault) => return Err(PrepareFault::Plan(PlanFault::from(fault))),
    };
    let planned = match plan_entries(alloc, &operations, settings) {
        Ok(planned) => planned,
        Err(fault) => return Err(PrepareFault::Plan(fault)),
    };
    let pieces = &operations.entries;
    match keep(alloc, pieces, pieces, &planned.plan, settings, regions) {
        Ok(prepared) => Ok(Costed {
            prepared,
            cost: planned.cost,
        }),
        Err(fault) => Err(fault),
    }
}

/// Whether the fault says that bytes are no list of descriptors.
fn is_of_other_bytes(fault: PrepareFault) -> bool
    ensures { IsTrue result ↔ ((cause : ListFault) × (fault ≡ Plan (InList cause))) }
{
    matches!(fault, PrepareFault::Plan(PlanFault::List(_)))
}

/// Plans a list that may have checksums, as [`plan_any_list`](dsa_lists::plan_any_list()) does, and keeps its
/// submission for other buffers: of a list of descriptors as [`prepare`] does, and of any other that of its operations
/// as they are. Each range of an operation and its record lie in one of the regions; a seed in memory is a range.
///
/// # Errors
/// Those of [`prepare`]; if the bytes are no list of descriptors, the same with what
/// [`plan_operation_list`](dsa_lists::plan_operation_list()) refuses.
pub fn prepare_any_list(
    alloc: Global,
    list: &[u8],
    settings: &Settings,
    regions: &[Span],
) -> Result<Costed, PrepareFault>
    // What it answers is the template of the planned list, and the plan's cost.
    ensures prepared { IfOk result (λ x. (os : List Operation) ×
        IsAnyCostedOf list.now settings.now regions.now os x.prepared x.cost) }
    // A refusal is the first cause, or that an allocation failed.
    ensures fault { IfErr result (λ fault. (fault ≡ Plan Memory) ⊎
        IsFirstAnyPrepareFault list.now settings.now regions.now fault) }
    // The first cause is the answer, unless an allocation failed before it was found.
    ensures refused { (fault : PrepareFault) →
        IsFirstAnyPrepareFault list.now settings.now regions.now fault →
        (result ≡ Err fault) ⊎ (result ≡ Err (Plan Memory)) }
{
    match prepare(alloc, list, settings, regions) {
        Ok(costed) => Ok(costed),
        Err(fault) => {
            if is_of_other_bytes(fault) {
                return prepare_operation_list(alloc, list, settings, regions);
            }
            Err(fault)
        }
    }
}
