//! What is left of a list that may have checksums.

ghost use Rattle.std.specs.Prelude.{◌≡◌, ◌↔◌, IfOk, IsTrue};
ghost use Rattle.dsa_descriptor.specs.declared.fault.ListFault.{ListFault};
ghost use Rattle.dsa_calls.specs.declared.fault.PlanFault.TheVariants.{List as InList};
ghost use Rattle.dsa_resume.specs.declared.fault.ResumeFault.TheVariants.{Plan};
ghost use Rattle.dsa_resume.specs.Rest.{remainder_of};
ghost use Rattle.dsa_resume.specs.Resumed.{IsAnswer};
ghost use Rattle.dsa_lists.specs.Resuming.{IsListAgain, ResumesAnyList, ResumesOperationList, as_operations};

use crate::checking::ready_operations;
use crate::pieces::operations_of;
use dsa_calls::PlanFault;
use dsa_descriptor::Descriptor;
use dsa_operations::Operation;
use dsa_resume::{LeftOrder, Rest, ResumeFault, resume_list, resume_pieces};
use dsa_settings::Settings;
use std::alloc::{AllocError, Global};

/// What is left of a list of operations, as [`resume_list`] finds it of a list of descriptors: the operations that have
/// not finished by their completion records, in the order asked for, with their barriers. None was split.
///
/// # Errors
/// What planning refuses of the list, as [`plan_operation_list`](crate::plan_operation_list) reports it; else what
/// [`resume_pieces`] refuses.
pub fn resume_operation_list(
    alloc: Global,
    list: &[u8],
    settings: &Settings,
    records: &[u8],
    given_up: &[u8],
    order: LeftOrder,
) -> Result<Rest<Operation>, ResumeFault>
    ensures answer { IsAnswer (ResumesOperationList
        settings.now list.now records.now given_up.now order) result }
    // What is left can be planned with the same settings.
    ensures again { IfOk result (λ rest. IsListAgain settings.now (remainder_of rest)) }
{
    let operations = match ready_operations(alloc, list, settings) {
        Ok(operations) => operations,
        Err(fault) => return Err(ResumeFault::Plan(fault)),
    };
    let (entries, barriers) = (&operations.entries, &operations.barriers);
    resume_pieces(alloc, entries, barriers, records, given_up, order)
}

/// What is left of descriptors, as operations.
fn as_operations(alloc: Global, rest: Rest<Descriptor>) -> Result<Rest<Operation>, AllocError>
    ensures { IfOk result
        (λ seen. remainder_of seen ≡ as_operations (remainder_of rest)) }
{
    Ok(Rest {
        pieces: operations_of(alloc, &rest.pieces)?,
        barriers: rest.barriers,
        left_out: rest.left_out,
    })
}

/// Whether the fault says that bytes are no list of descriptors.
fn is_of_other_bytes(fault: ResumeFault) -> bool
    ensures { IsTrue result ↔ ((cause : ListFault) × (fault ≡ Plan (InList cause))) }
{
    matches!(fault, ResumeFault::Plan(PlanFault::List(_)))
}

/// What is left of a list that may have checksums: one of descriptors is resumed as [`resume_list`] does it, and any
/// other as [`resume_operation_list`] does.
///
/// # Errors
/// Those of [`resume_list`]; if the bytes are no list of descriptors, those of [`resume_operation_list`].
pub fn resume_any_list(
    alloc: Global,
    list: &[u8],
    settings: &Settings,
    records: &[u8],
    given_up: &[u8],
    order: LeftOrder,
) -> Result<Rest<Operation>, ResumeFault>
    ensures answer { IsAnswer (ResumesAnyList
        settings.now list.now records.now given_up.now order) result }
    // What is left can be planned with the same settings.
    ensures again { IfOk result (λ rest. IsListAgain settings.now (remainder_of rest)) }
{
    match resume_list(alloc, list, settings, records, given_up, order) {
        Ok(rest) => match as_operations(alloc, rest) {
            Ok(rest) => Ok(rest),
            Err(_) => Err(ResumeFault::Plan(PlanFault::Memory)),
        },
        Err(fault) => {
            if is_of_other_bytes(fault) {
                return resume_operation_list(alloc, list, settings, records, given_up, order);
            }
            Err(fault)
        }
    }
}
