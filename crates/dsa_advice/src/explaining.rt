//! `explain`: what the plan of a text, of the bytes of a list or of a job does and why.

ghost use Rattle.std.specs.Prelude.{◌≡◌, ◌⊎◌, ◌≤◌, [], IfOk, List, Some, Err, length, map, ℕ};
ghost use Rattle.dsa_descriptor.specs.Descriptors.{fields};
ghost use Rattle.dsa_descriptor.specs.Fences.{barriers_of, unfenced_list};
ghost use Rattle.dsa_descriptor.specs.Pieces.{most_pieces};
ghost use Rattle.dsa_emission.specs.EmissionFaults.{IsEmission};
ghost use Rattle.dsa_plan.specs.Certificate.{contents};
ghost use Rattle.dsa_calls.specs.declared.fault.PlanFault.{PlanFault};
ghost use Rattle.dsa_calls.specs.declared.fault.PlanFault.TheVariants.{Memory};
ghost use Rattle.dsa_calls.specs.Checked.{Checks, ChecksPlan};
ghost use Rattle.dsa_calls.specs.Lists.{IsListOf};
ghost use Rattle.dsa_explain.specs.Explained.{CanBeExplained};
ghost use Rattle.dsa_explain.specs.Runs.{labelling};
ghost use Rattle.dsa_advice.specs.Comments.{names_from};
ghost use Rattle.dsa_advice.specs.Explained.{ExplainsChecked, ExplainsJobList, ExplainsList, ExplainsOperations, ExplainsText, labels_of};
ghost use Rattle.dsa_advice.specs.Refusals.{IsRefusal};
ghost use Rattle.dsa_advice.specs.Shown.{AnswersPlan};

use crate::answer::Answer;
use crate::checks::check_notes;
use crate::comments::comments_in;
use crate::decimals::decimal_notes;
use crate::form::Form;
use crate::kept::{barrier_notes, joined, unkept_notes};
use crate::listed::listed_note;
use crate::origins::origins_of;
use crate::overlapping::overlap_notes;
use crate::overwritten::overwritten_notes;
use crate::rows::warnings_of;
use crate::shown::{Subject, answer_plan, plain};
use crate::unplanned::{Source, refuse_unplanned};
use dsa_calls::{PlanFault, check_plan};
use dsa_descriptor::{Descriptor, read_entries, read_list};
use dsa_explain::{Buffer, Labels};
use dsa_lines::parse_text;
use dsa_lists::{AnyPlanned, as_operation_list, operations_of, plan_read_list};
use dsa_operations::{Operation, OperationList};
use dsa_plan::{Certificate, Plan, Settings, read_emission};
use std::alloc::{AllocError, Global};

/// What was planned, to be shown.
fn subject_of<'a>(planned: &'a AnyPlanned, labels: Labels<'a>, buffers: &'a [Buffer]) -> Subject<'a>
    ensures plan { result.plan.now ≡ planned.now.plan }
    ensures pieces { result.pieces.now ≡ planned.now.operations.items }
    ensures barriers { result.barriers.now ≡ planned.now.barriers.items }
    ensures labels { labelling result.labels ≡ labelling labels.entry }
    ensures least { result.least ≡ Some planned.now.cost }
{
    Subject {
        plan: &planned.plan,
        pieces: &planned.operations,
        barriers: &planned.barriers,
        labels,
        buffers,
        least: Some(planned.cost),
    }
}

/// The answer for planned operations.
fn answer_planned(
    alloc: Global,
    operations: &[Operation],
    planned: &AnyPlanned,
    settings: &Settings,
    form: Form,
    source: Source<'_>,
) -> Result<Answer, AllocError>
    requires { CanBeExplained settings.now planned.now.operations.items
        planned.now.barriers.items planned.now.plan }
    ensures { IfOk result (AnswersPlan settings.now planned.now.plan planned.now.operations.items
        planned.now.barriers.items
        (labels_of settings.now operations.now (names_from source.entry))
        (Some planned.now.cost) form) }
{
    let origins = origins_of(alloc, operations, settings)?;
    let comments = comments_in(alloc, source, matches!(form, Form::Picture(_)))?;
    let labels = Labels {
        origins: &origins,
        names: &comments.names,
    };
    let subject = subject_of(planned, labels, &comments.buffers);
    answer_plan(alloc, &subject, settings, form)
}

/// The notes and warnings about the operations themselves: about their records, and about regions that overlap.
pub(crate) fn operation_notes(
    alloc: Global,
    operations: &[Operation],
    settings: &Settings,
) -> Result<Option<String>, AllocError> {
    let shared = warnings_of(alloc, operations, settings)?;
    let overwritten = overwritten_notes(alloc, operations, settings)?;
    let overlaps = overlap_notes(alloc, operations, settings)?;
    joined(joined(shared, overwritten)?, overlaps)
}

/// The same, with the notes and warnings about its operations, about fences that the plan does
/// not keep, about barriers that a tracker does not see, about the text, and about what the list does not have.
fn answer_with_warnings(
    alloc: Global,
    list: &OperationList,
    planned: &AnyPlanned,
    settings: &Settings,
    form: Form,
    source: Source<'_>,
) -> Result<Answer, AllocError>
    requires { CanBeExplained settings.now planned.now.operations.items
        planned.now.barriers.items planned.now.plan }
    ensures { IfOk result (AnswersPlan settings.now planned.now.plan planned.now.operations.items
        planned.now.barriers.items
        (labels_of settings.now list.now.entries.items (names_from source.entry))
        (Some planned.now.cost) form) }
{
    let (operations, marks) = (list.entries.as_slice(), list.barriers.as_slice());
    let answer = answer_planned(alloc, operations, planned, settings, form, source)?;
    let barriers = barrier_notes(alloc, source, marks, form)?;
    let fences = unkept_notes(alloc, source, operations, marks, &planned.plan, settings)?;
    let of_barriers = joined(barriers, fences)?;
    let of_operations = operation_notes(alloc, operations, settings)?;
    let checks = check_notes(alloc, source, operations, marks, &planned.plan, settings)?;
    let of_text = joined(checks, decimal_notes(alloc, source)?)?;
    let of_list = joined(listed_note(alloc, source, operations)?, of_operations)?;
    let warnings = joined(of_list, joined(of_barriers, of_text)?)?;
    Ok(answer.with_warnings(warnings))
}

/// What the plan of least cost of these operations and barriers does and why.
fn explain_operations(
    alloc: Global,
    list: &OperationList,
    settings: &Settings,
    form: Form,
    source: Source<'_>,
) -> Result<Answer, AllocError>
    ensures { IfOk result (ExplainsOperations list.now.entries.items list.now.barriers.items
        (names_from source.entry) settings.now form) }
{
    match plan_read_list(alloc, list, settings) {
        Ok(planned) => answer_with_warnings(alloc, list, &planned, settings, form, source),
        Err(fault) => refuse_unplanned(alloc, &list.entries, settings, source, fault),
    }
}

/// What the plan of least cost of the list of a job does and why, in this form. Such a list has neither barriers nor
/// checksums.
pub fn explain_list(
    alloc: Global,
    list: &[u8],
    settings: &Settings,
    form: Form,
) -> Result<Answer, AllocError>
    ensures { IfOk result (ExplainsJobList list.now settings.now form) }
{
    match read_list(alloc, list) {
        Ok(descriptors) => {
            let operations = as_operation_list(alloc, &descriptors)?;
            explain_operations(alloc, &operations, settings, form, Source::Job)
        }
        Err(fault) => Answer::list_fault(alloc, list, fault),
    }
}

/// What the plan of least cost of a list does and why, in this form. Each fence of the list is a barrier.
pub fn explain_fenced(
    alloc: Global,
    list: &[u8],
    settings: &Settings,
    form: Form,
) -> Result<Answer, AllocError>
    ensures { IfOk result (ExplainsList list.now settings.now form) }
{
    match read_entries::<Operation>(alloc, list) {
        Ok(operations) => explain_operations(alloc, &operations, settings, form, Source::List),
        Err(fault) => Answer::list_fault(alloc, list, fault),
    }
}

/// What the plan of least cost of a text of operations and barriers does and why.
pub fn explain_text(
    alloc: Global,
    text: &[u8],
    keep_fences: bool,
    settings: &Settings,
    form: Form,
) -> Result<Answer, AllocError>
    ensures { IfOk result (ExplainsText text.now keep_fences settings.now form) }
{
    match parse_text(alloc, text, keep_fences) {
        Ok(read) => {
            let source = Source::Text(text, &read.lines);
            explain_operations(alloc, &read.list, settings, form, source)
        }
        Err(fault) => Answer::text_fault(alloc, text, fault),
    }
}

/// What the plan of these pieces does and why, if the certificate proves that none costs less.
fn explain_emission(
    alloc: Global,
    plan: &Plan,
    pieces: &[Descriptor],
    certificate: &Certificate,
    settings: &Settings,
    form: Form,
) -> Result<Answer, AllocError>
    requires { length pieces.now ≤ most_pieces }
    ensures answer { (portal staging : List ℕ) →
        IsEmission settings.now portal staging plan.now pieces.now → IfOk result
        (ExplainsChecked portal staging settings.now (contents certificate.now) form) }
    ensures refused { (fault : PlanFault) →
        ChecksPlan settings.now
        (map fields pieces.now) plan.now (contents certificate.now) (Err fault) →
        IfOk result (IsRefusal fault) }
{
    match check_plan(pieces, &[], settings, plan, certificate) {
        Ok(cost) => {
            let operations = operations_of(alloc, pieces)?;
            answer_plan(alloc, &plain(plan, &operations, Some(cost)), settings, form)
        }
        Err(fault) => Answer::fault(alloc, fault),
    }
}

/// What the plan that a portal and a staging area submit does and why, if the certificate proves that none costs less.
pub fn explain_checked(
    alloc: Global,
    portal: &[u8],
    staging: &[u8],
    certificate: &Certificate,
    settings: &Settings,
    form: Form,
) -> Result<Answer, AllocError>
    ensures answer { IfOk result (ExplainsChecked portal.now staging.now settings.now
        (contents certificate.now) form) }
    // What `check` refuses is refused for the same cause, unless an allocation failed.
    ensures refused { (fault : PlanFault) →
        Checks portal.now staging.now settings.now (contents certificate.now) (Err fault) →
        IfOk result (λ a. IsRefusal Memory a ⊎ IsRefusal fault a) }
{
    match read_emission(alloc, portal, staging, settings) {
        Ok((plan, pieces)) => {
            explain_emission(alloc, &plan, &pieces, certificate, settings, form)
        }
        Err(fault) => Answer::fault(alloc, PlanFault::from(fault)),
    }
}
