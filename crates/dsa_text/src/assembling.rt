//! `assemble`: a text as the bytes of its list, or as a job.

ghost use Rattle.std.specs.Prelude.{◌≡◌, ◌++◌, ◌∷◌, [], IfOk, string_bytes};
ghost use Rattle.hex.specs.Hex.{encode_lower};
ghost use Rattle.dsa_descriptor.specs.Fences.{fenced_entries};
ghost use Rattle.dsa_operations.specs.Operations.{spelling_of};

use crate::inputs::refused_settings;
use crate::options::settings_words;
use clap::ArgMatches;
use dsa_advice::{
    Answer, Source, fence_lines, fenced_in, push_settings, refuse_unplanned, settings_of,
};
use dsa_calls::PlanFault;
use dsa_descriptor::{FieldFault, ListFault, write_entries};
use dsa_lines::{TextList, line_of_operation, parse_text};
use dsa_lists::descriptors_in;
use dsa_operations::{Operation, OperationList};
use dsa_plan::Settings;
use dsa_splitter::pieces;
use std::alloc::{AllocError, Global};

/// The bytes of a list in hexadecimal: an operation after a barrier has the flag 0x0001, fence.
fn digits_of(alloc: Global, list: &OperationList) -> Result<String, AllocError>
    ensures { IfOk result (λ text. string_bytes text ≡ encode_lower
        (fenced_entries spelling_of list.now.entries.items list.now.barriers.items)) }
{
    let bytes = write_entries(alloc, &list.entries, &list.barriers)?;
    hex::encode(alloc, bytes.as_slice())
}

/// A list in hexadecimal.
fn list_answer(alloc: Global, list: &OperationList) -> Result<Answer, AllocError>
    ensures status { IfOk result (λ a. a.status ≡ 0) }
    ensures text { IfOk result (λ a. string_bytes a.text ≡ encode_lower
        (fenced_entries spelling_of list.now.entries.items list.now.barriers.items)
        ++ 10 ∷ []) }
{
    let mut text = digits_of(alloc, list)?;
    text.push_str("\n")?;
    Ok(Answer::done(text))
}

/// A line for each fence of a text that its list does not have.
pub(crate) fn passed_over(
    alloc: Global,
    read: &TextList<'_>,
) -> Result<Option<String>, AllocError> {
    let fenced = fenced_in(alloc, &read.lines, &read.list.barriers)?;
    fence_lines(alloc, &read.lines, &fenced, "this fence is passed over")
}

/// The job to plan a list.
fn job_of_list(
    alloc: Global,
    list: &OperationList,
    settings: &Settings,
) -> Result<Answer, AllocError> {
    let mut job = String::from_str(alloc, "{\"do\":\"plan\",\"list\":\"")?;
    job.push_str(&digits_of(alloc, list)?)?;
    job.push_str("\",\"settings\":")?;
    push_settings(alloc, &mut job, settings)?;
    job.push_str("}\n")?;
    Ok(Answer::done(job))
}

/// The refusal of a job whose list would have a checksum, or a barrier before an operation: of the first that is so, as
/// `dsa` refuses the bytes.
fn refused_in_job(
    alloc: Global,
    read: &TextList<'_>,
    barrier: Option<usize>,
) -> Result<Answer, AllocError> {
    let checksum = read
        .list
        .entries
        .iter()
        .position(|operation| match operation {
            Operation::Descriptor(_) => false,
            Operation::Checksum(_) => true,
        });
    let (operation, why, fault) = match (checksum, barrier) {
        (Some(checksum), Some(barrier)) if barrier < checksum => {
            (barrier, "barrier before an operation", FieldFault::FlagBits)
        }
        (Some(checksum), _) => (checksum, "checksum", FieldFault::Opcode),
        (None, barrier) => (
            barrier.unwrap_or(0),
            "barrier before an operation",
            FieldFault::FlagBits,
        ),
    };
    let line = line_of_operation(&read.lines, operation);
    let words = format!(in alloc; "line {line}, operation {operation}: a job takes no {why}")?;
    let fault = ListFault::Field(operation, fault);
    Answer::fault_with(alloc, PlanFault::from(fault), &words)
}

/// The job to plan the list of a text. One that can't be planned, or has barriers or checksums, is refused here, where
/// its lines are known.
fn job_answer(
    alloc: Global,
    text: &[u8],
    read: &TextList<'_>,
    settings: &Settings,
) -> Result<Answer, AllocError> {
    let barrier = read.list.barriers.iter().position(|mark| *mark);
    let (Some(found), None) = (descriptors_in(alloc, &read.list)?, barrier) else {
        return refused_in_job(alloc, read, barrier);
    };
    match pieces(alloc, &found.descriptors, settings) {
        Ok(_) => job_of_list(alloc, &read.list, settings),
        Err(cause) => refuse_unplanned(
            alloc,
            &read.list.entries,
            settings,
            Source::Text(text, &read.lines),
            PlanFault::from(cause),
        ),
    }
}

/// What `assemble` answers: the bytes of a text's list, in which an operation after a barrier has the flag fence; or
/// the job to plan it. `fence` in a line is a barrier if fences are kept.
pub(crate) fn assemble_text(
    alloc: Global,
    matches: &ArgMatches<'_>,
    text: &[u8],
) -> Result<Answer, AllocError> {
    let words = settings_words(matches);
    let Some(settings) = settings_of(alloc, &words)? else {
        return refused_settings(alloc, &words);
    };
    let keep_fences = matches.get_flag("keep-fences");
    let read = match parse_text(alloc, text, keep_fences) {
        Ok(read) => read,
        Err(fault) => return Answer::text_fault(alloc, text, fault),
    };
    let answer = if matches.get_flag("job") {
        job_answer(alloc, text, &read, &settings)?
    } else {
        list_answer(alloc, &read.list)?
    };
    Ok(answer.with_warnings(passed_over(alloc, &read)?))
}
