//! Notes and warnings about the fences and the barriers of a text: which fences a plan does not
//! keep, and that a tracker sees no barriers.

use crate::form::Form;
use crate::notes::Notes;
use crate::origins::count_of;
use crate::unplanned::Source;
use dsa_descriptor::mark_at;
use dsa_lines::{OperationLine, line_of_operation};
use dsa_operations::Operation;
use dsa_plan::{Plan, Settings};
use dsa_settings::cuts_of;
use std::alloc::{AllocError, Global};

/// One text and the other after it.
pub fn joined(first: Option<String>, second: Option<String>) -> Result<Option<String>, AllocError> {
    let Some(mut text) = first else {
        return Ok(second);
    };
    if let Some(more) = second {
        text.push_str(&more)?;
    }
    Ok(Some(text))
}

/// The warning that a tracker sees no barriers, if a list with barriers is explained by what its
/// groups wait for.
pub(crate) fn barrier_notes(
    alloc: Global,
    source: Source<'_>,
    marks: &[bool],
    form: Form,
) -> Result<Option<String>, AllocError> {
    match (source, form) {
        (Source::Text(_, _) | Source::List, Form::Waits) if !marks.is_empty() => Ok(Some(
            String::from_str(
                alloc,
                "warning: a tracker does not see barriers: let each group wait for all before it\n",
            )?,
        )),
        (Source::Text(_, _) | Source::List | Source::Job, _) => Ok(None),
    }
}

/// The operations after the first that have `fence` in their lines, and no barrier before them.
pub fn fenced_in(
    alloc: Global,
    lines: &[OperationLine<'_>],
    marks: &[bool],
) -> Result<Vec<usize>, AllocError> {
    let mut fenced = Vec::new(alloc);
    for operation in 1..lines.len() {
        if lines[operation].is_fenced && !mark_at(marks, operation) {
            fenced.push(operation)?;
        }
    }
    Ok(fenced)
}

/// The operations whose first piece neither is fenced in the plan nor begins a group.
fn unkept_in(
    alloc: Global,
    fenced: &[usize],
    operations: &[Operation],
    plan: &Plan,
    settings: &Settings,
) -> Result<Vec<usize>, AllocError> {
    let cuts = cuts_of(alloc, plan)?;
    let mut unkept = Vec::new(alloc);
    let mut rest = fenced;
    let mut first: usize = 0;
    for (operation, d) in operations.iter().enumerate() {
        let [next, after @ ..] = rest else {
            break;
        };
        if *next == operation {
            if cuts.get(first).copied() == Some(false) {
                unkept.push(operation)?;
            }
            rest = after;
        }
        first = first.saturating_add(count_of(d, settings));
    }
    Ok(unkept)
}

/// A line for each of these operations, with the place of its fence.
pub fn fence_lines(
    alloc: Global,
    lines: &[OperationLine<'_>],
    operations: &[usize],
    why: &str,
) -> Result<Option<String>, AllocError> {
    let mut notes = Notes::new(alloc);
    for operation in operations {
        if notes.count() {
            let line = line_of_operation(lines, *operation);
            notes.write(&format!(in alloc; "note: line {line}, operation {operation}: ")?)?;
            notes.write(why)?;
            notes.write("; --keep-fences makes it a barrier\n")?;
        }
    }
    notes.into_text(alloc, "fences")
}

/// A line for each fence of a text that the plan of its operations does not keep.
pub(crate) fn unkept_notes(
    alloc: Global,
    source: Source<'_>,
    operations: &[Operation],
    marks: &[bool],
    plan: &Plan,
    settings: &Settings,
) -> Result<Option<String>, AllocError> {
    let Source::Text(_, lines) = source else {
        return Ok(None);
    };
    let fenced = fenced_in(alloc, lines, marks)?;
    if fenced.is_empty() {
        return Ok(None);
    }
    let unkept = unkept_in(alloc, &fenced, operations, plan, settings)?;
    fence_lines(alloc, lines, &unkept, "the plan does not keep this fence")
}
