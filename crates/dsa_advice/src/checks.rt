//! Notes on compares whose results stop nothing.

use crate::notes::Notes;
use crate::origins::count_of;
use crate::unplanned::Source;
use dsa_lines::{OperationLine, line_of_operation};
use dsa_operations::Operation;
use dsa_plan::{Plan, Settings};
use dsa_settings::cuts_of;
use dsa_warnings::{Concern, Concerned, check_concern};
use std::alloc::{AllocError, Global};

/// The note on a compare whose result is not checked, with a barrier after it.
const UNCHECKED: &str = "without check its result does not stop what is after a barrier";

/// The note on a compare whose result is checked, without a barrier just after it.
const UNGUARDED: &str = "what is after its check, up to a barrier, may run even if it fails";

/// The last operation with a barrier before it.
fn last_barrier(marks: &[bool]) -> Option<usize> {
    marks.iter().rposition(|mark| *mark)
}

/// What is noted of the result of an operation that does not stop all that comes after it.
fn note_on(concern: Option<Concern>) -> Option<&'static str> {
    match concern {
        Some(Concern::Unchecked) => Some(UNCHECKED),
        Some(Concern::Unguarded) => Some(UNGUARDED),
        Some(Concern::SharedRecord(_) | Concern::Overlap) | None => None,
    }
}

/// A line for each compare of a text whose result does not stop all that comes after it.
pub(crate) fn check_notes(
    alloc: Global,
    source: Source<'_>,
    operations: &[Operation],
    marks: &[bool],
    plan: &Plan,
    settings: &Settings,
) -> Result<Option<String>, AllocError> {
    let Source::Text(_, lines) = source else {
        return Ok(None);
    };
    let (last, cuts) = (last_barrier(marks), cuts_of(alloc, plan)?);
    let mut notes = Notes::new(alloc);
    let mut next: usize = 0;
    for (operation, d) in operations.iter().enumerate() {
        next = next.saturating_add(count_of(d, settings));
        let is_before_barrier = last.is_some_and(|barrier| operation < barrier);
        let goes_on = cuts.get(next).copied() == Some(false);
        let concern = d
            .descriptor()
            .and_then(|d| check_concern(d, is_before_barrier, goes_on));
        if let Some(cause) = note_on(concern) {
            if notes.count() {
                notes.write(&note_of(alloc, lines, operation, cause)?)?;
            }
        }
    }
    notes.into_text(alloc, "compares whose results stop nothing")
}

/// The line of an operation's cause.
fn note_of(
    alloc: Global,
    lines: &[OperationLine<'_>],
    operation: usize,
    cause: &str,
) -> Result<String, AllocError> {
    let line = line_of_operation(lines, operation);
    format!(in alloc; "note: line {line}, operation {operation}: {cause}\n")
}
