//! Notes on moves whose source and destination overlap.

use crate::notes::Notes;
use dsa_operations::Operation;
use dsa_plan::Settings;
use dsa_warnings::Concerned;
use std::alloc::{AllocError, Global};

/// Whether a piece of an operation moves bytes within one range.
fn overlaps(operation: &Operation, settings: &Settings) -> bool {
    operation.descriptor().is_some_and(|d| {
        let longest = u64::from(d.size).min(settings.greatest_transfer());
        dsa_warnings::overlaps(&d.op, longest)
    })
}

/// A line for each move that has a piece whose source and destination overlap.
pub(crate) fn overlap_notes(
    alloc: Global,
    operations: &[Operation],
    settings: &Settings,
) -> Result<Option<String>, AllocError> {
    let mut notes = Notes::new(alloc);
    for (operation, d) in operations.iter().enumerate() {
        if overlaps(d, settings) && notes.count() {
            notes.write(&note_of(alloc, operation)?)?;
        }
    }
    notes.into_text(alloc, "moves that overlap")
}

/// The line of a move whose source and destination overlap.
fn note_of(alloc: Global, operation: usize) -> Result<String, AllocError> {
    let mut text = format!(in alloc; "note: operation {operation}: its ranges overlap, ")?;
    text.push_str("and only devices with overlapping copy support (GENCAP bit 1) take it\n")?;
    Ok(text)
}
