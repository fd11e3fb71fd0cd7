//! Notes on the pieces of a list that have failed.

use crate::forgone::is_given_up;
use crate::notes::Notes;
use crate::origins::origins_of;
use crate::unfit::{STATUS, fault_address};
use dsa_explain::Origin;
use dsa_lines::{OperationLine, line_of_operation};
use dsa_operations::Operation;
use dsa_plan::Settings;
use std::alloc::{AllocError, Global};

/// What a record says of a page fault, if it has one: that it was a write, and the address, if that is not 0.
fn fault_text(alloc: Global, record: &[u8; 32]) -> Result<String, AllocError> {
    match record[0] & STATUS {
        3 | 4 => {
            let address = fault_address(record);
            let write = if record[0] & !STATUS == 0 {
                ""
            } else {
                " by a write"
            };
            let mut text = format!(in alloc; ", a page fault{write}")?;
            if address != 0 {
                text.push_str(&format!(in alloc; " at 0x{address:x}")?)?;
            }
            Ok(text)
        }
        0..=2 | 5..=255 => Ok(String::new(alloc)),
    }
}

/// Which of an operation's pieces it is, if there are several.
fn part_text(alloc: Global, origin: &Origin) -> Result<String, AllocError> {
    let (piece, pieces) = (origin.piece, origin.pieces);
    if pieces == 1 {
        return Ok(String::new(alloc));
    }
    format!(in alloc; " ({piece} of {pieces})")
}

/// The line of a piece that has failed.
fn line_of(
    alloc: Global,
    lines: &[OperationLine<'_>],
    piece: usize,
    origin: &Origin,
    record: &[u8; 32],
    is_given_up: bool,
) -> Result<String, AllocError> {
    let (operation, status) = (origin.operation, record[0]);
    let (line, part) = (
        line_of_operation(lines, operation),
        part_text(alloc, origin)?,
    );
    let mut note = format!(in alloc; "note: line {line}, operation {operation}: piece {piece}")?;
    note.push_str(&format!(in alloc; "{part} has failed with status 0x{status:02x}")?)?;
    note.push_str(&fault_text(alloc, record)?)?;
    if is_given_up {
        note.push_str(", and is given up")?;
    }
    note.push_str("\n")?;
    Ok(note)
}

/// A line for each piece that has failed, up to 20, and how many more there are.
pub(crate) fn failed_notes(
    alloc: Global,
    lines: &[OperationLine<'_>],
    operations: &[Operation],
    settings: &Settings,
    records: &[[u8; 32]],
    given_up: &[u8],
) -> Result<Option<String>, AllocError> {
    let origins = origins_of(alloc, operations, settings)?;
    let mut notes = Notes::new(alloc);
    for (piece, (origin, record)) in origins.iter().zip(records).enumerate() {
        if record[0] > 2 && notes.count() {
            let is_given_up = is_given_up(given_up, piece);
            notes.write(&line_of(alloc, lines, piece, origin, record, is_given_up)?)?;
        }
    }
    notes.into_text(alloc, "pieces that have failed")
}
