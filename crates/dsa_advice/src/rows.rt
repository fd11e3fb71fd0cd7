//! Warnings about operations whose completion records are in the row of another's.

use crate::notes::{Notes, push_span};
use crate::origins::count_of;
use dsa_descriptor::{RECORD_LEN, Span};
use dsa_operations::Operation;
use dsa_plan::{STAGED_LEN, Settings};
use dsa_tracker::Tracked;
use std::alloc::{AllocError, Global};

/// The records of an operation, one for each of its pieces.
#[derive(Clone, Copy)]
pub(crate) struct RecordRow {
    first: u64,
    records: u64,
    pub(crate) operation: usize,
}

/// An operation whose first record is in the row of another.
#[derive(Clone, Copy)]
struct RecordInRow {
    own: RecordRow,
    holder: RecordRow,
}

impl RecordRow {
    /// The addresses of the records.
    pub(crate) fn span(self) -> Span {
        Span {
            first: self.first,
            len: self.records.saturating_mul(RECORD_LEN),
        }
    }
}

/// The rows of the operations, by their addresses.
pub(crate) fn rows_of(
    alloc: Global,
    operations: &[Operation],
    settings: &Settings,
) -> Result<Vec<RecordRow>, AllocError> {
    let mut rows = Vec::with_capacity(alloc, operations.len())?;
    for (operation, d) in operations.iter().enumerate() {
        rows.push(RecordRow {
            first: d.completion_record().first,
            records: count_of(d, settings) as u64,
            operation,
        })?;
    }
    rows.sort_unstable_by_key(|row| (row.first, row.operation));
    Ok(rows)
}

/// The operations whose first record is in the row of another, in the order of the operations.
fn shared_in(alloc: Global, rows: &[RecordRow]) -> Result<Vec<RecordInRow>, AllocError> {
    let mut shared = Vec::new(alloc);
    let mut last: Option<RecordRow> = None;
    for own in rows {
        let Some(holder) = last else {
            last = Some(*own);
            continue;
        };
        if u128::from(own.first) < holder.span().end() {
            shared.push(RecordInRow { own: *own, holder })?;
        }
        if holder.span().end() < own.span().end() {
            last = Some(*own);
        }
    }
    shared.sort_unstable_by_key(|it| it.own.operation);
    Ok(shared)
}

/// What lies in memory: the rows and the data of the operations, and the staging area, by their addresses.
fn taken_by(
    alloc: Global,
    operations: &[Operation],
    rows: &[RecordRow],
    settings: &Settings,
) -> Result<Vec<Span>, AllocError> {
    let mut taken = Vec::new(alloc);
    let mut pieces: u64 = 0;
    for row in rows {
        taken.push(row.span())?;
        pieces = pieces.saturating_add(row.records);
    }
    for d in operations {
        taken.extend_from_slice(&d.sources())?;
        taken.extend_from_slice(&d.targets())?;
    }
    taken.push(Span {
        first: settings.staging(),
        len: pieces.saturating_mul(STAGED_LEN),
    })?;
    taken.sort_unstable_by_key(|span| span.first);
    Ok(taken)
}

/// The first address from this one on at which a row of so many bytes shares no byte with what is taken.
fn free_from(taken: &[Span], from: u128, len: u64) -> Option<u64> {
    let mut first = from;
    for span in taken {
        if first.saturating_add(u128::from(len)) <= u128::from(span.first) {
            break;
        }
        if first < span.end() {
            let past = u128::from(RECORD_LEN - 1);
            first = span.end().saturating_add(past) & !past;
        }
    }
    if 1 << 64 < first.saturating_add(u128::from(len)) {
        return None;
    }
    u64::try_from(first).ok()
}

/// The line of an operation whose record is in the row of another, with the address to use in its place.
fn line_of(alloc: Global, shared: &RecordInRow, free: Option<u64>) -> Result<String, AllocError> {
    let (operation, holder, records) = (
        shared.own.operation,
        shared.holder.operation,
        shared.holder.records,
    );
    let plural = if records == 1 { "" } else { "s" };
    let mut line = format!(in alloc; "warning: operation {operation}'s record is in the row of ")?;
    line.push_str(&format!(in alloc; "operation {holder} ({records} record{plural}, ")?)?;
    push_span(alloc, &mut line, shared.holder.span())?;
    line.push_str(")")?;
    if let Some(address) = free {
        line.push_str(&format!(in alloc; ": use 0x{address:x}")?)?;
    }
    line.push_str("\n")?;
    Ok(line)
}

/// A line for each operation whose record is in the row of another, up to 20, and how many more there are; none if each
/// operation has records of its own. The addresses that are named are free, also if all of them are used.
pub(crate) fn warnings_of(
    alloc: Global,
    operations: &[Operation],
    settings: &Settings,
) -> Result<Option<String>, AllocError> {
    let rows = rows_of(alloc, operations, settings)?;
    let shared = shared_in(alloc, &rows)?;
    if shared.is_empty() {
        return Ok(None);
    }
    let mut taken = taken_by(alloc, operations, &rows, settings)?;
    let mut notes = Notes::new(alloc);
    for it in &shared {
        if notes.count() {
            let len = it.own.span().len;
            let free = free_from(&taken, it.holder.span().end(), len);
            notes.write(&line_of(alloc, it, free)?)?;
            if let Some(first) = free {
                taken.push(Span { first, len })?;
                taken.sort_unstable_by_key(|span| span.first);
            }
        }
    }
    notes.into_text(alloc, "operations with a record in the row of another")
}
