//! Warnings about operations whose data meets the completion records of others: data that they write, and data that
//! they read before a record is written there.

use crate::notes::{Notes, push_span};
use crate::rows::{RecordRow, rows_of};
use dsa_descriptor::Span;
use dsa_operations::Operation;
use dsa_plan::Settings;
use dsa_tracker::Tracked;
use std::alloc::{AllocError, Global};

/// Data of an operation, and the records of another that it meets.
#[derive(Clone, Copy)]
struct DataAtRecords {
    data: Span,
    is_written: bool,
    row: RecordRow,
}

/// For each of the rows, which are in the order of their addresses, the row that ends last of it and those before it.
fn farthest_of(alloc: Global, rows: &[RecordRow]) -> Result<Vec<RecordRow>, AllocError> {
    let mut farthest = Vec::with_capacity(alloc, rows.len())?;
    let mut last: Option<RecordRow> = None;
    for row in rows {
        let longest = match last {
            Some(before) if row.span().end() <= before.span().end() => before,
            Some(_) | None => *row,
        };
        farthest.push(longest)?;
        last = Some(longest);
    }
    Ok(farthest)
}

/// A row that shares an address with a span. `farthest` has for each row the row that ends last of it and those before
/// it.
fn row_at(rows: &[RecordRow], farthest: &[RecordRow], span: Span) -> Option<RecordRow> {
    let count = rows.partition_point(|row| u128::from(row.span().first) < span.end());
    let row = farthest.get(count.checked_sub(1)?)?;
    if u128::from(span.first) < row.span().end() {
        Some(*row)
    } else {
        None
    }
}

/// The first data that an operation writes which meets the records of another.
fn written_over(
    d: &Operation,
    rows: &[RecordRow],
    farthest: &[RecordRow],
) -> Option<DataAtRecords> {
    for data in d.targets() {
        if let Some(row) = row_at(rows, farthest, data) {
            return Some(DataAtRecords {
                data,
                is_written: true,
                row,
            });
        }
    }
    None
}

/// The first data that an operation reads which meets the records of a later one.
fn read_before(
    operation: usize,
    d: &Operation,
    rows: &[RecordRow],
    farthest: &[RecordRow],
) -> Option<DataAtRecords> {
    for data in d.sources() {
        if let Some(row) = row_at(rows, farthest, data).filter(|row| operation < row.operation) {
            return Some(DataAtRecords {
                data,
                is_written: false,
                row,
            });
        }
    }
    None
}

/// The line of an operation whose data meets the records of another.
fn line_of(alloc: Global, operation: usize, found: DataAtRecords) -> Result<String, AllocError> {
    let holder = found.row.operation;
    let does = if found.is_written { "writes" } else { "reads" };
    let mut line = format!(in alloc; "warning: operation {operation} {does} data at ")?;
    push_span(alloc, &mut line, found.data)?;
    line.push_str(&format!(in alloc;
        ", and operation {holder} writes its completion records at "
    )?)?;
    push_span(alloc, &mut line, found.row.span())?;
    line.push_str("\n")?;
    Ok(line)
}

/// A line for each operation that writes data where another has its completion records, or reads data where a later one
/// has them.
pub(crate) fn overwritten_notes(
    alloc: Global,
    operations: &[Operation],
    settings: &Settings,
) -> Result<Option<String>, AllocError> {
    let rows = rows_of(alloc, operations, settings)?;
    let farthest = farthest_of(alloc, &rows)?;
    let mut notes = Notes::new(alloc);
    for (operation, d) in operations.iter().enumerate() {
        let found = written_over(d, &rows, &farthest).or(read_before(
            operation, d, &rows, &farthest,
        ));
        if let Some(found) = found {
            if notes.count() {
                notes.write(&line_of(alloc, operation, found)?)?;
            }
        }
    }
    notes.into_text(alloc, "operations with data at records")
}
