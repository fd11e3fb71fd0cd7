//! Warnings about completion records that can't be those of their pieces.

use crate::notes::Notes;
use dsa_descriptor::{Op, Span};
use dsa_operations::Operation;
use dsa_ranges::{Piece, Touching};
use std::alloc::{AllocError, Global};

/// The bits of a status without the one that says of a page fault that it was a write (`linux/idxd.h`).
pub(crate) const STATUS: u8 = 0x7f;

/// The bits of an address within its page.
const IN_PAGE: u64 = 0xfff;

/// Why a record can't be the one of its piece.
#[derive(Clone, Copy)]
enum Unfit {
    /// Its status says that the piece has not begun, and another byte is not 0.
    NotCleared,
    /// Its status is none that `linux/idxd.h` names.
    NoStatus(u8),
    /// Its status is one that only records of these other operations have.
    OtherOperation(u8, &'static str),
    /// It has a page fault at this address, which is not 0, and the piece has nothing in that page.
    FarFault(u64),
    /// It has a page fault after more bytes than the piece has.
    LateFault(u32),
}

/// Whether the piece compares.
fn compares(piece: &Operation) -> bool {
    match piece {
        Operation::Descriptor(descriptor) => match descriptor.op {
            Op::Compare { .. } | Op::ComparePattern { .. } => true,
            Op::Move { .. } | Op::Fill { .. } | Op::ApplyDelta { .. } | Op::Dualcast { .. } => {
                false
            }
        },
        Operation::Checksum(_) => false,
    }
}

/// The size of the delta record of a piece that applies one.
fn delta_size(piece: &Operation) -> Option<u32> {
    match piece {
        Operation::Descriptor(descriptor) => match descriptor.op {
            Op::ApplyDelta { record_size, .. } => Some(record_size),
            Op::Move { .. }
            | Op::Fill { .. }
            | Op::Compare { .. }
            | Op::ComparePattern { .. }
            | Op::Dualcast { .. } => None,
        },
        Operation::Checksum(_) => None,
    }
}

/// The operations of which alone the record has this status, unless the piece is one of them.
fn other_operations(piece: &Operation, status: u8) -> Option<&'static str> {
    match status {
        2 if !compares(piece) => Some("compares"),
        5 | 6 => Some("batches"),
        7 | 8 if delta_size(piece).is_none() => Some("deltas"),
        9 => Some("operations on integrity fields"),
        0..=u8::MAX => None,
    }
}

/// Whether one of the spans has a byte in the page of an address.
fn are_in_page(spans: &[Span], address: u64) -> bool {
    let (first, last) = (address & !IN_PAGE, address | IN_PAGE);
    spans.iter().any(|span| span.first <= last && u128::from(first) < span.end())
}

/// The most bytes of a piece that a record can count.
fn most_bytes(piece: &Operation) -> u32 {
    let size = piece.transfer_size();
    match delta_size(piece) {
        Some(record_size) => size.max(record_size),
        None => size,
    }
}

/// The address of the page fault that a record has.
pub(crate) fn fault_address(record: &[u8; 32]) -> u64 {
    let [_, _, _, _, _, _, _, _, a, b, c, d, e, f, g, h, ..] = *record;
    u64::from_le_bytes([a, b, c, d, e, f, g, h])
}

/// How many bytes a record says to be completed.
fn bytes_completed(record: &[u8; 32]) -> u32 {
    let [_, _, _, _, a, b, c, d, ..] = *record;
    u32::from_le_bytes([a, b, c, d])
}

/// Why a record with a page fault can't be the one of the piece.
fn unfit_fault(piece: &Operation, record: &[u8; 32]) -> Option<Unfit> {
    let (done, address) = (bytes_completed(record), fault_address(record));
    let ranges = piece.touched_spans();
    let is_in = are_in_page(&ranges.reads, address) || are_in_page(&ranges.writes, address);
    if address != 0 && !is_in {
        return Some(Unfit::FarFault(address));
    }
    if done > most_bytes(piece) {
        return Some(Unfit::LateFault(done));
    }
    None
}

/// Why a record can't be the one of the piece, if it can't.
fn unfit_in(piece: &Operation, record: &[u8; 32]) -> Option<Unfit> {
    let status = record[0];
    match status {
        0 if record.iter().any(|byte| *byte != 0) => Some(Unfit::NotCleared),
        3 | 4 | 0x83 | 0x84 => unfit_fault(piece, record),
        0x0a..=0x0f | 0x23..=0x82 | 0x8a..=0x8f | 0xa3..=0xff => Some(Unfit::NoStatus(status)),
        0..=9 | 0x10..=0x22 | 0x85..=0x89 | 0x90..=0xa2 => {
            let whose = other_operations(piece, status & STATUS)?;
            Some(Unfit::OtherOperation(status & STATUS, whose))
        }
    }
}

/// What is said of a record that can't be the one of its piece.
fn words_of(alloc: Global, piece: &Operation, unfit: Unfit) -> Result<String, AllocError> {
    match unfit {
        Unfit::NotCleared => String::from_str(alloc, "its record has status 0 and other bytes"),
        Unfit::NoStatus(status) => {
            format!(in alloc; "its record has status 0x{status:02x}, which no record has")
        }
        Unfit::OtherOperation(status, whose) => {
            format!(in alloc; "its record has status {status}, which only those of {whose} have")
        }
        Unfit::FarFault(address) => format!(in alloc;
            "its record has a page fault at 0x{address:x}, in no page that it reads or writes"
        ),
        Unfit::LateFault(done) => {
            let most = most_bytes(piece);
            format!(in alloc; "its record has a page fault after {done} bytes, and it has {most}")
        }
    }
}

/// A line for each piece whose record can't be its own, up to 20, and how many more there are.
pub(crate) fn unfit_notes(
    alloc: Global,
    pieces: &[Operation],
    records: &[[u8; 32]],
) -> Result<Option<String>, AllocError> {
    let mut notes = Notes::new(alloc);
    for (number, (piece, record)) in pieces.iter().zip(records).enumerate() {
        if let Some(unfit) = unfit_in(piece, record) {
            if notes.count() {
                notes.write(&format!(in alloc; "warning: piece {number}: ")?)?;
                notes.write(&words_of(alloc, piece, unfit)?)?;
                notes.write(": these may be other records, or in another order\n")?;
            }
        }
    }
    notes.into_text(alloc, "records that can't be those of their pieces")
}
