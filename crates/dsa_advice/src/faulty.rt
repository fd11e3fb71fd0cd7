//! The values that are at fault in an operation that can't be listed.

use crate::notes::push_span;
use arrayvec::ArrayVec;
use dsa_descriptor::{FieldFault, Op, Span, op_at, record_span, u32_at, u64_at};
use dsa_operations::{CHECKSUM_FLAGS, ListedOp};
use dsa_ranges::meets;
use std::alloc::{AllocError, Global};

/// The flags that a list has to have, and their names in words (`linux/idxd.h`).
const REQUIRED: [(u32, &str); 2] = [(0x0004, "record address valid"), (0x0008, "request record")];

/// The flags below bit 16 that no operation of a list may have, but check result of a compare.
const REFUSED: [(u32, &str); 3] = [
    (0x0010, "interrupt"),
    (0x0040, "reserved"),
    (0x0080, "check result"),
];

/// Whether an operation may have check result.
fn is_compare(op: Option<Op>) -> bool {
    match op {
        Some(Op::Compare { .. } | Op::ComparePattern { .. }) => true,
        Some(Op::Move { .. } | Op::Fill { .. } | Op::ApplyDelta { .. } | Op::Dualcast { .. })
        | None => false,
    }
}

/// The flags from bit 16 on that an operation with these bytes may have.
fn high_flags_of(entry: &[u8; 64]) -> u32 {
    match ListedOp::named(entry) {
        Some(ListedOp::Checksum(_)) => CHECKSUM_FLAGS.0,
        Some(ListedOp::Descriptor(_)) | None => 0,
    }
}

/// Writes the first flag that is missing, or else the first that may not be set: at last the fence, which is no fault
/// of a list with barriers.
fn push_flags(alloc: Global, text: &mut String, entry: &[u8; 64]) -> Result<(), AllocError> {
    let flags = u32_at(entry, 4) % (1 << 24);
    for (bit, name) in REQUIRED {
        if flags & bit == 0 {
            return text.push_str(&format!(in alloc; ": 0x{bit:04x} ({name}) is not set")?);
        }
    }
    let allowed = if is_compare(op_at(entry)) { 0x80 } else { 0 };
    for (bit, name) in REFUSED {
        if flags & bit & !allowed != 0 {
            return text.push_str(&format!(in alloc; ": 0x{bit:04x} ({name}) is set")?);
        }
    }
    let high = flags & 0xff_0000 & !high_flags_of(entry);
    if high != 0 {
        return text.push_str(&format!(in alloc; ": 0x{high:06x} (reserved) is set")?);
    }
    text.push_str(": 0x0001 (fence) is set")
}

/// Writes two ranges that share an address.
fn push_both(
    alloc: Global,
    text: &mut String,
    first: Span,
    second: Span,
) -> Result<(), AllocError> {
    text.push_str(": ")?;
    push_span(alloc, text, first)?;
    text.push_str(" and ")?;
    push_span(alloc, text, second)
}

/// What an operation with these bytes reads, and then what it writes beside its record.
fn data_of(entry: &[u8; 64]) -> ArrayVec<Span, 4> {
    match ListedOp::named(entry) {
        Some(op) => op.data(u32_at(entry, 32)),
        None => ArrayVec::new(),
    }
}

/// Writes the record and the first of the data that it meets.
fn push_record(alloc: Global, text: &mut String, entry: &[u8; 64]) -> Result<(), AllocError> {
    let record = record_span(u64_at(entry, 8));
    for span in data_of(entry).iter() {
        if meets(record, *span) {
            return push_both(alloc, text, record, *span);
        }
    }
    Ok(())
}

/// Writes the first range that goes past 2^64.
fn push_wrap(alloc: Global, text: &mut String, entry: &[u8; 64]) -> Result<(), AllocError> {
    let record = record_span(u64_at(entry, 8));
    for span in data_of(entry).iter().chain([record].iter()) {
        if span.end() > 1 << 64 {
            let (first, len) = (span.first, span.len);
            return text.push_str(&format!(in alloc; ": {len} bytes at 0x{first:x}")?);
        }
    }
    Ok(())
}

/// Writes which part of a delta is at fault.
fn push_delta(alloc: Global, text: &mut String, entry: &[u8; 64]) -> Result<(), AllocError> {
    let (size, dst) = (u32_at(entry, 32), u64_at(entry, 24));
    let record_size = u32_at(entry, 40);
    if size > 0x8_0000 {
        return text.push_str(&format!(in alloc; ": its size, {size}, is above 0x80000")?);
    }
    if size % 8 != 0 {
        return text.push_str(&format!(in alloc; ": its size, {size}, is no multiple of 8")?);
    }
    if dst % 8 != 0 {
        let words = format!(in alloc; ": its destination, 0x{dst:x}, is no multiple of 8")?;
        return text.push_str(&words);
    }
    text.push_str(&format!(in alloc;
        ": the {record_size} bytes of its record are no multiple of 10"
    )?)
}

/// Writes the PASID of an owner, and whether it is privileged.
fn push_owner(alloc: Global, text: &mut String, owner: u32) -> Result<(), AllocError> {
    let pasid = owner % (1 << 20);
    let privilege = if owner >> 31 == 1 { ", privileged" } else { "" };
    text.push_str(&format!(in alloc; "pasid {pasid}{privilege}")?)
}

/// Writes the owner of an operation, and that of the first one, which differs.
pub(crate) fn push_owners(
    alloc: Global,
    text: &mut String,
    owner: u32,
    first: u32,
) -> Result<(), AllocError> {
    text.push_str(": ")?;
    push_owner(alloc, text, owner)?;
    text.push_str(", and not ")?;
    push_owner(alloc, text, first)
}

/// Writes the values that are at fault in an operation with these bytes, if they help.
pub(crate) fn push_values(
    alloc: Global,
    text: &mut String,
    entry: &[u8; 64],
    fault: FieldFault,
) -> Result<(), AllocError> {
    match fault {
        FieldFault::RecordMeetsData => push_record(alloc, text, entry),
        FieldFault::Wrap => push_wrap(alloc, text, entry),
        FieldFault::Delta => push_delta(alloc, text, entry),
        FieldFault::FlagBits => push_flags(alloc, text, entry),
        FieldFault::Opcode
        | FieldFault::Reserved
        | FieldFault::SizeZero
        | FieldFault::RecordAlign
        | FieldFault::DualcastBits
        | FieldFault::Overlap
        | FieldFault::Expected => Ok(()),
    }
}
