//! What is wrong with an entry beside fences.

ghost use Rattle.std.specs.Prelude.{◌≡◌, ◌↔◌, [], IfOk, IsTrue};
ghost use Rattle.dsa_ranges.specs.Ranges.{SpansConflict};
ghost use Rattle.dsa_recording.specs.Entries.{entry_targets, entry_writes, records_of};
ghost use Rattle.dsa_recording.specs.Flaws.{list_spans, IsInOwnDescriptor, OverwritesBatch, HasDataOverRecord, HasMisalignedRecord, AreFlaws, AreAllFlaws, has_reserved_bytes, is_bare};

use crate::entry::Header;
use crate::member::{operands_of, records_of, touched_by};
use arrayvec::ArrayVec;
use bitflags::Flags;
use dsa_descriptor::{FlagWord, Span, u32_at, u64_at};
use dsa_ranges::{Touched, in_conflict};
use std::alloc::{AllocError, Global};

/// What is wrong with an entry beside fences.
#[derive(Clone, Copy)]
pub struct Flaws {
    /// It writes the descriptors of its batch, or the batch's completion record; or its own record is there, but not within
    /// its own descriptor.
    pub overwrites_batch: bool,
    /// Its data meet its own completion record.
    pub data_over_record: bool,
    /// The address of its completion record is no multiple of 32.
    pub misaligned_record: bool,
    /// It is a no-op or a drain, and has other bytes than zero where these reserve them.
    pub reserved_bytes: bool,
}

/// The memory of a batch's descriptors.
pub fn list_spans(head: &[u8; 64]) -> ArrayVec<Span, 3>
    ensures { result.items ≡ list_spans head.now }
{
    let mut spans = ArrayVec::new();
    spans.push(Span {
        first: u64_at(head, 16),
        len: 64 * u64::from(Header::of(head).size),
    });
    spans
}

/// Whether what an entry writes meets the record of its batch.
fn meets_record(head: &[u8; 64], entry: &[u8; 64]) -> bool
    ensures { IsTrue result ↔ SpansConflict [] (entry_writes entry.now) [] (records_of head.now) }
{
    let written = Touched {
        reads: ArrayVec::new(),
        writes: touched_by(entry).writes,
    };
    let record = Touched {
        reads: ArrayVec::new(),
        writes: records_of(head),
    };
    in_conflict(&written, &record)
}

/// Whether the data that an entry writes meet the descriptors of its batch.
fn data_meet_list(head: &[u8; 64], entry: &[u8; 64]) -> bool
    ensures { IsTrue result ↔ SpansConflict [] (entry_targets entry.now) [] (list_spans head.now) }
{
    let written = Touched {
        reads: ArrayVec::new(),
        writes: operands_of(entry).writes,
    };
    let list = Touched {
        reads: ArrayVec::new(),
        writes: list_spans(head),
    };
    in_conflict(&written, &list)
}

/// Whether the record of an entry meets the descriptors of its batch.
fn record_meets_list(head: &[u8; 64], entry: &[u8; 64]) -> bool
    ensures { IsTrue result ↔ SpansConflict [] (records_of entry.now) [] (list_spans head.now) }
{
    let record = Touched {
        reads: ArrayVec::new(),
        writes: records_of(entry),
    };
    let list = Touched {
        reads: ArrayVec::new(),
        writes: list_spans(head),
    };
    in_conflict(&record, &list)
}

/// Whether the record of an entry, which is member `k` of a batch, lies within its own descriptor.
fn is_in_own_descriptor(head: &[u8; 64], k: usize, entry: &[u8; 64]) -> bool
    ensures { IsTrue result ↔ IsInOwnDescriptor head.now k entry.now }
{
    let (list, record) = (u64_at(head, 16), Header::of(entry).record_at);
    if record < list {
        return false;
    }
    (record - list) / 64 == k as u64 && (record - list) % 64 <= 32
}

/// Whether an entry, which is member `k` of a batch, writes the descriptors of the batch or the batch's completion record.
fn overwrites_batch(head: &[u8; 64], k: usize, entry: &[u8; 64]) -> bool
    ensures { IsTrue result ↔ OverwritesBatch head.now k entry.now }
{
    if meets_record(head, entry) {
        return true;
    }
    if data_meet_list(head, entry) {
        return true;
    }
    if is_in_own_descriptor(head, k, entry) {
        return false;
    }
    record_meets_list(head, entry)
}

/// The same of an entry that may be in none.
fn overwrites_its_batch(is_batch: bool, head: &[u8; 64], k: usize, entry: &[u8; 64]) -> bool
    ensures { IsTrue result ↔ (IsTrue is_batch × OverwritesBatch head.now k entry.now) }
{
    if !is_batch {
        return false;
    }
    overwrites_batch(head, k, entry)
}

/// Whether the data of an entry meet its own completion record.
fn has_data_over_record(entry: &[u8; 64]) -> bool
    ensures { IsTrue result ↔ HasDataOverRecord entry.now }
{
    let record = Touched {
        reads: ArrayVec::new(),
        writes: records_of(entry),
    };
    in_conflict(&operands_of(entry), &record)
}

/// Whether an entry has a completion record at an address that is no multiple of 32.
pub(crate) fn has_misaligned_record(entry: &[u8; 64]) -> bool
    ensures { IsTrue result ↔ HasMisalignedRecord entry.now }
{
    let header = Header::of(entry);
    header.flags.contains(FlagWord::RECORD_VALID) && header.record_at % 32 != 0
}

/// Whether the bytes that a no-op or a drain reserves are zero: 16 to 35 and 38 to 63.
fn is_bare(entry: &[u8; 64]) -> bool
    ensures { result ≡ is_bare entry.now }
{
    u64_at(entry, 16) == 0
        && u64_at(entry, 24) == 0
        && u32_at(entry, 32) == 0
        && u32_at(entry, 36) >> 16 == 0
        && u64_at(entry, 40) == 0
        && u64_at(entry, 48) == 0
        && u64_at(entry, 56) == 0
}

/// Whether a no-op, or a drain without flags of its own, has others there.
fn has_reserved_bytes(entry: &[u8; 64]) -> bool
    ensures { result ≡ has_reserved_bytes entry.now }
{
    let header = Header::of(entry);
    let reserves = header.code == 0 || (header.code == 2 && header.flags.0 >> 16 == 0);
    reserves && !is_bare(entry)
}

/// All that is wrong with an entry beside fences. If it is in a batch, it is member `k` of that, which has the descriptor
/// `head`.
pub fn flaws_of(is_batch: bool, head: &[u8; 64], k: usize, entry: &[u8; 64]) -> Flaws
    ensures { AreFlaws is_batch head.now k entry.now result }
{
    Flaws {
        overwrites_batch: overwrites_its_batch(is_batch, head, k, entry),
        data_over_record: has_data_over_record(entry),
        misaligned_record: has_misaligned_record(entry),
        reserved_bytes: has_reserved_bytes(entry),
    }
}

/// The same of each entry.
pub(crate) fn all_flaws(
    alloc: Global,
    is_batch: bool,
    head: &[u8; 64],
    entries: &[[u8; 64]],
) -> Result<Vec<Flaws>, AllocError>
    ensures { IfOk result (λ flaws. AreAllFlaws is_batch head.now entries.now flaws.items) }
{
    let mut flaws = Vec::with_capacity(alloc, entries.len())?;
    for k in 0..entries.len() {
        flaws.push(flaws_of(is_batch, head, k, &entries[k]))?;
    }
    Ok(flaws)
}
