//! What is known of an entry of a recording.

ghost use Rattle.std.specs.Prelude.{◌≡◌, ◌↔◌, ◌≤◌, ◌++◌, length, IfOk, IsTrue, MatchOption, None};
ghost use Rattle.std.specs.List.{AllByRecursion};
ghost use Rattle.dsa_descriptor.specs.Spans.{IsAddressable};
ghost use Rattle.dsa_descriptor.specs.Places.{op_at};
ghost use Rattle.dsa_audit.specs.declared.member.Unseen.{Unseen};
ghost use Rattle.dsa_recording.specs.declared.member.Aspect.TheVariants as aspects;
ghost use Rattle.dsa_recording.specs.Furthers.{further_at};
ghost use Rattle.dsa_recording.specs.Entries.{records_of, entry_reads, entry_results, entry_targets, entry_writes, is_checksum, status_records, value_records, Applies, IsFirstReason, IsMember, action_of, reads_in, writes_in};
ghost use Rattle.dsa_recording.specs.Submissions.{AreMembers};

use crate::entry::Header;
use crate::further::further_at;
use arrayvec::ArrayVec;
use bitflags::Flags;
use dsa_audit::{Action, Member, Unseen};
use dsa_descriptor::{FlagWord, Span, agree_on_owner, are_addressable, op_at, record_span, u64_at};
use dsa_ranges::Touched;
use std::alloc::{AllocError, Global};

/// What of an entry is looked at.
#[derive(Clone, Copy)]
pub enum Aspect {
    /// All that it reads and writes, its record too.
    Whole,
    /// Its data alone, with the value of a checksum.
    Data,
    /// Its record as written, and the data that it writes as read: two such members conflict if the record of one
    /// meets the record of the other, or data that the other writes.
    Record,
    /// Its record as written, if that is a status alone, and the data that it reads: two such members conflict if one
    /// reads the status of the other.
    Status,
}

/// All reasons, in the order in which they are looked for.
const IN_ORDER: [Unseen; 6] = [
    Unseen::Blank,
    Unseen::Operation,
    Unseen::Nested,
    Unseen::Owner,
    Unseen::Empty,
    Unseen::Wrap,
];

/// The completion record, if the entry has one: it may be written on errors alone.
pub fn records_of(entry: &[u8; 64]) -> ArrayVec<Span, 3>
    ensures value { result.items ≡ records_of entry.now }
    ensures short { length result.items ≤ 1 }
{
    let mut writes = ArrayVec::new();
    let header = Header::of(entry);
    if header.flags.contains(FlagWord::RECORD_VALID) {
        writes.push(record_span(header.record_at));
    }
    writes
}

/// Whether the operation is a checksum, whose record has its value.
pub(crate) fn is_checksum(entry: &[u8; 64]) -> bool
    ensures { result ≡ is_checksum entry.now }
{
    let code = Header::of(entry).code;
    code == 0x10 || code == 0x11
}

/// The completion record as data: that of a checksum.
fn value_records(entry: &[u8; 64]) -> ArrayVec<Span, 3>
    ensures value { result.items ≡ value_records entry.now }
    ensures short { length result.items ≤ 1 }
{
    if is_checksum(entry) {
        return records_of(entry);
    }
    ArrayVec::new()
}

/// The completion record as a status alone: that of any other operation.
fn status_records(entry: &[u8; 64]) -> ArrayVec<Span, 3>
    ensures { result.items ≡ status_records entry.now }
{
    if is_checksum(entry) {
        return ArrayVec::new();
    }
    records_of(entry)
}

/// The data that the entry reads, where its operation is known.
fn sources_of(entry: &[u8; 64]) -> ArrayVec<Span, 2>
    ensures { result.items ≡ entry_reads entry.now }
{
    if let Some(op) = op_at(entry) {
        return op.sources(Header::of(entry).size);
    }
    match further_at(entry) {
        Some(further) => further.sources(),
        None => ArrayVec::new(),
    }
}

/// The data that it writes.
fn targets_of(entry: &[u8; 64]) -> ArrayVec<Span, 2>
    ensures { result.items ≡ entry_targets entry.now }
{
    if let Some(op) = op_at(entry) {
        return op.targets(Header::of(entry).size);
    }
    match further_at(entry) {
        Some(further) => further.targets(),
        None => ArrayVec::new(),
    }
}

/// What the entry reads and writes, where its operation is known.
pub(crate) fn touched_by(entry: &[u8; 64]) -> Touched
    ensures reads { result.reads.items ≡ entry_reads entry.now }
    ensures writes { result.writes.items ≡ entry_writes entry.now }
{
    let mut writes = records_of(entry);
    let mut reads = ArrayVec::new();
    let (sources, targets) = (sources_of(entry), targets_of(entry));
    reads.try_extend_from_slice(sources.as_slice()).unwrap();
    writes.try_extend_from_slice(targets.as_slice()).unwrap();
    Touched { reads, writes }
}

/// The data that the entry reads and writes, where its operation is known.
pub(crate) fn operands_of(entry: &[u8; 64]) -> Touched
    ensures reads { result.reads.items ≡ entry_reads entry.now }
    ensures writes { result.writes.items ≡ entry_targets entry.now }
{
    let (mut reads, mut writes) = (ArrayVec::new(), ArrayVec::new());
    let (sources, targets) = (sources_of(entry), targets_of(entry));
    reads.try_extend_from_slice(sources.as_slice()).unwrap();
    writes.try_extend_from_slice(targets.as_slice()).unwrap();
    Touched { reads, writes }
}

/// The first 8 bytes without the fence flag and the flags that request a record or an interrupt.
const UNREQUESTED: u64 = 0xffff_ffe2_ffff_ffff;

/// What the entry says of what it does: all its bytes but where its record is, and these flags.
pub(crate) fn action_of(entry: &[u8; 64]) -> Action
    ensures { result ≡ action_of entry.now }
{
    Action {
        may_repeat: op_at(entry).is_some(),
        words: [
            u64_at(entry, 0) & UNREQUESTED,
            u64_at(entry, 16),
            u64_at(entry, 24),
            u64_at(entry, 32),
            u64_at(entry, 40),
            u64_at(entry, 48),
            u64_at(entry, 56),
        ],
    }
}

/// The data that the entry reads and writes, with the value of a checksum.
fn results_of(entry: &[u8; 64]) -> Touched
    ensures reads { result.reads.items ≡ entry_reads entry.now }
    ensures writes { result.writes.items ≡ entry_results entry.now }
{
    let (mut reads, mut writes) = (ArrayVec::new(), ArrayVec::new());
    let (sources, targets) = (sources_of(entry), targets_of(entry));
    let values = value_records(entry);
    reads.try_extend_from_slice(sources.as_slice()).unwrap();
    writes.try_extend_from_slice(targets.as_slice()).unwrap();
    writes.try_extend_from_slice(values.as_slice()).unwrap();
    Touched { reads, writes }
}

/// Its record as written, and the data that it writes as read.
fn record_of(entry: &[u8; 64]) -> Touched
    ensures reads { result.reads.items ≡ entry_targets entry.now }
    ensures writes { result.writes.items ≡ records_of entry.now }
{
    let mut reads = ArrayVec::new();
    let (targets, writes) = (targets_of(entry), records_of(entry));
    reads.try_extend_from_slice(targets.as_slice()).unwrap();
    Touched { reads, writes }
}

/// Its record as written, if that is a status alone, and the data that it reads.
fn status_of(entry: &[u8; 64]) -> Touched
    ensures reads { result.reads.items ≡ entry_reads entry.now }
    ensures writes { result.writes.items ≡ status_records entry.now }
{
    let mut reads = ArrayVec::new();
    let (sources, writes) = (sources_of(entry), status_records(entry));
    reads.try_extend_from_slice(sources.as_slice()).unwrap();
    Touched { reads, writes }
}

/// Whether no span of it goes past 2^64.
fn is_addressable(entry: &[u8; 64]) -> bool
    ensures { IsTrue result ↔
        AllByRecursion IsAddressable (entry_reads entry.now ++ entry_writes entry.now) }
{
    let touched = touched_by(entry);
    if !are_addressable(&touched.reads) {
        return false;
    }
    are_addressable(&touched.writes)
}

/// Whether the operation is none of a descriptor, and none of the further ones.
fn is_unknown(entry: &[u8; 64]) -> bool
    ensures { IsTrue result ↔ (op_at entry.now ≡ None) × (further_at entry.now ≡ None) }
{
    op_at(entry).is_none() && further_at(entry).is_none()
}

/// Whether the reason applies to the entry, whose batch has the descriptor `head`.
fn applies(head: &[u8; 64], entry: &[u8; 64], why: Unseen) -> bool
    ensures { IsTrue result ↔ Applies head.now entry.now why }
{
    let Header { code, size, .. } = Header::of(entry);
    match why {
        Unseen::Blank => *entry == [0; 64],
        Unseen::Operation => code != 0 && code != 1 && is_unknown(entry),
        Unseen::Nested => code == 1,
        Unseen::Owner => !agree_on_owner(head, entry),
        Unseen::Empty => code != 0 && code != 2 && size == 0,
        Unseen::Wrap => !is_addressable(entry),
    }
}

/// The first reason why an entry is not looked at, whose batch has the descriptor `head`.
pub fn unseen_reason(head: &[u8; 64], entry: &[u8; 64]) -> Option<Unseen>
    ensures { MatchOption result ((why : Unseen) → ¬ Applies head.now entry.now why)
        (IsFirstReason head.now entry.now) }
{
    for why in IN_ORDER {
        if applies(head, entry, why) {
            return Some(why);
        }
    }
    None
}

/// What an entry reads and writes in this respect.
fn touched_in(aspect: Aspect, entry: &[u8; 64]) -> Touched
    ensures reads { result.reads.items ≡ reads_in aspect entry.now }
    ensures writes { result.writes.items ≡ writes_in aspect entry.now }
{
    match aspect {
        Aspect::Whole => touched_by(entry),
        Aspect::Data => results_of(entry),
        Aspect::Record => record_of(entry),
        Aspect::Status => status_of(entry),
    }
}

/// What is known of an entry in this respect, whose batch has the descriptor `head`; of a lone descriptor it is the
/// entry itself.
pub fn member_of(aspect: Aspect, head: &[u8; 64], entry: &[u8; 64]) -> Member
    ensures { IsMember aspect head.now entry.now result }
{
    match unseen_reason(head, entry) {
        Some(why) => Member::Unknown(why),
        None => Member::Known(touched_in(aspect, entry)),
    }
}

/// What is known of an entry in each respect.
#[derive(Drop)]
struct Aspects {
    whole: Member,
    operands: Member,
    as_record: Member,
    as_status: Member,
}

/// What is known of an entry, whose batch has the descriptor `head`, in each respect.
fn aspects_of(head: &[u8; 64], entry: &[u8; 64]) -> Aspects
    ensures whole { IsMember aspects.Whole head.now entry.now result.whole }
    ensures operands { IsMember aspects.Data head.now entry.now result.operands }
    ensures as_record { IsMember aspects.Record head.now entry.now result.as_record }
    ensures as_status { IsMember aspects.Status head.now entry.now result.as_status }
{
    match unseen_reason(head, entry) {
        Some(why) => Aspects {
            whole: Member::Unknown(why),
            operands: Member::Unknown(why),
            as_record: Member::Unknown(why),
            as_status: Member::Unknown(why),
        },
        None => Aspects {
            whole: Member::Known(touched_in(Aspect::Whole, entry)),
            operands: Member::Known(touched_in(Aspect::Data, entry)),
            as_record: Member::Known(touched_in(Aspect::Record, entry)),
            as_status: Member::Known(touched_in(Aspect::Status, entry)),
        },
    }
}

/// What is known of the entries of a batch: of each entry in each respect.
#[derive(Drop)]
pub(crate) struct Members {
    pub whole: Vec<Member>,
    pub operands: Vec<Member>,
    pub records: Vec<Member>,
    pub statuses: Vec<Member>,
}

/// What is known of the entries of the batch that has the descriptor `head`.
pub(crate) fn members_of(
    alloc: Global,
    head: &[u8; 64],
    entries: &[[u8; 64]],
) -> Result<Members, AllocError>
    ensures whole { IfOk result
        (λ members. AreMembers aspects.Whole head.now entries.now members.whole.items) }
    ensures operands { IfOk result
        (λ members. AreMembers aspects.Data head.now entries.now members.operands.items) }
    ensures records { IfOk result
        (λ members. AreMembers aspects.Record head.now entries.now members.records.items) }
    ensures statuses { IfOk result
        (λ members. AreMembers aspects.Status head.now entries.now members.statuses.items) }
{
    let count = entries.len();
    let mut whole = Vec::with_capacity(alloc, count)?;
    let mut operands = Vec::with_capacity(alloc, count)?;
    let mut records = Vec::with_capacity(alloc, count)?;
    let mut statuses = Vec::with_capacity(alloc, count)?;
    for entry in entries {
        let aspects = aspects_of(head, entry);
        whole.push(aspects.whole)?;
        operands.push(aspects.operands)?;
        records.push(aspects.as_record)?;
        statuses.push(aspects.as_status)?;
    }
    Ok(Members {
        whole,
        operands,
        records,
        statuses,
    })
}
