//! What a finding says of its entry.

ghost use Rattle.std.specs.Prelude.{◌≡◌, ◌+◌, ◌↔◌, ◌<◌, List, length, slice_get, IfSome, IsTrue, MatchOption, Some};
ghost use Rattle.std.specs.List.{AllByRecursion};
ghost use Rattle.dsa_audit.specs.declared.member.Member.{Member};
ghost use Rattle.dsa_recording.specs.declared.findings.Place.TheVariants as Place;
ghost use Rattle.dsa_recording.specs.Reports.{reported_by};
ghost use Rattle.dsa_recording.specs.Details.{AreHazardsOf, any_meets, cause_record, finding_at, flaw_record, is_in_record, meets_record, named_by, no_hazards, overlap_of, shared_at, shared_records, touches_record, IsAfter, IsFlawAt, IsOfHead, IsOfMember, IsHeadCause, IsMemberCause, HasEntry, Describes, IsPlaced, IsDetail, IsRight};

use crate::entry::Header;
use crate::findings::{Finding, FindingKind, Flaw, Place};
use crate::member::{is_checksum, touched_by};
use crate::overlaps::overlap;
use crate::report::Report;
use crate::stream::Submission;
use crate::submission::{Audited, head_at};
use arrayvec::ArrayVec;
use bitflags::Flags;
use dsa_audit::{FencePlace, Hazards, Member, Unseen, hazard_between, hazards_between};
use dsa_descriptor::{FlagWord, Span};
use dsa_ranges::Hazard;

/// The conflict that needs a missing fence.
#[derive(Clone, Copy)]
pub struct Conflict {
    /// The earlier member.
    pub earlier: usize,
    /// The hazard between that and the later one.
    pub hazard: Hazard,
}

/// Whose completion record has the address of a conflict.
#[derive(Clone, Copy)]
pub struct Records {
    /// That of the earlier member.
    pub earlier: bool,
    /// That of the later one.
    pub later: bool,
}

/// A finding, and the entry that it is of.
#[derive(Clone, Copy)]
pub struct Detail {
    /// The number of the entry in the recording.
    pub entry: usize,
    /// The operation code of the entry.
    pub code: u8,
    /// The number of the submission.
    pub submission: usize,
    /// The number of the entry that is its first member.
    pub first: usize,
    /// How many members it has.
    pub size: usize,
    /// What of it.
    pub place: Place,
    /// Whether the submission is a batch.
    pub is_batch: bool,
    /// Bytes 0 to 3 of the entry: the PASID, and in bit 31 the privilege.
    pub owner: u32,
    /// Those of its submission's descriptor.
    pub head_owner: u32,
    /// What is found.
    pub cause: FindingKind<Conflict>,
    /// Of a missing fence, whose completion record has the address; else none has.
    pub records: Records,
    /// Of a missing fence, all hazards between the two members; else none.
    pub hazards: Hazards,
    /// Of a missing fence, how many bytes conflict from the address on; else 0.
    pub overlap: u64,
    /// Of a flaw that is about a completion record, the address of that; else 0.
    pub record_at: u64,
}

/// The other members that a cause names.
pub(crate) fn named_by(cause: FindingKind<Conflict>) -> ArrayVec<usize, 2>
    ensures { result.items ≡ named_by cause }
{
    let mut members = ArrayVec::new();
    match cause {
        FindingKind::MissingFence(conflict) => members.push(conflict.earlier),
        FindingKind::GuardingFence(member)
        | FindingKind::SignallingFence(member)
        | FindingKind::Repeated(member)
        | FindingKind::Flawed(Flaw::SharedRecord(member)) => members.push(member),
        FindingKind::GuardingAndSignallingFence(earlier, awaited) => {
            members.push(earlier);
            members.push(awaited);
        }
        FindingKind::NotSeen(_)
        | FindingKind::NeedlessFence
        | FindingKind::Flawed(
            Flaw::OverwritesBatch
            | Flaw::DataOverRecord
            | Flaw::MisalignedRecord
            | Flaw::ReservedBytes
            | Flaw::SmallBatch(_)
            | Flaw::FenceWithoutEffect,
        ) => {}
    }
    members
}

/// Whether this can be wrong at the place.
fn is_flaw_at(place: Place, flaw: Flaw) -> bool
    ensures { IsTrue result ↔ IsFlawAt place flaw }
{
    match (place, flaw) {
        (Place::Head, Flaw::SharedRecord(_)) => false,
        (Place::Member(member), Flaw::SharedRecord(earlier)) => earlier < member,
        (
            Place::Head | Place::Member(_),
            Flaw::OverwritesBatch
            | Flaw::DataOverRecord
            | Flaw::MisalignedRecord
            | Flaw::ReservedBytes
            | Flaw::SmallBatch(_)
            | Flaw::FenceWithoutEffect,
        ) => true,
    }
}

/// What is found of a member, with the hazard of a missing fence.
fn member_cause(
    operands: &[Member],
    member: usize,
    kind: FindingKind<usize>,
) -> Option<FindingKind<Conflict>>
    ensures cause { MatchOption result (¬ IsOfMember operands.now member kind)
        (IsMemberCause operands.now member kind) }
    ensures after { IfSome result (IsAfter 0 member) }
{
    match kind {
        FindingKind::NotSeen(why) => Some(FindingKind::NotSeen(why)),
        FindingKind::MissingFence(earlier) => {
            if earlier >= member || member >= operands.len() {
                return None;
            }
            match hazard_between(operands, earlier, member) {
                Some(hazard) => Some(FindingKind::MissingFence(Conflict { earlier, hazard })),
                None => None,
            }
        }
        FindingKind::GuardingFence(earlier) => {
            if earlier >= member {
                return None;
            }
            Some(FindingKind::GuardingFence(earlier))
        }
        FindingKind::SignallingFence(awaited) => {
            if awaited < member || awaited >= operands.len() {
                return None;
            }
            Some(FindingKind::SignallingFence(awaited))
        }
        FindingKind::GuardingAndSignallingFence(earlier, awaited) => {
            if earlier >= member || awaited < member || awaited >= operands.len() {
                return None;
            }
            Some(FindingKind::GuardingAndSignallingFence(earlier, awaited))
        }
        FindingKind::NeedlessFence => Some(FindingKind::NeedlessFence),
        FindingKind::Repeated(earlier) => {
            if earlier >= member {
                return None;
            }
            Some(FindingKind::Repeated(earlier))
        }
        FindingKind::Flawed(flaw) => {
            if !is_flaw_at(Place::Member(member), flaw) {
                return None;
            }
            Some(FindingKind::Flawed(flaw))
        }
    }
}

/// What is found of a batch's descriptor, which can only be a flaw.
fn head_cause(kind: FindingKind<usize>) -> Option<FindingKind<Conflict>>
    ensures { MatchOption result (¬ IsOfHead kind) (IsHeadCause kind) }
{
    match kind {
        FindingKind::Flawed(flaw) => {
            if !is_flaw_at(Place::Head, flaw) {
                return None;
            }
            Some(FindingKind::Flawed(flaw))
        }
        FindingKind::NotSeen(_)
        | FindingKind::MissingFence(_)
        | FindingKind::GuardingFence(_)
        | FindingKind::SignallingFence(_)
        | FindingKind::GuardingAndSignallingFence(_, _)
        | FindingKind::NeedlessFence
        | FindingKind::Repeated(_) => None,
    }
}

/// Whether the entry may write a completion record that has the address.
pub fn is_in_record(entry: &[u8; 64], address: u64) -> bool
    ensures { result ≡ is_in_record address entry.now }
{
    let header = Header::of(entry);
    if !header.flags.contains(FlagWord::RECORD_VALID) {
        return false;
    }
    header.record_at <= address && address - header.record_at < 32
}

/// Of a missing fence, whose completion record has the address: the submission's first member is entry `first`, and the
/// later member is entry `at`.
fn shared_records(
    all: &[[u8; 64]],
    first: usize,
    at: usize,
    cause: FindingKind<Conflict>,
) -> Records
    requires within { at < length all.now }
    requires earlier { IsAfter first at cause }
    ensures { result ≡ shared_records all.now first at cause }
{
    match cause {
        FindingKind::MissingFence(Conflict { earlier, hazard }) => Records {
            earlier: is_in_record(&all[first + earlier], hazard.address),
            later: is_in_record(&all[at], hazard.address),
        },
        FindingKind::NotSeen(_)
        | FindingKind::GuardingFence(_)
        | FindingKind::SignallingFence(_)
        | FindingKind::GuardingAndSignallingFence(_, _)
        | FindingKind::NeedlessFence
        | FindingKind::Repeated(_)
        | FindingKind::Flawed(_) => Records {
            earlier: false,
            later: false,
        },
    }
}

/// Whether the span has a byte of the completion record at that address.
fn meets_record(record_at: u64, span: Span) -> bool
    ensures { result ≡ meets_record record_at span }
{
    let first = u128::from(record_at.max(span.first));
    let end = (u128::from(record_at) + 32).min(u128::from(span.first) + u128::from(span.len));
    first < end
}

/// Whether one of the spans has.
fn any_meets(record_at: u64, spans: &[Span]) -> bool
    ensures { result ≡ any_meets record_at spans.now }
{
    for span in spans {
        if meets_record(record_at, *span) {
            return true;
        }
    }
    false
}

/// Whether the second entry writes a byte of the completion record of the first, or reads one of its status. To read
/// the value of a checksum is no fault.
fn touches_record(other: &[u8; 64], entry: &[u8; 64]) -> bool
    ensures { result ≡ touches_record other.now entry.now }
{
    let header = Header::of(other);
    if !header.flags.contains(FlagWord::RECORD_VALID) {
        return false;
    }
    let touched = touched_by(entry);
    if any_meets(header.record_at, &touched.writes) {
        return true;
    }
    !is_checksum(other) && any_meets(header.record_at, &touched.reads)
}

/// The address of the completion record that the entry and an earlier one, of this number, share.
fn shared_at(all: &[[u8; 64]], earlier: usize, entry: &[u8; 64]) -> u64
    ensures { result ≡ shared_at (slice_get all.now earlier) entry.now }
{
    let own = Header::of(entry).record_at;
    let Some(other) = all.get(earlier) else {
        return own;
    };
    if touches_record(other, entry) {
        return Header::of(other).record_at;
    }
    own
}

/// The address of the completion record that a flaw of entry `at` is about; the submission's first member is entry
/// `first`.
fn flaw_record(all: &[[u8; 64]], first: usize, at: usize, flaw: Flaw) -> u64
    requires { at < length all.now }
    ensures { result ≡ flaw_record all.now first at flaw }
{
    match flaw {
        Flaw::SharedRecord(earlier) => shared_at(all, first.saturating_add(earlier), &all[at]),
        Flaw::DataOverRecord | Flaw::MisalignedRecord => Header::of(&all[at]).record_at,
        Flaw::OverwritesBatch
        | Flaw::ReservedBytes
        | Flaw::SmallBatch(_)
        | Flaw::FenceWithoutEffect => 0,
    }
}

/// The same of a cause.
fn cause_record(all: &[[u8; 64]], first: usize, at: usize, cause: FindingKind<Conflict>) -> u64
    requires { at < length all.now }
    ensures { result ≡ cause_record all.now first at cause }
{
    match cause {
        FindingKind::Flawed(flaw) => flaw_record(all, first, at, flaw),
        FindingKind::MissingFence(_)
        | FindingKind::NotSeen(_)
        | FindingKind::GuardingFence(_)
        | FindingKind::SignallingFence(_)
        | FindingKind::GuardingAndSignallingFence(_, _)
        | FindingKind::NeedlessFence
        | FindingKind::Repeated(_) => 0,
    }
}

/// None.
fn no_hazards() -> Hazards
    ensures { result ≡ no_hazards }
{
    Hazards {
        read_after_write: false,
        write_after_write: false,
        write_after_read: false,
    }
}

/// Of a fence that is missing before the member, all hazards with the earlier one.
fn hazards_of(operands: &[Member], member: usize, kind: FindingKind<usize>) -> Hazards
    ensures { AreHazardsOf operands.now member kind result }
{
    match kind {
        FindingKind::MissingFence(earlier) => hazards_between(operands, earlier, member),
        FindingKind::NotSeen(_)
        | FindingKind::GuardingFence(_)
        | FindingKind::SignallingFence(_)
        | FindingKind::GuardingAndSignallingFence(_, _)
        | FindingKind::NeedlessFence
        | FindingKind::Repeated(_)
        | FindingKind::Flawed(_) => no_hazards(),
    }
}

/// Of a missing fence before the member, how many bytes conflict from the address on.
fn overlap_of(operands: &[Member], member: usize, cause: FindingKind<Conflict>) -> u64
    ensures { result ≡ overlap_of operands.now member cause }
{
    match cause {
        FindingKind::MissingFence(Conflict { earlier, hazard }) => {
            match (operands.get(earlier), operands.get(member)) {
                (Some(earlier), Some(later)) => overlap(hazard, earlier, later),
                (Some(_) | None, Some(_) | None) => 0,
            }
        }
        FindingKind::NotSeen(_)
        | FindingKind::GuardingFence(_)
        | FindingKind::SignallingFence(_)
        | FindingKind::GuardingAndSignallingFence(_, _)
        | FindingKind::NeedlessFence
        | FindingKind::Repeated(_)
        | FindingKind::Flawed(_) => 0,
    }
}

/// A finding of the descriptor of a batch, with all that can be said of its entry.
fn head_detail(
    all: &[[u8; 64]],
    submission: Submission,
    number: usize,
    kind: FindingKind<usize>,
) -> Option<Detail>
    ensures { (ms : List Member) → MatchOption result
        (¬ HasEntry all.now submission ms (finding_at number Place.Head kind))
        (Describes all.now submission ms (finding_at number Place.Head kind)) }
{
    let entry = head_at(submission);
    if entry >= all.len() {
        return None;
    }
    let Some(cause) = head_cause(kind) else {
        return None;
    };
    let Header { code, owner, .. } = Header::of(&all[entry]);
    Some(Detail {
        entry,
        code,
        submission: number,
        first: submission.first,
        size: submission.size,
        place: Place::Head,
        is_batch: submission.is_batch,
        owner,
        head_owner: owner,
        cause,
        records: Records {
            earlier: false,
            later: false,
        },
        hazards: no_hazards(),
        overlap: 0,
        record_at: cause_record(all, submission.first, entry, cause),
    })
}

/// A finding of a member of a submission of these entries, with all that can be said of its entry.
fn member_detail(
    all: &[[u8; 64]],
    submission: Submission,
    operands: &[Member],
    number: usize,
    member: usize,
    kind: FindingKind<usize>,
) -> Option<Detail>
    ensures { MatchOption result
        (¬ HasEntry all.now submission operands.now (finding_at number (Place.Member member) kind))
        (Describes all.now submission operands.now (finding_at number (Place.Member member) kind)) }
{
    let Some(entry) = submission.first.checked_add(member) else {
        return None;
    };
    let head = head_at(submission);
    if member >= submission.size || entry >= all.len() || head >= all.len() {
        return None;
    }
    let Header { code, owner, .. } = Header::of(&all[entry]);
    let Some(cause) = member_cause(operands, member, kind) else {
        return None;
    };
    Some(Detail {
        entry,
        code,
        submission: number,
        first: submission.first,
        size: submission.size,
        place: Place::Member(member),
        is_batch: submission.is_batch,
        owner,
        head_owner: Header::of(&all[head]).owner,
        cause,
        records: shared_records(all, submission.first, entry, cause),
        hazards: hazards_of(operands, member, kind),
        overlap: overlap_of(operands, member, cause),
        record_at: cause_record(all, submission.first, entry, cause),
    })
}

/// A finding of a submission of these entries and operands, with all that can be said of its entry.
fn described(
    all: &[[u8; 64]],
    submission: Submission,
    operands: &[Member],
    finding: Finding,
) -> Option<Detail>
    ensures { MatchOption result (¬ HasEntry all.now submission operands.now finding)
        (Describes all.now submission operands.now finding) }
{
    let (number, kind) = (finding.submission, finding.kind);
    match finding.place {
        Place::Head => head_detail(all, submission, number, kind),
        Place::Member(member) => { member_detail(all, submission, operands, number, member, kind) }
    }
}

/// A finding of a report on these entries, with all that can be said of its entry.
pub fn detail_of(all: &[[u8; 64]], report: &Report, finding: Finding) -> Option<Detail>
    ensures { MatchOption result (¬ IsPlaced all.now (reported_by report.now) finding)
        (IsDetail all.now (reported_by report.now) finding) }
{
    let number = finding.submission;
    if number >= report.submissions.len() || number >= report.audits.len() {
        return None;
    }
    let operands = report.audits[number].operands.as_slice();
    described(all, report.submissions[number], operands, finding)
}

/// Whether no fence is missing at this place.
fn is_right(place: FencePlace) -> bool
    ensures { IsTrue result ↔ IsRight place }
{
    match place {
        FencePlace::NoFence | FencePlace::Given => true,
        FencePlace::Missing(_) => false,
    }
}

/// Whether no fence is missing at these places.
pub(crate) fn are_right(places: &[FencePlace]) -> bool
    ensures { IsTrue result ↔ AllByRecursion IsRight places.now }
{
    places.iter().all(|place| is_right(*place))
}

/// Whether no fence of a submission is missing.
pub fn has_all_fences(audited: &Audited) -> bool
    ensures { IsTrue result ↔ AllByRecursion IsRight audited.now.audit.corrected.places.items }
{
    are_right(&audited.audit.corrected.places)
}
