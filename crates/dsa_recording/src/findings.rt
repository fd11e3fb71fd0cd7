//! What an audit of a recording finds.

ghost use Rattle.std.specs.Prelude.{◌≡◌, ◌++◌, ◌<◌, All, IfOk, OnOk, length};
ghost use Rattle.dsa_recording.specs.Findings.{unseen_kind, accepted_kind, missing_kind, use_kind, shared_kind, repeated_kind, flaw_kind, size_kind, head_kinds, member_kinds, finding_of, all_found, findings_upto, submission_findings, recording_findings, HasAll};

use crate::submission::Audited;
use dsa_audit::{FencePlace, FenceUse, Member, Unseen};
use std::alloc::{AllocError, Global};

/// What is wrong beside fences.
#[derive(Clone, Copy)]
pub enum Flaw {
    /// The completion record of the member, or its data, meets the record of this earlier one; or its record meets
    /// data of that.
    SharedRecord(usize),
    /// The member writes the descriptors of its batch, or the batch's completion record.
    OverwritesBatch,
    /// The data of an entry meet its own completion record.
    DataOverRecord,
    /// The address of a completion record is no multiple of 32.
    MisalignedRecord,
    /// A no-op or a drain has other bytes than zero where these reserve them.
    ReservedBytes,
    /// A batch of so many members, none or one.
    SmallBatch(usize),
    /// A lone descriptor, or that of a batch, has a fence, which orders nothing.
    FenceWithoutEffect,
}

/// What is found of an entry. Of a missing fence it has an `E`: the number of the earlier member in a report, and that
/// with the hazard where its detail is known.
#[derive(Clone, Copy)]
pub enum FindingKind<E> {
    /// It is not looked at, for this reason.
    NotSeen(Unseen),
    /// A fence is missing before it: it conflicts with this earlier member.
    MissingFence(E),
    /// No conflict needs the fence before it, but it is the first after this earlier member, which can fail.
    GuardingFence(usize),
    /// No conflict needs the fence before it, but this member waits for it and can be seen to have ended.
    SignallingFence(usize),
    /// Both: the earlier member that can fail, and the one that waits.
    GuardingAndSignallingFence(usize, usize),
    /// The fence before it may go, once the missing ones of its batch are set.
    NeedlessFence,
    /// The member does what this earlier one does, and neither reads what the other writes.
    Repeated(usize),
    /// Something beside fences is wrong.
    Flawed(Flaw),
}

/// What a finding is of.
#[derive(Clone, Copy)]
pub enum Place {
    /// The descriptor of a batch.
    Head,
    /// The member of this number; a lone descriptor is member 0.
    Member(usize),
}

/// Something found in a recording.
#[derive(Clone, Copy)]
pub struct Finding {
    /// The number of the submission.
    pub submission: usize,
    /// What of it.
    pub place: Place,
    /// What is found.
    pub kind: FindingKind<usize>,
}

/// Why a member is not looked at.
fn unseen_kind(member: &Member) -> Option<FindingKind<usize>>
    ensures { result ≡ unseen_kind member.now }
{
    match member {
        Member::Known(_) => None,
        Member::Unknown(why) => Some(FindingKind::NotSeen(*why)),
    }
}

/// Whether a fence is missing.
fn missing_kind(place: FencePlace) -> Option<FindingKind<usize>>
    ensures { result ≡ missing_kind place }
{
    match place {
        FencePlace::NoFence | FencePlace::Given => None,
        FencePlace::Missing(earlier) => Some(FindingKind::MissingFence(earlier)),
    }
}

/// Whether a missing fence is accepted.
fn accepted_kind(accepted: Option<usize>) -> Option<FindingKind<usize>>
    ensures { result ≡ accepted_kind accepted }
{
    match accepted {
        Some(earlier) => Some(FindingKind::MissingFence(earlier)),
        None => None,
    }
}

/// Whether a fence is needless, or what it is for though no conflict needs it. That of a lone descriptor has no effect.
fn use_kind(is_batch: bool, fence: FenceUse) -> Option<FindingKind<usize>>
    ensures { result ≡ use_kind is_batch fence }
{
    match fence {
        FenceUse::NoFence | FenceUse::Needed(_, _) | FenceUse::Held => None,
        FenceUse::Guarding(earlier) => Some(FindingKind::GuardingFence(earlier)),
        FenceUse::Signalling(awaited) => Some(FindingKind::SignallingFence(awaited)),
        FenceUse::GuardingAndSignalling(earlier, awaited) => {
            Some(FindingKind::GuardingAndSignallingFence(earlier, awaited))
        }
        FenceUse::Needless => {
            if is_batch {
                Some(FindingKind::NeedlessFence)
            } else {
                Some(FindingKind::Flawed(Flaw::FenceWithoutEffect))
            }
        }
    }
}

/// Whether a member shares a record with an earlier one.
fn shared_kind(shared: Option<usize>) -> Option<FindingKind<usize>>
    ensures { result ≡ shared_kind shared }
{
    match shared {
        Some(earlier) => Some(FindingKind::Flawed(Flaw::SharedRecord(earlier))),
        None => None,
    }
}

/// Whether a member does what an earlier one does.
fn repeated_kind(repeated: Option<usize>) -> Option<FindingKind<usize>>
    ensures { result ≡ repeated_kind repeated }
{
    match repeated {
        Some(earlier) => Some(FindingKind::Repeated(earlier)),
        None => None,
    }
}

/// The flaw, if it is there.
fn flaw_kind(flaw: Flaw, is_there: bool) -> Option<FindingKind<usize>>
    ensures { result ≡ flaw_kind flaw is_there }
{
    if is_there {
        Some(FindingKind::Flawed(flaw))
    } else {
        None
    }
}

/// Whether a batch has fewer than two members.
fn size_kind(size: usize) -> Option<FindingKind<usize>>
    ensures { result ≡ size_kind size }
{
    flaw_kind(Flaw::SmallBatch(size), size < 2)
}

/// What may be found of a batch's descriptor, in this order.
fn head_kinds(audited: &Audited) -> [Option<FindingKind<usize>>; 3]
    ensures { result ≡ head_kinds audited.now }
{
    [
        size_kind(audited.members.len()),
        flaw_kind(Flaw::MisalignedRecord, audited.is_head_misaligned),
        flaw_kind(Flaw::FenceWithoutEffect, audited.is_head_fenced),
    ]
}

/// What may be found of a member, in this order.
fn member_kinds(audited: &Audited, k: usize) -> [Option<FindingKind<usize>>; 10]
    requires all { HasAll audited.now }
    requires within { k < length audited.now.members.items }
    ensures { result ≡ member_kinds audited.now k }
{
    let flaws = audited.flaws[k];
    [
        unseen_kind(&audited.members[k]),
        shared_kind(audited.shared[k]),
        flaw_kind(Flaw::OverwritesBatch, flaws.overwrites_batch),
        flaw_kind(Flaw::DataOverRecord, flaws.data_over_record),
        flaw_kind(Flaw::MisalignedRecord, flaws.misaligned_record),
        flaw_kind(Flaw::ReservedBytes, flaws.reserved_bytes),
        repeated_kind(audited.audit.repeated[k]),
        accepted_kind(audited.audit.accepted[k]),
        missing_kind(audited.audit.corrected.places[k]),
        use_kind(audited.is_batch, audited.audit.reduced.uses[k]),
    ]
}

/// Adds a finding, if there is one.
fn push_finding(
    findings: &mut Vec<Finding>,
    submission: usize,
    place: Place,
    found: Option<FindingKind<usize>>,
) -> Result<(), AllocError>
    ensures { OnOk result
        (findings.new.items ≡ findings.old.items ++ finding_of submission place found) }
{
    let Some(kind) = found else {
        return Ok(());
    };
    findings.push(Finding {
        submission,
        place,
        kind,
    })?;
    Ok(())
}

/// Adds what is found of a place, where it is.
fn push_kinds(
    findings: &mut Vec<Finding>,
    submission: usize,
    place: Place,
    kinds: &[Option<FindingKind<usize>>],
) -> Result<(), AllocError>
    ensures { OnOk result (findings.new.items ≡
        findings.old.items ++ all_found submission place kinds.now) }
{
    for found in kinds {
        push_finding(findings, submission, place, *found)?;
    }
    Ok(())
}

/// Adds all findings of the members of a submission.
fn push_members(
    findings: &mut Vec<Finding>,
    number: usize,
    audited: &Audited,
) -> Result<(), AllocError>
    requires { HasAll audited.now }
    ensures { OnOk result (findings.new.items ≡ findings.old.items ++
        findings_upto number audited.now (length audited.now.members.items)) }
{
    for member in 0..audited.members.len() {
        let kinds = member_kinds(audited, member);
        push_kinds(findings, number, Place::Member(member), &kinds)?;
    }
    Ok(())
}

/// Adds all findings of a submission.
fn push_submission(
    findings: &mut Vec<Finding>,
    number: usize,
    audited: &Audited,
) -> Result<(), AllocError>
    requires { HasAll audited.now }
    ensures { OnOk result
        (findings.new.items ≡ findings.old.items ++ submission_findings number audited.now) }
{
    if audited.is_batch {
        push_kinds(findings, number, Place::Head, &head_kinds(audited))?;
    }
    push_members(findings, number, audited)
}

/// All that is found in submissions, in order: of the descriptor of a batch and then of each member what is wrong
/// beside fences, members that are not looked at, repeated operations, missing fences, first one that is accepted,
/// and fences that no conflict needs.
pub fn findings_of(alloc: Global, audits: &[Audited]) -> Result<Vec<Finding>, AllocError>
    requires { All HasAll audits.now }
    ensures { IfOk result (λ findings. findings.items ≡ recording_findings 0 audits.now) }
{
    let mut findings = Vec::new(alloc);
    for (number, audited) in audits.iter().enumerate() {
        push_submission(&mut findings, number, audited)?;
    }
    Ok(findings)
}
