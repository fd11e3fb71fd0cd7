//! Which accepted keys are used.

ghost use Rattle.std.specs.Prelude.{◌≡◌, ◌↔◌, ◌<◌, ◌≤◌, ◌+◌, ℕ, List, All, IfOk, IsTrue, OnOk, length, true};
ghost use Rattle.dsa_audit.specs.Audits.{IsCorrected};
ghost use Rattle.dsa_audit.specs.Members.{KnownConflict};
ghost use Rattle.dsa_audit.specs.Repeats.{OrderMatters};
ghost use Rattle.dsa_audit.specs.Steps.{AreLasts};
ghost use Rattle.dsa_conflicts.specs.Access.{IsGreatest};
ghost use Rattle.dsa_recording.specs.Answers.{ArePlaced};
ghost use Rattle.dsa_recording.specs.Details.{IsPlaced};
ghost use Rattle.dsa_recording.specs.Freed.{HasAudits};
ghost use Rattle.dsa_recording.specs.Pairs.{has_key};
ghost use Rattle.dsa_recording.specs.Reports.{reported_by};
ghost use Rattle.dsa_recording.specs.Submissions.{IsWithin};
ghost use Rattle.dsa_recording.specs.Uses.{AddsKeys, AreUsed, Excuses, ExcusesSome, IsEpochBefore, IsEpochOf, IsUsed, NeedFence, TakesAcceptedOut, TakesBelowOut, TakesFirstOut, TakesLaterOut, TakesPairOut, TakesSomeOut};

use crate::accepted::Accepted;
use crate::answer::AuditOptions;
use crate::detail::{are_right, detail_of};
use crate::findings::Finding;
use crate::keys::{fence_key, key_text};
use crate::pairs::named_with;
use crate::report::Report;
use crate::submission::Audited;
use crate::words::{is_error, severity_of};
use dsa_audit::{OrderedConflicts, Relation, all_lasts, hazards_between};
use std::alloc::{AllocError, Global};

/// An audited submission, the entries of its members, and the keys that are accepted.
#[derive(Clone, Copy)]
struct Judged<'a> {
    alloc: Global,
    accepted: &'a Accepted,
    entries: &'a [[u8; 64]],
    audited: &'a Audited,
}

/// The first member of the epoch of a member as recorded, by that of the member before.
fn epoch_after(fences: &[bool], epoch: usize, member: usize) -> usize
    requires within { member < length fences.now }
    requires before { IsEpochBefore fences.now member epoch }
    ensures { IsEpochOf fences.now member result }
{
    if fences[member] { member } else { epoch }
}

/// Whether these members of a submission need a fence that is not there: their order matters, and no recorded fence
/// separates them. The epoch of the later one begins with member `epoch`.
fn need_a_fence(audited: &Audited, epoch: usize, earlier: usize, later: usize) -> bool
    requires within { later < length audited.now.operands.items }
    requires epoch { IsEpochOf audited.now.fences.items later epoch }
    ensures { IsTrue result ↔ NeedFence audited.now earlier later }
{
    if earlier < epoch {
        return false;
    }
    if earlier >= later {
        return false;
    }
    let relation = OrderedConflicts {
        actions: &audited.actions,
        members: &audited.operands,
    };
    relation.conflicts(earlier, later)
}

/// Adds the key of two members, if it is accepted and takes them out of those that need a fence.
fn use_pair(
    judged: Judged<'_>,
    epoch: usize,
    earlier: usize,
    later: usize,
    used: &mut Accepted,
) -> Result<(), AllocError>
    requires within { later < length judged.audited.now.operands.items }
    requires epoch { IsEpochOf judged.audited.now.fences.items later epoch }
    ensures { OnOk result (AddsKeys (TakesPairOut judged.entry.accepted.now
        judged.entry.entries.now judged.entry.audited.now earlier later) used.old used.new) }
{
    if !need_a_fence(judged.audited, epoch, earlier, later) {
        return Ok(());
    }
    let hazards = hazards_between(&judged.audited.operands, earlier, later);
    let key = fence_key(judged.alloc, judged.entries, earlier, later, hazards)?;
    if !judged.accepted.has(&key) {
        return Ok(());
    }
    used.add(judged.alloc, &key)
}

/// Adds those of these earlier members with a later one.
fn use_members(
    judged: Judged<'_>,
    epoch: usize,
    members: &[usize],
    later: usize,
    used: &mut Accepted,
) -> Result<(), AllocError>
    requires within { later < length judged.audited.now.operands.items }
    requires epoch { IsEpochOf judged.audited.now.fences.items later epoch }
    ensures { OnOk result (AddsKeys (TakesFirstOut judged.entry.accepted.now
        judged.entry.entries.now judged.entry.audited.now members.now (length members.now) later)
        used.old used.new) }
{
    for at in 0..members.len() {
        use_pair(judged, epoch, members[at], later, used)?;
    }
    Ok(())
}

/// Whether a member is known to conflict with one of its epoch, which begins with member `epoch`; `last` is the last
/// before it that is known to conflict with it.
fn is_within(last: Option<usize>, epoch: usize) -> bool
    ensures { ¬ IsTrue result → (i : ℕ) → last ≡ Some i → i < epoch }
{
    match last {
        Some(last) => epoch <= last,
        None => false,
    }
}

/// Adds those of a member with all earlier ones; `last` is the last that is known to conflict with it.
fn use_later(
    judged: Judged<'_>,
    epoch: usize,
    last: Option<usize>,
    later: usize,
    used: &mut Accepted,
) -> Result<(), AllocError>
    requires within { later < length judged.audited.now.operands.items }
    requires epoch { IsEpochOf judged.audited.now.fences.items later epoch }
    requires last { IsGreatest
        (λ a. (a < later) × KnownConflict judged.audited.now.operands.items a later) last }
    ensures { OnOk result (AddsKeys (TakesLaterOut judged.entry.accepted.now
        judged.entry.entries.now judged.entry.audited.now later) used.old used.new) }
{
    if !is_within(last, epoch) {
        return Ok(());
    }
    let members = named_with(judged.alloc, judged.accepted, judged.entries, later)?;
    use_members(judged, epoch, &members, later, used)
}

/// Adds those of all members of a submission; `lasts` has the last conflict of each.
fn use_pairs(
    judged: Judged<'_>,
    lasts: &[Option<usize>],
    used: &mut Accepted,
) -> Result<(), AllocError>
    requires known { length judged.audited.now.fences.items ≡
        length judged.audited.now.operands.items }
    requires count { length lasts.now ≡ length judged.audited.now.operands.items }
    requires lasts { AreLasts (KnownConflict judged.audited.now.operands.items) lasts.now }
    ensures { OnOk result (AddsKeys (TakesAcceptedOut judged.entry.accepted.now
        judged.entry.entries.now judged.entry.audited.now) used.old used.new) }
{
    let mut epoch = 0;
    for later in 0..lasts.len() {
        epoch = epoch_after(&judged.audited.fences, epoch, later);
        use_later(judged, epoch, lasts[later], later, used)?;
    }
    Ok(())
}

/// Adds those of a submission. One that lacks no fence if nothing is accepted has none of them.
fn use_submission(judged: Judged<'_>, used: &mut Accepted) -> Result<(), AllocError>
    requires corrected { IsCorrected
        (OrderMatters judged.audited.now.actions.items judged.audited.now.operands.items)
        judged.audited.now.fences.items judged.audited.now.audit.unaccepted.places.items
        judged.audited.now.audit.unaccepted.fences.items }
    requires known { length judged.audited.now.fences.items ≡
        length judged.audited.now.operands.items }
    ensures { OnOk result (AddsKeys (TakesAcceptedOut judged.entry.accepted.now
        judged.entry.entries.now judged.entry.audited.now) used.old used.new) }
{
    if are_right(&judged.audited.audit.unaccepted.places) {
        return Ok(());
    }
    let lasts = all_lasts(judged.alloc, &judged.audited.operands)?;
    use_pairs(judged, &lasts, used)
}

/// Adds those that take a pair out of a submission of the report.
fn use_all_pairs(
    alloc: Global,
    accepted: &Accepted,
    all: &[[u8; 64]],
    report: &Report,
    used: &mut Accepted,
) -> Result<(), AllocError>
    requires within { All (IsWithin all.now) report.now.submissions.items }
    requires audited { HasAudits all.now report.now }
    ensures { OnOk result (AddsKeys
        (λ key. (has_key accepted.now key ≡ true)
        × TakesSomeOut all.now report.now.submissions.items report.now.audits.items key)
        used.old used.new) }
{
    for number in 0..report.submissions.len() {
        let submission = report.submissions[number];
        let judged = Judged {
            alloc,
            accepted,
            entries: &all[submission.first..submission.first + submission.size],
            audited: &report.audits[number],
        };
        use_submission(judged, used)?;
    }
    Ok(())
}

/// Adds the key of a finding, if it is accepted and the finding is an error without it.
fn use_finding(
    alloc: Global,
    options: AuditOptions<'_>,
    all: &[[u8; 64]],
    report: &Report,
    finding: Finding,
    used: &mut Accepted,
) -> Result<(), AllocError>
    requires { IsPlaced all.now (reported_by report.now) finding }
    ensures { OnOk result (AddsKeys
        (λ key. (has_key options.entry.accepted.now key ≡ true)
        × Excuses options.entry all.now (reported_by report.now) finding key)
        used.old used.new) }
{
    if !is_error(severity_of(options.denied, finding.kind)) {
        return Ok(());
    }
    let Some(detail) = detail_of(all, report, finding) else {
        return Ok(());
    };
    let key = key_text(alloc, all, &detail)?;
    if !options.accepted.has(&key) {
        return Ok(());
    }
    used.add(alloc, &key)
}

/// Adds the keys of all findings that are accepted.
fn use_findings(
    alloc: Global,
    options: AuditOptions<'_>,
    all: &[[u8; 64]],
    report: &Report,
    used: &mut Accepted,
) -> Result<(), AllocError>
    requires { ArePlaced all.now (reported_by report.now) }
    ensures { OnOk result (AddsKeys
        (λ key. (has_key options.entry.accepted.now key ≡ true)
        × ExcusesSome options.entry all.now (reported_by report.now) report.now.findings.items key)
        used.old used.new) }
{
    for number in 0..report.findings.len() {
        use_finding(alloc, options, all, report, report.findings[number], used)?;
    }
    Ok(())
}

/// Adds the accepted keys that are used in a report on these entries.
pub(crate) fn use_report(
    alloc: Global,
    options: AuditOptions<'_>,
    all: &[[u8; 64]],
    report: &Report,
    used: &mut Accepted,
) -> Result<(), AllocError>
    requires within { All (IsWithin all.now) report.now.submissions.items }
    requires audited { HasAudits all.now report.now }
    requires placed { ArePlaced all.now (reported_by report.now) }
    ensures { OnOk result (AddsKeys
        (IsUsed options.entry all.now (reported_by report.now)) used.old used.new) }
{
    if options.accepted.keys.is_empty() {
        return Ok(());
    }
    use_all_pairs(alloc, options.accepted, all, report, used)?;
    use_findings(alloc, options, all, report, used)
}

/// The accepted keys that are used in a report on these entries.
pub(crate) fn used_in(
    alloc: Global,
    options: AuditOptions<'_>,
    all: &[[u8; 64]],
    report: &Report,
) -> Result<Accepted, AllocError>
    requires within { All (IsWithin all.now) report.now.submissions.items }
    requires audited { HasAudits all.now report.now }
    requires placed { ArePlaced all.now (reported_by report.now) }
    ensures { IfOk result (AreUsed options.entry all.now (reported_by report.now)) }
{
    let mut used = Accepted::none(alloc);
    use_report(alloc, options, all, report, &mut used)?;
    Ok(used)
}
