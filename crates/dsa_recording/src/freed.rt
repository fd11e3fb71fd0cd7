//! How many more fences would be needless if more were assumed.

ghost use Rattle.std.specs.Prelude.{◌≡◌, All, IfOk};
ghost use Rattle.std.specs.List.{AllByRecursion, count_by};
ghost use Rattle.dsa_recording.specs.declared.accepted.Accepted.{Accepted};
ghost use Rattle.dsa_recording.specs.Freed.{AreNeedless, HasAudits, HasAuditsAccepting, HasNeedless, IsAuditAccepting, IsFreed, IsReducedUnder, IsSomeAudit, is_needless_use, needless_count, needless_of};
ghost use Rattle.dsa_recording.specs.Pairs.{terms};
ghost use Rattle.dsa_recording.specs.Submissions.{IsWithin};
ghost use Rattle.dsa_recording.specs.Totals.{is_needless};

use crate::assumptions::{Assumptions, Await};
use crate::failure::fallible_of;
use crate::findings::{Finding, FindingKind};
use crate::report::Report;
use crate::showing::visible_of;
use crate::stream::Submission;
use crate::submission::{Audited, head_at};
use crate::totals::fences_in;
use dsa_audit::{Effects, FenceUse, Reduced, needed_fences};
use serde::Serialize;
use std::alloc::{AllocError, Global};

/// What can be assumed beyond the least, in the order in which it is said.
const MORE: [Assumptions; 5] = [
    Assumptions {
        awaited: Await::Writes,
        resident: true,
    },
    Assumptions {
        awaited: Await::Signals,
        resident: false,
    },
    Assumptions {
        awaited: Await::Batches,
        resident: false,
    },
    Assumptions {
        awaited: Await::Signals,
        resident: true,
    },
    Assumptions {
        awaited: Await::Batches,
        resident: true,
    },
];

/// Assumptions, and how many more fences are needless under them.
#[derive(Clone, Copy, Serialize)]
pub struct Freed {
    /// What is assumed.
    pub assumptions: Assumptions,
    /// How many more fences are needless.
    #[serde(rename = "needless")]
    pub fences: usize,
}

/// Whether a kind of finding is a needless fence.
pub(crate) fn is_needless<E: Copy>(kind: FindingKind<E>) -> bool
    ensures { result ≡ is_needless kind }
{
    match kind {
        FindingKind::NeedlessFence => true,
        FindingKind::NotSeen(_)
        | FindingKind::MissingFence(_)
        | FindingKind::GuardingFence(_)
        | FindingKind::SignallingFence(_)
        | FindingKind::GuardingAndSignallingFence(_, _)
        | FindingKind::Repeated(_)
        | FindingKind::Flawed(_) => false,
    }
}

/// How many of the findings are needless fences.
fn needless_in(findings: &[Finding]) -> usize
    ensures { result ≡ count_by (λ f. is_needless f.kind) findings.now }
{
    findings
        .iter()
        .filter(|finding| is_needless(finding.kind))
        .count()
}

/// Whether a fence may go.
fn is_needless_use(fence: FenceUse) -> bool
    ensures { result ≡ is_needless_use fence }
{
    match fence {
        FenceUse::Needless => true,
        FenceUse::NoFence
        | FenceUse::Needed(_, _)
        | FenceUse::Held
        | FenceUse::Guarding(_)
        | FenceUse::Signalling(_)
        | FenceUse::GuardingAndSignalling(_, _) => false,
    }
}

/// How many fences of a submission are needless by their uses; that of a lone descriptor has no effect.
fn needless_by(is_batch: bool, uses: &[FenceUse]) -> usize
    ensures { result ≡ needless_of is_batch uses.now }
{
    if !is_batch {
        return 0;
    }
    uses.iter().filter(|fence| is_needless_use(**fence)).count()
}

/// What the fences of a submission of these entries are for under the assumptions. What its members do, and which
/// fences are missing, rests on no assumption.
fn reduced_under(
    alloc: Global,
    all: &[[u8; 64]],
    assumptions: Assumptions,
    submission: Submission,
    audited: &Audited,
) -> Result<Reduced, AllocError>
    requires within { IsWithin all.now submission }
    requires audited { IsSomeAudit all.now submission audited.now }
    ensures { IfOk result (IsReducedUnder assumptions all.now submission audited.now) }
{
    let entries = &all[submission.first..submission.first + submission.size];
    let (head, members) = (&all[head_at(submission)], audited.members.as_slice());
    let fallible = fallible_of(alloc, assumptions, members, entries)?;
    let visible = visible_of(alloc, assumptions, head, members, entries)?;
    let effects = Effects {
        fallible: &fallible,
        visible: &visible,
    };
    let audit = &audited.audit;
    needed_fences(
        alloc,
        &audited.fences,
        &audit.unaccepted.fences,
        &audit.corrected.fences,
        members,
        &audit.lasts,
        effects,
    )
}

/// How many fences of a submission of these entries are needless under the assumptions.
fn needless_in_submission(
    alloc: Global,
    all: &[[u8; 64]],
    assumptions: Assumptions,
    submission: Submission,
    audited: &Audited,
) -> Result<usize, AllocError>
    requires within { IsWithin all.now submission }
    requires audited { IsSomeAudit all.now submission audited.now }
    ensures { (accepted : Accepted) → IsAuditAccepting accepted all.now submission audited.now →
        IfOk result (HasNeedless (terms accepted assumptions) all.now submission) }
{
    if fences_in(&audited.audit.unaccepted.fences) == 0 {
        if fences_in(&audited.audit.corrected.fences) == 0 {
            return Ok(0);
        }
    }
    let reduced = reduced_under(alloc, all, assumptions, submission, audited)?;
    Ok(needless_by(audited.is_batch, &reduced.uses))
}

/// How many fences of the report's submissions are needless under the assumptions.
fn needless_under(
    alloc: Global,
    all: &[[u8; 64]],
    assumptions: Assumptions,
    report: &Report,
) -> Result<usize, AllocError>
    requires within { All (IsWithin all.now) report.now.submissions.items }
    requires audited { HasAudits all.now report.now }
    ensures { (accepted : Accepted) → HasAuditsAccepting accepted all.now report.now →
        IfOk result (AreNeedless (terms accepted assumptions)
        all.now report.now.submissions.items) }
{
    let mut needless: usize = 0;
    for number in 0..report.submissions.len() {
        let (submission, audited) = (report.submissions[number], &report.audits[number]);
        let more = needless_in_submission(alloc, all, assumptions, submission, audited)?;
        // no memory has so many fences
        let Some(sum) = needless.checked_add(more) else {
            return Err(AllocError);
        };
        needless = sum;
    }
    Ok(needless)
}

/// Whether no conflict needs the fence that was found, and it stays.
fn is_kept(kind: FindingKind<usize>) -> bool {
    match kind {
        FindingKind::GuardingFence(_)
        | FindingKind::SignallingFence(_)
        | FindingKind::GuardingAndSignallingFence(_, _) => true,
        FindingKind::NotSeen(_)
        | FindingKind::MissingFence(_)
        | FindingKind::NeedlessFence
        | FindingKind::Repeated(_)
        | FindingKind::Flawed(_) => false,
    }
}

/// How much software is assumed to look at: the less, the greater.
fn rank(awaited: Await) -> u8 {
    match awaited {
        Await::Writes => 0,
        Await::Signals => 1,
        Await::Batches => 2,
    }
}

/// Whether the second assumes all that the first does, and more.
fn is_more(first: Assumptions, second: Assumptions) -> bool {
    let (one, other) = (rank(first.awaited), rank(second.awaited));
    first != second && one <= other && (second.resident || !first.resident)
}

/// How many more fences are needless under these assumptions than the `now` of the report.
fn freed_under(
    alloc: Global,
    all: &[[u8; 64]],
    report: &Report,
    now: usize,
    assumptions: Assumptions,
) -> Result<Freed, AllocError>
    requires within { All (IsWithin all.now) report.now.submissions.items }
    requires audited { HasAudits all.now report.now }
    requires now { now ≡ needless_count report.now.findings.items }
    ensures { (accepted : Accepted) → HasAuditsAccepting accepted all.now report.now →
        IfOk result (λ f. IsFreed accepted all.now report.now f) }
{
    let then = needless_under(alloc, all, assumptions, report)?;
    Ok(Freed {
        assumptions,
        fences: then.saturating_sub(now),
    })
}

/// Whether a fence of the submission is held.
fn has_held(audited: &Audited) -> bool {
    let uses = &audited.audit.reduced.uses;
    uses.iter().any(|fence| is_held(*fence))
}

/// Whether what is accepted holds the fence.
fn is_held(fence: FenceUse) -> bool {
    match fence {
        FenceUse::Held => true,
        FenceUse::NoFence
        | FenceUse::Needed(_, _)
        | FenceUse::Guarding(_)
        | FenceUse::Signalling(_)
        | FenceUse::GuardingAndSignalling(_, _)
        | FenceUse::Needless => false,
    }
}

/// How many more fences would be needless with each set of further assumptions, of the report under these. There is
/// none if no fence guards, signals or is held, since only such fences can become needless.
pub(crate) fn freed_by(
    alloc: Global,
    all: &[[u8; 64]],
    report: &Report,
    assumptions: Assumptions,
) -> Result<Vec<Freed>, AllocError>
    requires within { All (IsWithin all.now) report.now.submissions.items }
    requires audited { HasAudits all.now report.now }
    ensures { (accepted : Accepted) → HasAuditsAccepting accepted all.now report.now →
        IfOk result (λ freed. AllByRecursion (IsFreed accepted all.now report.now) freed.items) }
{
    let mut freed = Vec::new(alloc);
    let are_kept = report.findings.iter().any(|finding| is_kept(finding.kind));
    if !are_kept && !report.audits.iter().any(has_held) {
        return Ok(freed);
    }
    let now = needless_in(&report.findings);
    for more in MORE {
        if is_more(assumptions, more) {
            let one = freed_under(alloc, all, report, now, more)?;
            freed.push(one)?;
        }
    }
    Ok(freed)
}

/// The name of what software looks at.
pub(crate) fn await_name(awaited: Await) -> &'static str {
    match awaited {
        Await::Writes => "writes",
        Await::Signals => "signals",
        Await::Batches => "batches",
    }
}

/// The options that lead from the first assumptions to the second.
fn options_text(
    alloc: Global,
    first: Assumptions,
    second: Assumptions,
) -> Result<String, AllocError> {
    let mut text = String::new(alloc);
    if first.awaited != second.awaited {
        text.push_str(" --await ")?;
        text.push_str(await_name(second.awaited))?;
    }
    if first.resident != second.resident {
        text.push_str(" --resident")?;
    }
    Ok(text)
}

/// The line that says how many more fences would be needless, or nothing where that is not asked, or none would be.
pub(crate) fn freed_text(
    alloc: Global,
    assumptions: Assumptions,
    freed: &[Freed],
) -> Result<String, AllocError> {
    let mut text = String::new(alloc);
    if freed.iter().all(|more| more.fences == 0) {
        return Ok(text);
    }
    for more in freed {
        let front = if text.is_empty() {
            "needless too: "
        } else {
            ", "
        };
        let (fences, options) = (
            more.fences,
            options_text(alloc, assumptions, more.assumptions)?,
        );
        text.push_str(&format!(in alloc; "{front}{fences} with{options}")?)?;
    }
    if !text.is_empty() {
        text.push_str("\n")?;
    }
    Ok(text)
}
