//! What the findings of an audit come to.

ghost use Rattle.std.specs.Prelude.{◌≡◌, ◌<◌, ◌^◌, not};
ghost use Rattle.std.specs.List.{count_by, sum_by};
ghost use Rattle.dsa_recording.specs.Totals.{member_count, set_count, AreCounts, IsTotals, HasSums};

use crate::findings::{Finding, FindingKind};
use crate::report::Report;
use crate::stream::Submission;
use crate::submission::Audited;
use serde::Serialize;
use std::alloc::{AllocError, Global};

/// What was submitted, and what is found, in numbers.
#[derive(Clone, Copy, Serialize)]
pub struct Totals {
    /// How many batches there are.
    pub batches: usize,
    /// How many lone descriptors.
    pub lone: usize,
    /// How many descriptors, those of batches not counted.
    pub descriptors: usize,
    /// How many of them are not looked at.
    pub unseen: usize,
    /// How many fences there are.
    pub fences: usize,
    /// How many are missing.
    pub missing: usize,
    /// How many are needless.
    pub needless: usize,
    /// How many guard: no conflict needs them, but each is the first after a member that can fail.
    pub guarding: usize,
    /// How many signal: no conflict needs them, but a member waits for each that can be seen to have ended.
    pub signalling: usize,
    /// How many flaws beside fences.
    pub flaws: usize,
}

/// How many submissions are batches.
fn batches_in(submissions: &[Submission]) -> usize
    ensures { result ≡ count_by (λ s. s.is_batch) submissions.now }
{
    submissions
        .iter()
        .filter(|submission| submission.is_batch)
        .count()
}

/// How many fences are set.
pub(crate) fn fences_in(fences: &[bool]) -> usize
    ensures { result ≡ count_by (λ b. b) fences.now }
{
    fences.iter().filter(|fence| **fence).count()
}

/// How many submissions are lone descriptors.
fn lone_in(submissions: &[Submission]) -> usize
    ensures { result ≡ count_by (λ s. not s.is_batch) submissions.now }
{
    submissions
        .iter()
        .filter(|submission| !submission.is_batch)
        .count()
}

/// How many members all submissions have.
pub(crate) fn members_in(audits: &[Audited]) -> usize
    requires { sum_by member_count audits.now < 2 ^ 64 }
    ensures { result ≡ sum_by member_count audits.now }
{
    let mut members = 0;
    for audited in audits {
        members += audited.members.len();
    }
    members
}

/// How many fences are set in all submissions.
fn all_fences_in(audits: &[Audited]) -> usize
    requires { sum_by set_count audits.now < 2 ^ 64 }
    ensures { result ≡ sum_by set_count audits.now }
{
    let mut fences = 0;
    for audited in audits {
        fences += fences_in(&audited.fences);
    }
    fences
}

/// How many findings there are of each kind but repeated operations.
#[derive(Clone, Copy)]
struct Counts {
    unseen: usize,
    missing: usize,
    needless: usize,
    guarding: usize,
    signalling: usize,
    flaws: usize,
}

/// How many findings there are of each kind but repeated operations; a fence that guards and signals counts as both.
fn counts_of(findings: &[Finding]) -> Counts
    ensures { AreCounts findings.now result }
{
    let (mut unseen, mut missing, mut flaws): (usize, usize, usize) = (0, 0, 0);
    let (mut needless, mut guarding, mut signalling): (usize, usize, usize) = (0, 0, 0);
    for finding in findings {
        match finding.kind {
            FindingKind::NotSeen(_) => unseen += 1,
            FindingKind::MissingFence(_) => missing += 1,
            FindingKind::GuardingFence(_) => guarding += 1,
            FindingKind::SignallingFence(_) => signalling += 1,
            FindingKind::GuardingAndSignallingFence(_, _) => {
                guarding += 1;
                signalling += 1;
            }
            FindingKind::NeedlessFence => needless += 1,
            FindingKind::Repeated(_) => {}
            FindingKind::Flawed(_) => flaws += 1,
        }
    }
    Counts {
        unseen,
        missing,
        needless,
        guarding,
        signalling,
        flaws,
    }
}

/// The numbers of a report.
pub fn totals_of(report: &Report) -> Totals
    requires { HasSums report.now }
    ensures { IsTotals report.now result }
{
    let counts = counts_of(&report.findings);
    Totals {
        batches: batches_in(&report.submissions),
        lone: lone_in(&report.submissions),
        descriptors: members_in(&report.audits),
        unseen: counts.unseen,
        fences: all_fences_in(&report.audits),
        missing: counts.missing,
        needless: counts.needless,
        guarding: counts.guarding,
        signalling: counts.signalling,
        flaws: counts.flaws,
    }
}

/// A number of things, with the word for one or for more.
pub(crate) fn counted(
    alloc: Global,
    number: usize,
    one: &str,
    more: &str,
) -> Result<String, AllocError> {
    let word = if number == 1 { one } else { more };
    format!(in alloc; "{number} {word}")
}

/// The two lines of the numbers.
pub fn totals_text(alloc: Global, totals: &Totals) -> Result<String, AllocError> {
    let (unseen, missing) = (totals.unseen, totals.missing);
    let needless = totals.needless;
    let (guarding, signalling) = (totals.guarding, totals.signalling);
    let mut text = counted(alloc, totals.descriptors, "descriptor", "descriptors")?;
    text.push_str(" in ")?;
    text.push_str(&counted(alloc, totals.batches, "batch", "batches")?)?;
    text.push_str(" and ")?;
    text.push_str(&counted(alloc, totals.lone, "lone submission", "lone submissions")?)?;
    text.push_str(&format!(in alloc; ", {unseen} not looked at\n")?)?;
    text.push_str(&counted(alloc, totals.fences, "fence", "fences")?)?;
    text.push_str(&format!(in alloc;
        ", {missing} missing, {needless} needless, {guarding} guarding, {signalling} signalling\n"
    )?)?;
    Ok(text)
}

/// The line that nothing was submitted, if no descriptor was: that of a batch without members is one. It is an error if
/// that is denied.
pub(crate) fn nothing_text(
    alloc: Global,
    totals: &Totals,
    is_denied: bool,
) -> Result<String, AllocError> {
    if totals.batches > 0 || totals.lone > 0 {
        return Ok(String::new(alloc));
    }
    let severity = if is_denied { "error: " } else { "" };
    format!(in alloc; "{severity}nothing to audit: no descriptor was submitted\n")
}

/// The line of the flaws beside fences, if there are any.
pub(crate) fn flaws_text(alloc: Global, flaws: usize) -> Result<String, AllocError> {
    if flaws == 0 {
        return Ok(String::new(alloc));
    }
    let mut text = counted(alloc, flaws, "error", "errors")?;
    text.push_str(" beside fences\n")?;
    Ok(text)
}
