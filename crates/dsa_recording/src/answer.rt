//! The answer to a recording: which fences of its submissions are missing, and which are needless.

ghost use Rattle.dsa_recording.specs.declared.answer.AuditFormat.TheVariants.{Picture, List as Listed};
ghost use Rattle.std.specs.Prelude.{◌≡◌, ◌≢◌, ◌≤◌, ◌^◌, ◌↔◌, All, length, IfOk, IsTrue};
ghost use Rattle.dsa_recording.specs.declared.stream.StreamFault.TheVariants.{Memory};
ghost use Rattle.dsa_recording.specs.Answers.{AnswersFormat, AnswersRecording, AnswersReport, AreNoErrors, ArePlaced, IsAnswerStatus, IsDeniedNothing, IsNoError, IsStatusOf, Judges, Refuses};
ghost use Rattle.dsa_recording.specs.Freed.{HasAudits};
ghost use Rattle.dsa_recording.specs.Details.{IsPlaced};
ghost use Rattle.dsa_recording.specs.Keys.{key_words};
ghost use Rattle.dsa_recording.specs.Pairs.{has_key};
ghost use Rattle.dsa_recording.specs.Reports.{reported_by};
ghost use Rattle.dsa_recording.specs.Words.{severity_of, severity_with};
ghost use Rattle.dsa_recording.specs.Listings.{AreEntries};
ghost use Rattle.dsa_recording.specs.Submissions.{IsWithin};
ghost use Rattle.dsa_recording.specs.Totals.{HasSums};
ghost use Rattle.dsa_recording.specs.Uses.{AreUsed};

use crate::accepted::{Accepted, is_accepted};
use crate::assumptions::Assumptions;
use crate::detail::{Detail, detail_of, has_all_fences};
use crate::entry::Header;
use crate::findings::Finding;
use crate::foreign::STAGING_HINT;
use crate::keys::key_text;
use crate::listing::listing_text;
use crate::picture::{draw_report, is_too_large, too_large_text};
use crate::report::{Report, audit_recording};
use crate::stream::StreamFault;
use crate::unwaited::MissingWait;
use crate::uses::used_in;
use crate::words::{Denied, Severity, is_error, severity_of, severity_with};
use crate::written::Written;
use dsa_settings::Settings;
use std::alloc::{AllocError, Global};

/// How a report is written.
#[derive(Clone, Copy)]
pub enum AuditFormat {
    /// A line for each finding, and the numbers.
    Text,
    /// One line of JSON.
    Json,
    /// A picture, as SVG.
    Picture,
    /// The operations, as a list to plan.
    List,
    /// The keys of the errors, a line each.
    Keys,
}

/// How an audit is written, and what it denies.
#[derive(Clone, Copy)]
pub struct AuditOptions<'a> {
    /// How the report is written.
    pub format: AuditFormat,
    /// Whether a text has each finding; else the first of each key, and how many more there are.
    pub every: bool,
    /// The findings that count as errors.
    pub denied: Denied,
    /// Those that do not.
    pub accepted: &'a Accepted,
    /// What is assumed of the software.
    pub assumptions: Assumptions,
    /// The missing waits that a picture shows, in the order of the entries that lack them.
    pub waits: &'a [MissingWait],
}

/// What an audit answers.
#[derive(Drop)]
pub struct AuditAnswer {
    /// The report, or why there is none.
    pub text: String,
    /// 0 if nothing is an error, 1 if something is: a missing fence, a fence, record or batch that is wrong, or what is
    /// denied, as an empty recording; 2 if there is no recording, or it is too large for a picture. Of a list it is 0
    /// or 2.
    pub status: u8,
    /// The accepted keys that are used; of a refusal, of a picture that is too large and of a list none.
    pub used: Accepted,
}

impl AuditAnswer {
    /// The answer where there is no report, for the reason in this text.
    pub fn refused(alloc: Global, text: String) -> AuditAnswer
        ensures text { result.text ≡ text }
        ensures refuses { Refuses result }
    {
        AuditAnswer {
            text,
            status: 2,
            used: Accepted::none(alloc),
        }
    }
}

/// Of each submission whether none of its fences is missing.
pub(crate) fn completeness(alloc: Global, report: &Report) -> Result<Vec<bool>, AllocError> {
    let mut complete = Vec::new(alloc);
    for audited in &report.audits {
        complete.push(has_all_fences(audited))?;
    }
    Ok(complete)
}

/// Whether no fence is missing in the submission of that number.
pub(crate) fn is_complete(complete: &[bool], submission: usize) -> bool {
    complete.get(submission).copied().unwrap_or(false)
}

/// Whether a finding of the report is no error.
fn is_no_error(
    alloc: Global,
    options: AuditOptions<'_>,
    all: &[[u8; 64]],
    report: &Report,
    finding: Finding,
) -> Result<bool, AllocError>
    requires { IsPlaced all.now (reported_by report.now) finding }
    ensures { IfOk result (λ yes. IsTrue yes ↔
        IsNoError options.entry all.now (reported_by report.now) finding) }
{
    if !is_error(severity_of(options.denied, finding.kind)) {
        return Ok(true);
    }
    is_accepted(alloc, options.accepted, all, report, finding)
}

/// The status of a report: whether some finding is an error.
pub(crate) fn status_of(
    alloc: Global,
    options: AuditOptions<'_>,
    all: &[[u8; 64]],
    report: &Report,
) -> Result<u8, AllocError>
    requires { ArePlaced all.now (reported_by report.now) }
    ensures { IfOk result (IsStatusOf options.entry all.now (reported_by report.now)) }
{
    let mut rest = report.findings.as_slice();
    while let [finding, after @ ..] = rest {
        if !is_no_error(alloc, options, all, report, *finding)? {
            return Ok(1);
        }
        rest = after;
    }
    Ok(0)
}

/// How severe a finding in these entries is under the options.
pub(crate) fn severity_in(
    alloc: Global,
    options: AuditOptions<'_>,
    all: &[[u8; 64]],
    detail: &Detail,
) -> Result<Severity, AllocError>
    ensures { IfOk result (λ severity. severity ≡
        severity_with (has_key options.entry.accepted.now (key_words all.now detail.now))
        (severity_of options.entry.denied detail.now.cause)) }
{
    let key = key_text(alloc, all, detail)?;
    let severity = severity_of(options.denied, detail.cause);
    Ok(severity_with(options.accepted.has(&key), severity))
}

/// The report in the format of the options, where that is words, JSON or keys.
fn report_text(
    alloc: Global,
    all: &[[u8; 64]],
    report: &Report,
    settings: &Settings,
    options: AuditOptions<'_>,
) -> Result<String, AllocError>
    requires sums { HasSums report.now }
    requires within { All (IsWithin all.now) report.now.submissions.items }
    requires audited { HasAudits all.now report.now }
{
    let mut written = Written::new(alloc);
    written.add(alloc, all, report, settings, options)?;
    written.into_text(alloc, settings, options)
}

/// Whether there are no entries, and that is denied.
fn is_denied_nothing(options: AuditOptions<'_>, all: &[[u8; 64]]) -> bool
    ensures { IsTrue result ↔ IsDeniedNothing options.entry all.now }
{
    options.denied.nothing && all.is_empty()
}

/// The status of the answer of a report: whether something is an error.
fn answer_status(
    alloc: Global,
    options: AuditOptions<'_>,
    all: &[[u8; 64]],
    report: &Report,
) -> Result<u8, AllocError>
    requires { ArePlaced all.now (reported_by report.now) }
    ensures { IfOk result (IsAnswerStatus options.entry all.now (reported_by report.now)) }
{
    if is_denied_nothing(options, all) {
        return Ok(1);
    }
    status_of(alloc, options, all, report)
}

/// The answer of a report in this text, with status 1 if something is an error.
fn written(
    alloc: Global,
    options: AuditOptions<'_>,
    all: &[[u8; 64]],
    report: &Report,
    text: String,
) -> Result<AuditAnswer, AllocError>
    requires within { All (IsWithin all.now) report.now.submissions.items }
    requires audited { HasAudits all.now report.now }
    requires placed { ArePlaced all.now (reported_by report.now) }
    ensures text { IfOk result (λ answer. answer.text ≡ text) }
    ensures judges { IfOk result (Judges options.entry all.now (reported_by report.now)) }
{
    let status = answer_status(alloc, options, all, report)?;
    let used = used_in(alloc, options, all, report)?;
    Ok(AuditAnswer { text, status, used })
}

/// The answer of a report as a picture, or why it has none.
fn answer_picture(
    alloc: Global,
    all: &[[u8; 64]],
    report: &Report,
    settings: &Settings,
    options: AuditOptions<'_>,
) -> Result<AuditAnswer, AllocError>
    requires sums { HasSums report.now }
    requires within { All (IsWithin all.now) report.now.submissions.items }
    requires audited { HasAudits all.now report.now }
    requires placed { ArePlaced all.now (reported_by report.now) }
    ensures { IfOk result (AnswersFormat Picture options.entry all.now (reported_by report.now)) }
{
    if is_too_large(all, report) {
        let text = too_large_text(alloc, all, report)?;
        return Ok(AuditAnswer::refused(alloc, text));
    }
    let picture = draw_report(alloc, all, report, settings, options)?;
    written(alloc, options, all, report, picture)
}

/// The answer of a report as a list to plan.
fn answer_list(
    alloc: Global,
    all: &[[u8; 64]],
    report: &Report,
    options: AuditOptions<'_>,
) -> Result<AuditAnswer, AllocError>
    requires entries { AreEntries all.now report.now.submissions.items report.now.audits.items }
    requires few { length all.now ≤ 2 ^ 58 }
    requires sums { HasSums report.now }
    ensures { IfOk result (AnswersFormat Listed options.entry all.now (reported_by report.now)) }
{
    let text = listing_text(alloc, all, report)?;
    Ok(AuditAnswer {
        text,
        status: 0,
        used: Accepted::none(alloc),
    })
}

/// The answer of a report.
fn answer_report(
    alloc: Global,
    all: &[[u8; 64]],
    report: &Report,
    settings: &Settings,
    options: AuditOptions<'_>,
) -> Result<AuditAnswer, AllocError>
    requires sums { HasSums report.now }
    requires entries { AreEntries all.now report.now.submissions.items report.now.audits.items }
    requires few { length all.now ≤ 2 ^ 58 }
    requires within { All (IsWithin all.now) report.now.submissions.items }
    requires audited { HasAudits all.now report.now }
    requires placed { ArePlaced all.now (reported_by report.now) }
    ensures { IfOk result (AnswersReport options.entry all.now (reported_by report.now)) }
{
    match options.format {
        AuditFormat::Text | AuditFormat::Json => {
            let text = report_text(alloc, all, report, settings, options)?;
            written(alloc, options, all, report, text)
        }
        AuditFormat::Picture => answer_picture(alloc, all, report, settings, options),
        AuditFormat::List => answer_list(alloc, all, report, options),
        AuditFormat::Keys => {
            let text = report_text(alloc, all, report, settings, options)?;
            let used = used_in(alloc, options, all, report)?;
            Ok(AuditAnswer {
                text,
                status: 0,
                used,
            })
        }
    }
}

/// Why bytes are no recording, after so many entries of it.
pub(crate) fn fault_text(
    alloc: Global,
    before: usize,
    bytes: &[u8],
    fault: StreamFault,
) -> Result<String, AllocError>
    ensures { IfOk result (λ _. fault ≢ Memory) }
{
    match fault {
        StreamFault::Length => {
            let (entry, rest) = (before as u128 + bytes.len() as u128 / 64, bytes.len() % 64);
            format!(in alloc;
                "entry {entry}: error: the recording ends after {rest} of its 64 bytes\n"
            )
        }
        StreamFault::CutOff(at) => {
            let (all, _) = bytes.as_chunks::<64>();
            let size = match all.get(at) {
                Some(entry) => Header::of(entry).size,
                None => 0,
            };
            let there = all.len().saturating_sub(at).saturating_sub(1);
            let at = before as u128 + at as u128;
            format!(in alloc;
                "entry {at}: error: the recording ends after {there} of the {size} members of this batch: {STAGING_HINT}\n"
            )
        }
        StreamFault::Memory => Err(AllocError),
    }
}

/// The report on the entries of a recording.
pub(crate) fn audit_bytes(
    alloc: Global,
    bytes: &[u8],
    settings: &Settings,
    options: AuditOptions<'_>,
) -> Result<AuditAnswer, AllocError>
    ensures { IfOk result (AnswersRecording options.entry bytes.now) }
{
    match audit_recording(alloc, bytes, options.accepted, options.assumptions) {
        Ok(report) => {
            let (all, _) = bytes.as_chunks::<64>();
            answer_report(alloc, all, &report, settings, options)
        }
        Err(fault) => {
            let text = fault_text(alloc, 0, bytes, fault)?;
            Ok(AuditAnswer::refused(alloc, text))
        }
    }
}
