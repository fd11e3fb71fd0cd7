//! `audit --events`: the missing waits of a recording, after the report on its fences.

ghost use Rattle.std.specs.Prelude.{◌≡◌, IfOk};
ghost use Rattle.dsa_text.specs.Traced.{AnswersEvents, AuditsEvents, IsJoined};

use crate::auditing::{Given, audit_input, format_in};
use clap::ArgMatches;
use dsa_forms::{bytes_of_input, is_text};
use dsa_recording::{Accepted, AuditAnswer, AuditFormat};
use dsa_waits::{WaitsAnswer, answer_waits};
use std::alloc::{AllocError, Global};

/// The missing waits of a recording, as bytes or as a text of digits.
fn waits_of(
    alloc: Global,
    input: &[u8],
    events: &[u8],
    format: AuditFormat,
    accepted: &Accepted,
) -> Result<WaitsAnswer, AllocError>
    ensures { IfOk result
        (λ a. AnswersEvents format accepted.now input.now events.now a.report) }
{
    if !is_text(input) {
        return answer_waits(alloc, input, events, format, accepted);
    }
    match bytes_of_input(alloc, input)? {
        Ok(bytes) => answer_waits(alloc, &bytes, events, format, accepted),
        Err(_) => {
            let reason = "error: with these the recording has to be bytes, or a text of digits\n";
            let text = String::from_str(alloc, reason)?;
            Ok(WaitsAnswer {
                report: AuditAnswer::refused(alloc, text),
                drawn: Vec::new(alloc),
            })
        }
    }
}

/// A report in JSON, one line with an object, with one more member at its end.
pub(crate) fn with_member(
    alloc: Global,
    report: &str,
    name: &str,
    value: &str,
) -> Result<String, AllocError> {
    let object = report.strip_suffix("}\n").unwrap_or("{");
    format!(in alloc; "{object},\"{name}\":{value}}}\n")
}

/// A report with its missing waits: in JSON as a last member of its object, else after it. A picture shows them.
fn with_waits(
    alloc: Global,
    format: AuditFormat,
    report: String,
    waits: &str,
) -> Result<String, AllocError> {
    let mut text = report;
    match format {
        AuditFormat::Json => with_member(alloc, &text, "waits", waits),
        AuditFormat::Text | AuditFormat::Picture | AuditFormat::List | AuditFormat::Keys => {
            text.push_str(waits)?;
            Ok(text)
        }
    }
}

/// A report, and its missing waits; or why the file has no events of the recording.
fn joined(
    alloc: Global,
    format: AuditFormat,
    report: AuditAnswer,
    waits: AuditAnswer,
    file: &str,
) -> Result<AuditAnswer, AllocError>
    ensures { IfOk result (IsJoined report waits) }
{
    if waits.status == 2 {
        let reason = waits.text;
        let text = format!(in alloc; "{file}: {reason}")?;
        return Ok(AuditAnswer::refused(alloc, text));
    }
    let status = report.status.max(waits.status);
    let mut used = report.used;
    used.add_all(waits.used)?;
    let text = with_waits(alloc, format, report.text, &waits.text)?;
    Ok(AuditAnswer { text, status, used })
}

/// What `audit` answers to an input, options, and the events of a file.
pub(crate) fn audit_traced(
    alloc: Global,
    matches: &ArgMatches<'_>,
    given: Given<'_>,
    input: &[u8],
    file: &str,
    events: &[u8],
) -> Result<AuditAnswer, AllocError>
    ensures { IfOk result (AuditsEvents matches.now given.entry input.now events.now) }
{
    let format = format_in(matches);
    let waits = waits_of(alloc, input, events, format, given.accepted)?;
    let report = audit_input(alloc, matches, given, &waits.drawn, input)?;
    if report.status == 2 {
        return Ok(report);
    }
    joined(alloc, format, report, waits.report, file)
}
