//! `audit --accept`: the lines of the file that fit nothing.

ghost use Rattle.std.specs.Prelude.{◌≡◌, IfOk};
ghost use Rattle.dsa_text.specs.Audited.{denies_stale};
ghost use Rattle.dsa_text.specs.Stale.{FindsStale, WithStale, counts_stale, stale_status};

use crate::auditing::{format_in, times_named};
use crate::traced::with_member;
use clap::ArgMatches;
use dsa_advice::parts_of;
use dsa_recording::{Accepted, AuditAnswer, AuditFormat, stale_lines};
use serde_json::Value;
use std::alloc::{AllocError, Global};

/// The lines of a file of accepted keys that fit nothing.
#[derive(Drop)]
pub(crate) struct Stale<'a> {
    /// The name of the file.
    file: &'a str,
    /// The numbers of the lines, from 1.
    numbers: Vec<usize>,
    /// Whether they are errors.
    is_denied: bool,
}

/// Whether the option `deny` names stale lines.
fn denies_stale(alloc: Global, matches: &ArgMatches<'_>) -> Result<bool, AllocError>
    ensures { IfOk result (λ denied. denied ≡ denies_stale matches.now) }
{
    match matches.get_str("deny") {
        Some(names) => Ok(times_named("stale", &parts_of(alloc, names)?) > 0),
        None => Ok(false),
    }
}

/// Whether a report in this format names stale lines, or counts them.
fn counts_stale(format: AuditFormat) -> bool
    ensures { result ≡ counts_stale format }
{
    match format {
        AuditFormat::Text | AuditFormat::Json | AuditFormat::Picture => true,
        AuditFormat::List | AuditFormat::Keys => false,
    }
}

/// The lines of the file of accepted keys that fit nothing in a run that used these, if there is such a file and the
/// format has a place for them.
pub(crate) fn stale_in<'a>(
    alloc: Global,
    matches: &ArgMatches<'a>,
    accepted: &Accepted,
    used: &Accepted,
) -> Result<Option<Stale<'a>>, AllocError>
    ensures { IfOk result (FindsStale matches.now accepted.now used.now) }
{
    let format = format_in(matches);
    let Some(file) = matches.get_str("accept") else {
        return Ok(None);
    };
    if !counts_stale(format) {
        return Ok(None);
    }
    let with_events = matches.get_str("events").is_some();
    Ok(Some(Stale {
        file,
        numbers: stale_lines(alloc, accepted, with_events, used)?,
        is_denied: denies_stale(alloc, matches)?,
    }))
}

/// What a key of `dsa_trace --audit` has before the place of its error.
const PLACE: &str = " @ ";

/// What is said of a line that fits nothing.
fn stale_words(line: &str) -> &'static str {
    if line.contains(PLACE) {
        "a key with a place is for dsa_trace --audit, and this fits nothing here"
    } else {
        "this fits nothing"
    }
}

/// The line of this number, from 1.
fn line_at(accepted: &Accepted, number: usize) -> &str {
    match accepted.lines.get(number.saturating_sub(1)) {
        Some(line) => line.as_str(),
        None => "",
    }
}

impl<'a> Stale<'a> {
    /// The status with these lines: 1 in place of 0, if there are some and they are denied.
    pub(crate) fn status(&self, status: u8) -> u8
        ensures { result ≡
            stale_status self.entry.now.is_denied self.entry.now.numbers.items status }
    {
        if self.is_denied && !self.numbers.is_empty() {
            return status.max(1);
        }
        status
    }

    /// A line for each.
    pub(crate) fn in_words(
        &self,
        alloc: Global,
        accepted: &Accepted,
    ) -> Result<String, AllocError> {
        let (file, severity) = (self.file, if self.is_denied { "error" } else { "note" });
        let mut text = String::new(alloc);
        for number in &self.numbers {
            let line = line_at(accepted, *number);
            let words = stale_words(line);
            text.push_str(&format!(in alloc;
                "{file}: line {number}: {severity}: {words}: {line}\n"
            )?)?;
        }
        Ok(text)
    }

    /// An array of the lines.
    pub(crate) fn in_json(&self, alloc: Global, accepted: &Accepted) -> Result<String, AllocError> {
        let mut text = String::from_str(alloc, "[")?;
        for number in &self.numbers {
            if text.len() > 1 {
                text.push_str(",")?;
            }
            let line = String::from_str(alloc, line_at(accepted, *number))?;
            text.push_str(&Value::String(line).to_string(alloc)?)?;
        }
        text.push_str("]")?;
        Ok(text)
    }
}

/// The report on all that was audited, with the lines that fit nothing of it.
pub(crate) fn with_stale(
    alloc: Global,
    matches: &ArgMatches<'_>,
    accepted: &Accepted,
    answer: AuditAnswer,
) -> Result<AuditAnswer, AllocError>
    ensures { IfOk result (WithStale matches.now accepted.now answer) }
{
    if answer.status == 2 {
        return Ok(answer);
    }
    let Some(stale) = stale_in(alloc, matches, accepted, &answer.used)? else {
        return Ok(answer);
    };
    let mut answer = answer;
    answer.status = stale.status(answer.status);
    match format_in(matches) {
        AuditFormat::Json => {
            let lines = stale.in_json(alloc, accepted)?;
            answer.text = with_member(alloc, &answer.text, "stale", &lines)?;
        }
        AuditFormat::Text => answer.text.push_str(&stale.in_words(alloc, accepted)?)?,
        AuditFormat::Picture | AuditFormat::List | AuditFormat::Keys => {}
    }
    Ok(answer)
}
