//! `audit` of several files: the report on each, and a summary.

ghost use Rattle.std.specs.Prelude.{◌≡◌, ◌≢◌, ◌↔◌, ◌==◌, [], IfOk, IsTrue, MatchOption, length, map, string_bytes};
ghost use Rattle.std.specs.List.{count_by};
ghost use Rattle.dsa_recording.specs.Inputs.{AnswersInput};
ghost use Rattle.dsa_text.specs.Audited.{AuditsInput};
ghost use Rattle.dsa_text.specs.Stale.{FindsStale};
ghost use Rattle.dsa_text.specs.Files.{AnswersFile, AreFileAnswers, AreRefusedTogether, AuditsFiles, IsFileAnswer, TakesOneFile, greatest, summary_words};

use crate::auditing::{Given, options_in, times_named};
use crate::ending::{UNWRITTEN, say};
use crate::options::is_either_given;
use crate::reading::{NoText, file_at, unanswered};
use crate::stale::{Stale, stale_in};
use clap::ArgMatches;
use dsa_advice::message_of;
use dsa_plan::Settings;
use dsa_recording::{Accepted, AuditAnswer, AuditFormat, AuditOptions, audit_read};
use dsa_report::write_line;
use serde_json::Value;
use std::alloc::{AllocError, Global};
use std::io;
use std::io::Read;

/// Whether an option is given that goes with a single file only.
fn takes_one_file(matches: &ArgMatches<'_>) -> bool
    ensures { IsTrue result ↔ TakesOneFile matches.now }
{
    if is_either_given(matches, "svg", "list") {
        return true;
    }
    is_either_given(matches, "staging", "events")
}

/// Why files of these names are refused together, or with the options, if they are.
pub(crate) fn refusal_together(matches: &ArgMatches<'_>, names: &[&str]) -> Option<&'static str>
    ensures { MatchOption result
        (¬ AreRefusedTogether matches.now (map (λ name. name.now) names.now))
        (λ _. AreRefusedTogether matches.now (map (λ name. name.now) names.now)) }
{
    if names.len() < 2 {
        return None;
    }
    if takes_one_file(matches) {
        return Some("error: --svg, --list, --staging and --events take one file\n");
    }
    if times_named("-", names) > 1 {
        return Some("error: standard input (-) can be named once\n");
    }
    None
}

/// The answer if a file can't be opened or read.
fn refused(alloc: Global, reason: NoText) -> Result<AuditAnswer, AllocError>
    ensures { IfOk result (λ a. a.status ≡ 2) }
{
    let text = match reason {
        NoText::Refused(fault) => message_of(alloc, fault)?,
        NoText::Failed(what) => format!(in alloc; "error: the file {what}\n")?,
    };
    Ok(AuditAnswer::refused(alloc, text))
}

/// The answer to all that the reader of a file gives.
fn answer_read<R: Read>(
    alloc: Global,
    reader: &mut R,
    settings: &Settings,
    options: AuditOptions<'_>,
) -> Result<AuditAnswer, AllocError>
    ensures { IfOk result
        (AnswersFile options.entry (R.remaining reader.old) (R.remaining reader.new)) }
{
    match audit_read(alloc, reader, settings, options) {
        Ok(answer) => Ok(answer),
        Err(fault) => refused(alloc, unanswered(fault)),
    }
}

/// The answer to the file of this name, or to standard input.
fn answer_of(
    rt: &HostRuntime,
    settings: &Settings,
    options: AuditOptions<'_>,
    name: &str,
) -> Result<AuditAnswer, AllocError>
    ensures { IfOk result (IsFileAnswer (AnswersInput options.entry)) }
{
    if name == "-" {
        return answer_read(rt.alloc(), &mut rt.reader(), settings, options);
    }
    match file_at(rt, name) {
        Ok(mut opened) => answer_read(rt.alloc(), &mut opened, settings, options),
        Err(reason) => refused(rt.alloc(), reason),
    }
}

/// Writes a text to standard output, and returns whether all of it was taken.
fn write_text(rt: &HostRuntime, text: &str) -> bool {
    write_line(&mut io::writer(rt), text.as_bytes())
}

/// Writes a report between two texts, and returns whether all was taken.
fn write_between(rt: &HostRuntime, before: &str, report: &str, after: &str) -> bool {
    if !write_text(rt, before) {
        return false;
    }
    if !write_text(rt, report) {
        return false;
    }
    write_text(rt, after)
}

/// A text as JSON has it.
fn quoted(alloc: Global, text: &str) -> Result<String, AllocError> {
    Value::String(String::from_str(alloc, text)?).to_string(alloc)
}

/// Writes the object of a file: its name, its status, and its report or why there is none.
fn write_object(
    rt: &HostRuntime,
    is_first: bool,
    name: &str,
    answer: &AuditAnswer,
) -> Result<bool, AllocError> {
    let alloc = rt.alloc();
    let front = if is_first { "{\"files\":[" } else { "," };
    let (file, status) = (quoted(alloc, name)?, answer.status);
    let text = answer.text.as_str();
    let line = text.strip_suffix('\n').unwrap_or(text);
    if status == 2 {
        let error = quoted(alloc, line)?;
        let object = format!(in alloc;
            "{front}{{\"error\":{error},\"file\":{file},\"status\":2}}"
        )?;
        return Ok(write_text(rt, &object));
    }
    let before = format!(in alloc; "{front}{{\"file\":{file},\"report\":")?;
    let after = format!(in alloc; ",\"status\":{status}}}")?;
    Ok(write_between(rt, &before, line, &after))
}

/// The lines of a text, each after the name of its file.
fn named_lines(alloc: Global, name: &str, text: &str) -> Result<String, AllocError> {
    let mut named = String::new(alloc);
    for line in text.lines() {
        named.push_str(&format!(in alloc; "{name}: {line}\n")?)?;
    }
    Ok(named)
}

/// Writes the report on a file; why there is none goes to standard error, and in JSON also into the object of the file.
/// Returns whether all was written to standard output.
fn write_answer(
    rt: &HostRuntime,
    format: AuditFormat,
    is_first: bool,
    name: &str,
    answer: &AuditAnswer,
) -> Result<bool, AllocError> {
    let text = answer.text.as_str();
    let is_refused = answer.status == 2;
    if is_refused {
        say(rt, &named_lines(rt.alloc(), name, text)?);
    }
    match format {
        AuditFormat::Json => write_object(rt, is_first, name, answer),
        AuditFormat::Keys => Ok(is_refused || write_text(rt, text)),
        AuditFormat::Text | AuditFormat::Picture | AuditFormat::List => {
            if is_refused {
                return Ok(true);
            }
            let before = format!(in rt.alloc(); "{name}:\n")?;
            Ok(write_between(rt, &before, text, "\n"))
        }
    }
}

/// Audits each file, in order, and writes its report: the status of each, and the accepted keys that are used, if all
/// could be written.
fn audit_each(
    rt: &HostRuntime,
    settings: &Settings,
    options: AuditOptions<'_>,
    names: &[&str],
) -> Result<Option<(Vec<u8>, Accepted)>, AllocError>
    ensures { IfOk result (λ all. MatchOption all Unit
        (λ of. AreFileAnswers (AnswersInput options.entry) (length names.now) of.0.items of.1)) }
{
    let mut used = Accepted::none(rt.alloc());
    let mut statuses = Vec::with_capacity(rt.alloc(), names.len())?;
    for name in names {
        let answer = answer_of(rt, settings, options, name)?;
        if !write_answer(rt, options.format, statuses.is_empty(), name, &answer)? {
            return Ok(None);
        }
        statuses.push(answer.status)?;
        used.add_all(answer.used)?;
    }
    Ok(Some((statuses, used)))
}

/// The greatest status.
fn greatest(statuses: &[u8]) -> u8
    ensures { result ≡ greatest statuses.now }
{
    let mut most = 0;
    let mut rest = statuses;
    while let [status, after @ ..] = rest {
        most = most.max(*status);
        rest = after;
    }
    most
}

/// How many files have this status.
fn times_of(status: u8, statuses: &[u8]) -> usize
    ensures { result ≡ count_by (λ s. s == status) statuses.now }
{
    statuses.iter().filter(|other| **other == status).count()
}

/// The last line of the reports, the summary of the files.
fn summary_text(alloc: Global, statuses: &[u8]) -> Result<String, AllocError>
    ensures { IfOk result (λ s. string_bytes s ≡ summary_words statuses.now) }
{
    let (files, faulty) = (statuses.len(), times_of(1, statuses));
    let refused = times_of(2, statuses);
    format!(in alloc; "{files} files: {faulty} with errors, {refused} refused\n")
}

/// What follows the reports: lines that are stale, and the summary.
fn end_text(
    alloc: Global,
    format: AuditFormat,
    accepted: &Accepted,
    stale: Option<&Stale<'_>>,
    statuses: &[u8],
) -> Result<String, AllocError> {
    match (format, stale) {
        (AuditFormat::Json, Some(stale)) => {
            let lines = stale.in_json(alloc, accepted)?;
            format!(in alloc; "],\"stale\":{lines}}}\n")
        }
        (AuditFormat::Json, None) => String::from_str(alloc, "]}\n"),
        (AuditFormat::Keys, Some(_) | None) => Ok(String::new(alloc)),
        (AuditFormat::Text | AuditFormat::Picture | AuditFormat::List, Some(stale)) => {
            let mut text = stale.in_words(alloc, accepted)?;
            text.push_str(&summary_text(alloc, statuses)?)?;
            Ok(text)
        }
        (AuditFormat::Text | AuditFormat::Picture | AuditFormat::List, None) => {
            summary_text(alloc, statuses)
        }
    }
}

/// The lines that are stale, unless a file has no report: they may fit that.
fn stale_of<'a>(
    alloc: Global,
    matches: &ArgMatches<'a>,
    accepted: &Accepted,
    used: &Accepted,
    statuses: &[u8],
) -> Result<Option<Stale<'a>>, AllocError>
    ensures { IfOk result (λ found. greatest statuses.now ≢ 2 →
        FindsStale matches.now accepted.now used.now found) }
{
    if greatest(statuses) == 2 {
        return Ok(None);
    }
    stale_in(alloc, matches, accepted, used)
}

/// Audits files with these options; the status is the greatest, or 2 if the reports can't be written.
fn audit_named(
    rt: &HostRuntime,
    matches: &ArgMatches<'_>,
    settings: &Settings,
    options: AuditOptions<'_>,
    names: &[&str],
) -> Result<u8, AllocError>
    ensures { IfOk result
        (AuditsFiles matches.now options.entry.accepted.now (AnswersInput options.entry)
        (length names.now)) }
{
    let Some((statuses, used)) = audit_each(rt, settings, options, names)? else {
        say(rt, UNWRITTEN);
        return Ok(2);
    };
    let accepted = options.accepted;
    let stale = stale_of(rt.alloc(), matches, accepted, &used, &statuses)?;
    let end = end_text(
        rt.alloc(),
        options.format,
        accepted,
        stale.as_ref(),
        &statuses,
    )?;
    if !write_text(rt, &end) {
        say(rt, UNWRITTEN);
        return Ok(2);
    }
    match stale {
        Some(stale) => Ok(stale.status(greatest(&statuses))),
        None => Ok(greatest(&statuses)),
    }
}

/// Runs `audit` of several files, in order: each is opened, read and reported by itself. The status is the greatest; it
/// is 2 if the options are refused or the reports can't be written.
pub(crate) fn audit_files(
    rt: &HostRuntime,
    matches: &ArgMatches<'_>,
    given: Given<'_>,
    names: &[&str],
) -> Result<u8, AllocError>
    ensures { given.entry.dumps.now ≡ [] → IfOk result
        (AuditsFiles matches.now given.entry.accepted.now (AuditsInput matches.now given.entry)
        (length names.now)) }
{
    match options_in(rt.alloc(), matches, given, &[])? {
        Ok((settings, options)) => audit_named(rt, matches, &settings, options, names),
        Err(refused) => {
            say(rt, &refused.text);
            Ok(2)
        }
    }
}
