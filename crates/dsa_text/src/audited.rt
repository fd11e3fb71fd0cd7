//! The run of `audit`: the files that the options name, and the answer.

use crate::auditing::{Given, audit_input, audit_reader};
use crate::dumps::dumps_in;
use crate::ending::{NO_MEMORY, failed, without_audit, written};
use crate::files::{audit_files, refusal_together};
use crate::reading::{NoText, file_at, file_in, input, unanswered};
use crate::stale::with_stale;
use crate::traced::audit_traced;
use clap::ArgMatches;
use dsa_recording::{Accepted, AuditAnswer};
use std::alloc::{AllocError, Global};
use std::process::ExitCode;

/// The file of events that the options name, and its text, or the status if it has none.
fn events_in<'a>(
    rt: &HostRuntime,
    matches: &ArgMatches<'a>,
) -> Result<Result<Option<(&'a str, Vec<u8>)>, ExitCode>, AllocError> {
    let Some(file) = matches.get_str("events") else {
        return Ok(Ok(None));
    };
    match input(rt, Some(file)) {
        Ok(text) => Ok(Ok(Some((file, text)))),
        Err(reason) => Ok(Err(without_audit(rt, Some(file), reason)?)),
    }
}

/// The lines of a text without a byte order mark, and without blanks and carriage returns at their ends.
fn tidied(alloc: Global, text: &str) -> Result<String, AllocError> {
    let mut tidied = String::new(alloc);
    for line in text.strip_prefix('\u{feff}').unwrap_or(text).lines() {
        tidied.push_str(line.trim_end())?;
        tidied.push_str("\n")?;
    }
    Ok(tidied)
}

/// The errors that the options name as known, or the status if their file has none.
fn accepted_in(
    rt: &HostRuntime,
    matches: &ArgMatches<'_>,
) -> Result<Result<Accepted, ExitCode>, AllocError> {
    let Some(file) = matches.get_str("accept") else {
        return Ok(Ok(Accepted::none(rt.alloc())));
    };
    match input(rt, Some(file)) {
        Ok(text) => match str::from_utf8(&text) {
            Ok(lines) => {
                let lines = tidied(rt.alloc(), lines)?;
                Ok(Ok(Accepted::read(rt.alloc(), &lines)?))
            }
            Err(_) => {
                let reason = NoText::Failed("is no text in UTF-8");
                Ok(Err(without_audit(rt, Some(file), reason)?))
            }
        },
        Err(reason) => Ok(Err(without_audit(rt, Some(file), reason)?)),
    }
}

/// The answer of `audit` to the text of the file, with the files that the options name.
fn audit_whole(
    rt: &HostRuntime,
    matches: &ArgMatches<'_>,
    given: Given<'_>,
    events: Option<(&str, Vec<u8>)>,
) -> Result<Result<AuditAnswer, NoText>, AllocError> {
    let text = match input(rt, file_in(matches)) {
        Ok(text) => text,
        Err(reason) => return Ok(Err(reason)),
    };
    let answer = match events {
        Some((name, events)) => audit_traced(rt.alloc(), matches, given, &text, name, &events)?,
        None => audit_input(rt.alloc(), matches, given, &[], &text)?,
    };
    Ok(Ok(answer))
}

/// The answer of `audit` to the file, which is read in parts.
fn audit_file(
    rt: &HostRuntime,
    matches: &ArgMatches<'_>,
    given: Given<'_>,
) -> Result<AuditAnswer, NoText> {
    let alloc = rt.alloc();
    let read = match file_in(matches) {
        Some(path) => {
            let mut opened = file_at(rt, path)?;
            audit_reader(alloc, matches, given, &mut opened)
        }
        None => audit_reader(alloc, matches, given, &mut rt.reader()),
    };
    match read {
        Ok(answer) => Ok(answer),
        Err(fault) => Err(unanswered(fault)),
    }
}

/// Writes the answer of `audit`. Status 1 is that a fence is missing: the report goes to standard output. A refusal has
/// status 2.
fn written_audit(
    rt: &HostRuntime,
    matches: &ArgMatches<'_>,
    answered: Result<AuditAnswer, NoText>,
) -> Result<ExitCode, AllocError> {
    match answered {
        Ok(answer) => {
            if answer.status == 2 {
                Ok(failed(rt, &answer.text))
            } else {
                Ok(written(rt, &answer.text, answer.status))
            }
        }
        Err(reason) => without_audit(rt, file_in(matches), reason),
    }
}

/// Answers `audit` of one file, or of standard input.
fn audited(
    rt: &HostRuntime,
    matches: &ArgMatches<'_>,
    accepted: &Accepted,
) -> Result<ExitCode, AllocError> {
    let dumps = match dumps_in(rt, matches)? {
        Ok(dumps) => dumps,
        Err(code) => return Ok(code),
    };
    let events = match events_in(rt, matches)? {
        Ok(events) => events,
        Err(code) => return Ok(code),
    };
    let given = Given {
        accepted,
        dumps: &dumps,
    };
    let answered = if dumps.is_empty() && events.is_none() {
        audit_file(rt, matches, given)
    } else {
        audit_whole(rt, matches, given, events)?
    };
    let answered = match answered {
        Ok(answer) => Ok(with_stale(rt.alloc(), matches, accepted, answer)?),
        Err(reason) => Err(reason),
    };
    written_audit(rt, matches, answered)
}

/// Answers `audit` of what the arguments name.
fn audited_all(rt: &HostRuntime, matches: &ArgMatches<'_>) -> Result<ExitCode, AllocError> {
    let names = matches.get_strs("file").unwrap_or(&[]);
    if let Some(reason) = refusal_together(matches, names) {
        return Ok(failed(rt, reason));
    }
    let accepted = match accepted_in(rt, matches)? {
        Ok(accepted) => accepted,
        Err(code) => return Ok(code),
    };
    if names.len() < 2 {
        return audited(rt, matches, &accepted);
    }
    let given = Given {
        accepted: &accepted,
        dumps: &[],
    };
    Ok(ExitCode::from(audit_files(rt, matches, given, names)?))
}

/// Runs `audit`.
pub(crate) fn run_audit(rt: &HostRuntime, matches: &ArgMatches<'_>) -> ExitCode {
    match audited_all(rt, matches) {
        Ok(code) => code,
        Err(AllocError) => failed(rt, NO_MEMORY),
    }
}
