//! How a command ends: what it writes, and its status.

use crate::reading::NoText;
use clap::error::ErrorKind;
use dsa_advice::{Answer, message_of};
use dsa_report::write_line;
use std::alloc::AllocError;
use std::io;
use std::process::ExitCode;

/// The message if an allocation failed; printing it allocates nothing.
pub(crate) const NO_MEMORY: &str = "error: there was not enough memory [73 Memory]\n";

/// The message if standard output can't be written.
pub(crate) const UNWRITTEN: &str = "error: the answer can't be written\n";

/// Writes the message of a refusal to standard error, and ends with a status, or with 2 if writing fails.
pub(crate) fn refuse(rt: &HostRuntime, message: &str) -> ExitCode {
    match eprint!(rt; "{message}") {
        Ok(()) => ExitCode::from(1),
        Err(_) => ExitCode::from(2),
    }
}

/// Writes a message to standard error, if that is there.
pub(crate) fn say(rt: &HostRuntime, message: &str) {
    match eprint!(rt; "{message}") {
        Ok(()) | Err(_) => {}
    }
}

/// Says what failed, and ends. Without standard error the status says enough.
pub(crate) fn failed(rt: &HostRuntime, message: &str) -> ExitCode {
    say(rt, message);
    ExitCode::from(2)
}

/// Writes a text to standard output, and ends with a status.
pub(crate) fn written(rt: &HostRuntime, text: &str, status: u8) -> ExitCode {
    if write_line(&mut io::writer(rt), text.as_bytes()) {
        ExitCode::from(status)
    } else {
        failed(rt, UNWRITTEN)
    }
}

/// Writes notes and warnings to standard error, if that is there.
fn say_warnings(rt: &HostRuntime, answer: &Answer) {
    if let Some(warnings) = &answer.warnings {
        say(rt, warnings);
    }
}

/// Writes an answer to standard output and then its warnings to standard error, or these and why there is no answer,
/// and ends. The status is the same if the warnings can't be written.
pub(crate) fn ended(rt: &HostRuntime, answer: &Answer) -> ExitCode {
    if answer.status == 0 {
        let code = written(rt, &answer.text, 0);
        say_warnings(rt, answer);
        return code;
    }
    say_warnings(rt, answer);
    refuse(rt, &answer.text)
}

/// Writes what the parser of the arguments says: its help, or why the arguments are refused.
pub(crate) fn show(rt: &HostRuntime, error: &clap::Error) -> Result<ExitCode, AllocError> {
    if error.kind() == ErrorKind::OutOfMemory {
        return Err(AllocError);
    }
    match error.print(rt) {
        Ok(()) => Ok(ExitCode::from(error.exit_code() as u8)),
        Err(_) => Ok(failed(rt, UNWRITTEN)),
    }
}

/// Says why there is no text, and ends.
fn unread(rt: &HostRuntime, file: Option<&str>, what: &str) -> Result<ExitCode, AllocError> {
    let name = file.unwrap_or("the input");
    let message = format!(in rt.alloc(); "error: {name} {what}\n")?;
    Ok(failed(rt, &message))
}

/// Says why there is no text to answer, and ends: with status 1 if it is refused.
pub(crate) fn without_text(
    rt: &HostRuntime,
    file: Option<&str>,
    reason: NoText,
) -> Result<ExitCode, AllocError> {
    match reason {
        NoText::Refused(fault) => Ok(ended(rt, &Answer::fault(rt.alloc(), fault)?)),
        NoText::Failed(what) => unread(rt, file, what),
    }
}

/// Says why there is no text of an audit, and ends: with status 2 in any case.
pub(crate) fn without_audit(
    rt: &HostRuntime,
    file: Option<&str>,
    reason: NoText,
) -> Result<ExitCode, AllocError> {
    match reason {
        NoText::Refused(fault) => Ok(failed(rt, &message_of(rt.alloc(), fault)?)),
        NoText::Failed(what) => unread(rt, file, what),
    }
}
