//! Files and standard input.

use clap::ArgMatches;
use dsa_calls::PlanFault;
use dsa_recording::ReadFault;
use dsa_report::{Stop, read_text};
use std::fs::File;
use std::io;

/// Why there is no text.
pub(crate) enum NoText {
    /// It is too long, or memory ran out.
    Refused(PlanFault),
    /// This failed.
    Failed(&'static str),
}

/// A text that was read, or why it was not.
fn text_or_reason(read: Result<Vec<u8>, Stop>) -> Result<Vec<u8>, NoText> {
    match read {
        Ok(text) => Ok(text),
        Err(Stop::Refusal(fault)) => Err(NoText::Refused(fault)),
        Err(Stop::Fault) => Err(NoText::Failed("can't be read to its end")),
    }
}

/// Why what was read has no answer.
pub(crate) fn unanswered(fault: ReadFault) -> NoText {
    match fault {
        ReadFault::Failed => NoText::Failed("can't be read to its end"),
        ReadFault::TooLong => NoText::Refused(PlanFault::JobTooLong),
        ReadFault::Memory => NoText::Refused(PlanFault::Memory),
    }
}

/// Why a file can't be opened.
fn unopened(kind: io::ErrorKind) -> NoText {
    match kind {
        io::ErrorKind::OutOfMemory => NoText::Refused(PlanFault::Memory),
        io::ErrorKind::NotFound => NoText::Failed("can't be opened: there is no such file"),
        io::ErrorKind::PermissionDenied => NoText::Failed("can't be opened: permission denied"),
        _ => NoText::Failed("can't be opened"),
    }
}

/// The file that this argument names; none if that is standard input, which `-` stands for.
pub(crate) fn file_of<'a>(matches: &ArgMatches<'a>, name: &str) -> Option<&'a str> {
    match matches.get_str(name) {
        Some("-") | None => None,
        Some(path) => Some(path),
    }
}

/// The file that a command reads; none if that is standard input.
pub(crate) fn file_in<'a>(matches: &ArgMatches<'a>) -> Option<&'a str> {
    file_of(matches, "file")
}

/// An open file.
pub(crate) fn file_at(rt: &HostRuntime, path: &str) -> Result<File, NoText> {
    let opened = match File::open(rt, path) {
        Ok(opened) => opened,
        Err(error) => return Err(unopened(error.kind())),
    };
    if let Ok(metadata) = opened.metadata() {
        if metadata.is_dir() {
            return Err(NoText::Failed("is a directory"));
        }
    }
    Ok(opened)
}

/// The text of the file, or of standard input if none is named.
pub(crate) fn input(rt: &HostRuntime, file: Option<&str>) -> Result<Vec<u8>, NoText> {
    let Some(path) = file else {
        return text_or_reason(read_text(rt.alloc(), &mut rt.reader()));
    };
    let mut opened = file_at(rt, path)?;
    text_or_reason(read_text(rt.alloc(), &mut opened))
}
