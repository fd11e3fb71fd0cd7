//! Descriptors as text: `assemble`, `disassemble`, `explain`, `resume` and `audit`, from a file or standard input to
//! standard output.
#![tactic(auto)]

mod assembling;
mod audited;
mod auditing;
mod commands;
mod disassembling;
mod dumps;
mod ending;
mod files;
mod inputs;
mod options;
mod reading;
mod recorded;
mod resuming;
mod stale;
mod taken;
mod traced;

use crate::assembling::assemble_text;
use crate::audited::run_audit;
use crate::commands::commands;
use crate::disassembling::disassemble;
use crate::ending::{NO_MEMORY, ended, failed, refuse, show, without_text};
use crate::inputs::explain;
use crate::reading::{file_in, input};
use crate::resuming::run_resume;
use clap::ArgMatches;
use dsa_advice::Answer;
use dsa_calls::PlanFault;
use std::alloc::{AllocError, Global};
use std::io;
use std::process::ExitCode;

/// A command that answers one text.
#[derive(Clone, Copy)]
enum OnText {
    Assemble,
    Disassemble,
    Explain,
}

/// What a command answers to a text.
fn answer_to(
    alloc: Global,
    command: OnText,
    options: &ArgMatches<'_>,
    text: &[u8],
) -> Result<Answer, AllocError> {
    match command {
        OnText::Assemble => assemble_text(alloc, options, text),
        OnText::Disassemble => disassemble(alloc, options, text),
        OnText::Explain => explain(alloc, options, text),
    }
}

/// Runs a command on the text of its file.
fn run_on_text(
    rt: &HostRuntime,
    command: OnText,
    options: &ArgMatches<'_>,
) -> Result<ExitCode, AllocError> {
    let file = file_in(options);
    match input(rt, file) {
        Ok(text) => Ok(ended(rt, &answer_to(rt.alloc(), command, options, &text)?)),
        Err(reason) => without_text(rt, file, reason),
    }
}

/// The arguments; none if they are no text.
fn arguments(rt: &HostRuntime) -> Result<Option<Vec<String>>, AllocError> {
    match std::env::args(rt) {
        Ok(words) => Ok(Some(words.collect(rt.alloc())?)),
        Err(error) if error.kind() == io::ErrorKind::OutOfMemory => Err(AllocError),
        Err(_) => Ok(None),
    }
}

/// Runs one command.
fn run(rt: &HostRuntime) -> Result<ExitCode, AllocError> {
    let alloc = rt.alloc();
    let Some(words) = arguments(rt)? else {
        return Ok(failed(rt, "error: the arguments are no text\n"));
    };
    let matches = match commands(alloc)?.try_get_matches_from(words.as_slice()) {
        Ok(matches) => matches,
        Err(error) => return show(rt, &error),
    };
    match matches.subcommand() {
        Some(("assemble", options)) => run_on_text(rt, OnText::Assemble, options),
        Some(("disassemble", options)) => run_on_text(rt, OnText::Disassemble, options),
        Some(("explain", options)) => run_on_text(rt, OnText::Explain, options),
        Some(("resume", options)) => run_resume(rt, options),
        Some(("audit", options)) => Ok(run_audit(rt, options)),
        Some(_) | None => Ok(ended(rt, &Answer::fault(alloc, PlanFault::Do)?)),
    }
}

/// Runs one command. The status is 0 for an answer; 1 for a refusal, which is on standard error; 2 if reading
/// or writing failed, and for invalid arguments, with a message on standard error if they are text.
fn main(rt: HostRuntime) -> ExitCode {
    match run(&rt) {
        Ok(code) => code,
        Err(AllocError) => refuse(&rt, NO_MEMORY),
    }
}
