//! `resume`: the lines of what is left of a list whose submission stopped.

ghost use Rattle.std.specs.Prelude.{IfOk, ◌≡◌, ◌≢◌, ◌++◌, OnOk, codes, string_bytes};
ghost use Rattle.dsa_calls.specs.declared.fault.PlanFault.{PlanFault};
ghost use Rattle.dsa_resume.specs.Rest.{remainder_of};
ghost use Rattle.dsa_text.specs.Resumed.{IsRestText, IsResumeRefusal, NamesResume, ResumesText, resume_words};

use crate::assembling::passed_over;
use crate::commands::{file, flag, keep_fences, settings_options};
use crate::ending::{ended, failed, without_text};
use crate::inputs::refused_settings;
use crate::options::settings_words;
use crate::reading::{file_in, file_of, input};
use clap::{Arg, ArgAction, ArgMatches, Command};
use dsa_advice::{
    Answer, Source, bytes_or_refusal, joined, numbers_of, push_indices, push_sentence,
    refuse_unplanned, resume_notes, settings_of,
};
use dsa_descriptor::MOST_PIECES;
use dsa_forms::is_text;
use dsa_lines::{TextList, parse_text, text_with_barriers};
use dsa_lists::{AnyPlanned, plan_read_list};
use dsa_operations::Operation;
use dsa_plan::Settings;
use dsa_resume::{LeftOrder, Rest, ResumeFault, resume_pieces};
use std::alloc::{AllocError, Global};
use std::process::ExitCode;

/// What the help of `resume` says of its input.
const STOPPED: &str =
    "FILE has the lines of the operations, as they were planned with these options. The records have 32 bytes for
each of their pieces in the order of the plan, as the device has left them: an operation of n pieces has n records,
from its record address on. The pieces of a move to a higher address within its own range run from the end: its last
record comes first, as explain shows. They are read as disassemble reads bytes.

What is written are the lines of the pieces that have not finished (status other than 1 and 2), with their barriers:
plan these, with their records set to zero. If a piece before a barrier has status 2, or --give-up names one, what is
after the barrier is left out, and a note says so. If fences of lines were planned as barriers (--keep-fences of
explain and assemble), give that option here too.

A list in which an operation writes into the completion record of another is refused, since such a record does not
say how its own operation has ended. So are records by which a piece has begun although another has not succeeded and
a barrier is between them.
Examples:
  dsa_text resume --records records.hex store.txt
  dsa_text resume --records - store.txt < records.bin";

/// What is said of other words after the option.
const NO_PIECES: &str =
    "error: --give-up takes the numbers of pieces below 65536, with commas between\n";

/// What is said if the list and the records are both to come from standard input.
const ONE_INPUT: &str =
    "error: the list and the records can't both come from standard input: name a file for one\n";

/// The command `resume`.
pub(crate) fn resume_command<'a>(alloc: Global) -> Result<Command<'a>, AllocError> {
    let options = settings_options(alloc)?;
    let records = Arg::new(alloc, "records")
        .long("records")
        .value_name("FILE")
        .action(ArgAction::Set)
        .required(true)
        .help("the completion records of the pieces; standard input where it is -");
    let given_up = Arg::new(alloc, "give-up")
        .long("give-up")
        .value_name("PIECES")
        .action(ArgAction::Set)
        .help("the pieces that failed and are not done again, by their numbers in explain, as 2,5");
    Command::new(alloc, "resume")
        .about("Reads lines and completion records, and writes the lines of what is left to submit")
        .after_help(STOPPED)
        .arg(file(alloc))?
        .arg(records)?
        .arg(flag(alloc, "failed-first", "write the pieces that failed first"))?
        .arg(given_up)?
        .arg(keep_fences(alloc))?
        .args(options)
}

/// The order that the flag asks for.
fn order_of(failed_first: bool) -> LeftOrder {
    if failed_first {
        LeftOrder::FailedFirst
    } else {
        LeftOrder::AsListed
    }
}

/// A byte for each piece up to the last of these, 1 for each of these; none if one is not below the most pieces.
fn marked(alloc: Global, pieces: &[u64]) -> Result<Option<Vec<u8>>, AllocError> {
    let mut marks = Vec::new(alloc);
    for piece in pieces {
        let place = usize::try_from(*piece).unwrap_or(MOST_PIECES);
        if place >= MOST_PIECES {
            return Ok(None);
        }
        if marks.len() <= place {
            marks.resize(place + 1, 0)?;
        }
        if let Some(mark) = marks.get_mut(place) {
            *mark = 1;
        }
    }
    Ok(Some(marks))
}

/// The marks of the pieces that the option gives up, if it names pieces.
fn given_up_of(alloc: Global, word: Option<&str>) -> Result<Option<Vec<u8>>, AllocError> {
    let Some(word) = word else {
        return Ok(Some(Vec::new(alloc)));
    };
    match numbers_of(alloc, word)? {
        Some(pieces) => marked(alloc, &pieces),
        None => Ok(None),
    }
}

/// The lines of what is left of the list that a text spells; and what the text lists and its plan, if it can be
/// planned.
fn resume_text<'a>(
    alloc: Global,
    text: &'a [u8],
    keep_fences: bool,
    settings: &Settings,
    records: &[u8],
    given_up: &[u8],
    order: LeftOrder,
) -> Result<(Answer, Option<(TextList<'a>, AnyPlanned)>), AllocError>
    ensures { IfOk result (λ found. ResumesText text.now keep_fences settings.now records.now
        given_up.now order found.0) }
{
    let read = match parse_text(alloc, text, keep_fences) {
        Ok(read) => read,
        Err(fault) => return Ok((Answer::text_fault(alloc, text, fault)?, None)),
    };
    let planned = match plan_read_list(alloc, &read.list, settings) {
        Ok(planned) => planned,
        Err(fault) => {
            let source = Source::Text(text, &read.lines);
            let refusal = refuse_unplanned(alloc, &read.list.entries, settings, source, fault)?;
            return Ok((refusal, None));
        }
    };
    let (pieces, barriers) = (&planned.operations, &planned.barriers);
    match resume_pieces(alloc, pieces, barriers, records, given_up, order) {
        Ok(rest) => Ok((rest_answer(alloc, &rest, records)?, Some((read, planned)))),
        Err(fault) => Ok((fault_answer(alloc, fault)?, Some((read, planned)))),
    }
}

/// The lines of what is left, with a note on what is left out.
fn rest_answer(alloc: Global, rest: &Rest<Operation>, records: &[u8]) -> Result<Answer, AllocError>
    ensures { IfOk result (IsRestText (remainder_of rest.now)) }
{
    let lines = text_with_barriers(alloc, &rest.pieces, &rest.barriers)?;
    let note = left_out_note(alloc, rest, records)?;
    Ok(Answer::done(lines).with_warnings(note))
}

/// What is said of the pieces that are left out.
fn left_out_note(
    alloc: Global,
    rest: &Rest<Operation>,
    records: &[u8],
) -> Result<Option<String>, AllocError> {
    let Some(out) = rest.left_out else {
        return Ok(None);
    };
    let (piece, count) = (out.stopped_by, out.pieces);
    let (completions, _) = records.as_chunks::<32>();
    let is_check = completions.get(piece).is_some_and(|record| record[0] == 2);
    let why = if is_check {
        "has status 2, another result than expected"
    } else {
        "is given up"
    };
    let noun = if count == 1 { "piece" } else { "pieces" };
    Ok(Some(format!(in alloc;
        "note: {count} {noun} after a barrier left out: piece {piece} {why}\n"
    )?))
}

/// The refusal for this cause.
fn fault_answer(alloc: Global, fault: ResumeFault) -> Result<Answer, AllocError>
    ensures { IfOk result (IsResumeRefusal fault) }
{
    match fault {
        ResumeFault::Plan(cause) => Answer::fault(alloc, cause),
        ResumeFault::Records
        | ResumeFault::SharedRecord(_, _)
        | ResumeFault::NotFailed(_)
        | ResumeFault::PassedBarrier(_, _) => Ok(Answer::refused(message_of(alloc, fault)?)),
    }
}

/// What a refusal means, and its number, name and places in brackets.
fn message_of(alloc: Global, fault: ResumeFault) -> Result<String, AllocError>
    ensures { IfOk result (λ text. NamesResume fault (string_bytes text)) }
{
    let mut text = String::from_str(alloc, "error: ")?;
    push_sentence(&mut text, fault.number(), fault.indices())?;
    push_name(alloc, &mut text, fault)?;
    Ok(text)
}

/// Writes the number, the name and the places, as the program `dsa` does.
fn push_name(alloc: Global, text: &mut String, fault: ResumeFault) -> Result<(), AllocError>
    ensures { OnOk result (string_bytes text.new ≡ string_bytes text.old ++
        (codes " [" ++ (resume_words fault ++ codes "]\n"))) }
{
    let (number, name) = (fault.number(), fault.name());
    text.push_str(&format!(in alloc; " [{number} {name}")?)?;
    push_indices(alloc, text, fault.indices())?;
    text.push_str("]\n")
}

/// The answer with notes after its own.
fn with_notes(answer: Answer, notes: Option<String>) -> Result<Answer, AllocError> {
    let Answer {
        text,
        status: _,
        warnings,
    } = answer;
    let all = joined(warnings, notes)?;
    Ok(Answer::done(text).with_warnings(all))
}

/// What `resume` answers to a text and the bytes of records, with the notes and warnings about them.
fn resume_records(
    alloc: Global,
    matches: &ArgMatches<'_>,
    settings: &Settings,
    records: &[u8],
    text: &[u8],
) -> Result<Answer, AllocError> {
    let order = order_of(matches.get_flag("failed-first"));
    let Some(given_up) = given_up_of(alloc, matches.get_str("give-up"))? else {
        return Ok(Answer::refused(String::from_str(alloc, NO_PIECES)?));
    };
    let keep = matches.get_flag("keep-fences");
    let (answer, found) = resume_text(alloc, text, keep, settings, records, &given_up, order)?;
    let Some((read, planned)) = found else {
        return Ok(answer);
    };
    let notes = resume_notes(alloc, &read, &planned, settings, records, &given_up)?;
    if answer.status == 0 {
        return with_notes(answer, joined(passed_over(alloc, &read)?, notes)?);
    }
    let mut reason = answer.text;
    if let Some(notes) = notes {
        reason.push_str(&notes)?;
    }
    Ok(Answer::refused(reason))
}

/// What `resume` answers to this input of records and this text, as `disassemble` reads bytes.
fn resume(
    alloc: Global,
    matches: &ArgMatches<'_>,
    input: &[u8],
    text: &[u8],
) -> Result<Answer, AllocError> {
    let words = settings_words(matches);
    let Some(settings) = settings_of(alloc, &words)? else {
        return refused_settings(alloc, &words);
    };
    if !is_text(input) {
        return resume_records(alloc, matches, &settings, input, text);
    }
    match bytes_or_refusal(alloc, input, "the records, ")? {
        Ok(records) => resume_records(alloc, matches, &settings, &records, text),
        Err(refusal) => Ok(refusal),
    }
}

/// Answers `resume` of these records.
fn resumed(
    rt: &HostRuntime,
    matches: &ArgMatches<'_>,
    records: &[u8],
) -> Result<ExitCode, AllocError> {
    let file = file_in(matches);
    match input(rt, file) {
        Ok(text) => Ok(ended(rt, &resume(rt.alloc(), matches, records, &text)?)),
        Err(reason) => without_text(rt, file, reason),
    }
}

/// Runs `resume`.
pub(crate) fn run_resume(
    rt: &HostRuntime,
    matches: &ArgMatches<'_>,
) -> Result<ExitCode, AllocError> {
    let file = file_of(matches, "records");
    if file.is_none() && file_in(matches).is_none() {
        return Ok(failed(rt, ONE_INPUT));
    }
    match input(rt, file) {
        Ok(records) => resumed(rt, matches, &records),
        Err(reason) => without_text(rt, file, reason),
    }
}
