//! `explain` of an input: of a job, or of operations in lines, a list or a recording, with settings from the options.

ghost use Rattle.std.specs.Prelude.{◌≡◌, IfOk, string_bytes};
ghost use Rattle.dsa_calls.specs.declared.fault.PlanFault.TheVariants.{Settings as Outside};
ghost use Rattle.dsa_forms.specs.Kinds.{kind_of};
ghost use Rattle.dsa_text.specs.Inputs.{ExplainsAs, ExplainsBytes, ExplainsContent, ExplainsInput, ExplainsOperations, ExplainsSaid, ExplainsSeen, ExplainsWithOptions, options_message};
ghost use Rattle.dsa_advice.specs.Refusals.{IsRefusal};
ghost use Rattle.dsa_text.specs.Taken.{content_in, said_in};

use crate::options::{are_settings_given, range_of, settings_words};
use crate::recorded::explain_recording;
use crate::taken::{Content, Spelling, content_in, noted, said_in, taken_note, taken_text};
use clap::ArgMatches;
use dsa_advice::{
    Answer, Form, SettingsWords, bytes_or_refusal, explain_fenced, explain_job_text, explain_text,
    form_of, settings_fault, settings_of,
};
use dsa_calls::PlanFault;
use dsa_forms::{InputKind, is_binary, kind_of};
use dsa_plan::Settings;
use dsa_sentences::TextCause;
use std::alloc::{AllocError, Global};

/// The refusal of settings that the words spell.
pub(crate) fn refused_settings(
    alloc: Global,
    words: &SettingsWords<'_>,
) -> Result<Answer, AllocError>
    ensures { IfOk result (IsRefusal Outside) }
{
    let message = settings_fault(alloc, words)?;
    Answer::fault_with(alloc, PlanFault::Settings, &message)
}

/// The refusal of options of settings beside a job.
fn refused_options(alloc: Global) -> Result<Answer, AllocError>
    ensures { IfOk result (λ a. (a.status ≡ 1) × (string_bytes a.text ≡ options_message)) }
{
    let line = "error: a job has settings of its own, so no option gives any";
    let mut text = String::from_str(alloc, line)?;
    text.push_str(TextCause::Options.ending())?;
    Ok(Answer::refused(text))
}

/// The refusal of options that name no pieces.
fn refused_range(alloc: Global) -> Result<Answer, AllocError>
    ensures { IfOk result (IsRefusal Outside) }
{
    let message = "--from and --to take the numbers of two pieces, the second not below the first";
    Answer::fault_with(alloc, PlanFault::Settings, message)
}

/// What `explain` answers to a job, which has settings of its own.
fn explain_with_options(
    alloc: Global,
    matches: &ArgMatches<'_>,
    text: &[u8],
    form: Form,
) -> Result<Answer, AllocError>
    ensures { IfOk result (ExplainsWithOptions matches.now text.now form) }
{
    if are_settings_given(matches) {
        return refused_options(alloc);
    }
    explain_job_text(alloc, text, form)
}

/// What `explain` answers to operations, by what they are in.
fn explain_content(
    alloc: Global,
    content: Content,
    input: &[u8],
    keep_fences: bool,
    settings: &Settings,
    form: Form,
) -> Result<Answer, AllocError>
    ensures { IfOk result (ExplainsContent content input.now keep_fences settings.now form) }
{
    match content {
        Content::Text => explain_text(alloc, input, keep_fences, settings, form),
        Content::List => explain_fenced(alloc, input, settings, form),
        Content::Recording => explain_recording(alloc, input, settings, form),
    }
}

/// What `explain` answers to operations, with the settings that the options spell.
fn explain_operations(
    alloc: Global,
    matches: &ArgMatches<'_>,
    content: Content,
    input: &[u8],
    form: Form,
) -> Result<Answer, AllocError>
    ensures { IfOk result (ExplainsOperations content matches.now input.now form) }
{
    let words = settings_words(matches);
    let keep_fences = matches.get_flag("keep-fences");
    match settings_of(alloc, &words)? {
        Some(settings) => explain_content(alloc, content, input, keep_fences, &settings, form),
        None => refused_settings(alloc, &words),
    }
}

/// What `explain` answers to bytes, with a note that says what they are taken as.
fn explain_taken(
    alloc: Global,
    matches: &ArgMatches<'_>,
    said: Option<Content>,
    bytes: &[u8],
    spelling: Spelling,
    form: Form,
) -> Result<Answer, AllocError>
    ensures { IfOk result (ExplainsOperations
        (content_in said bytes.now) matches.now bytes.now form) }
{
    let content = content_in(said, bytes);
    let note = taken_note(alloc, said, taken_text(content, spelling))?;
    let answer = explain_operations(alloc, matches, content, bytes, form)?;
    noted(answer, note)
}

/// What `explain` answers to the bytes of an input: to its own, or to those of a dump.
fn explain_bytes(
    alloc: Global,
    matches: &ArgMatches<'_>,
    said: Option<Content>,
    input: &[u8],
    form: Form,
) -> Result<Answer, AllocError>
    ensures { IfOk result (ExplainsBytes said matches.now input.now form) }
{
    if is_binary(input) {
        return explain_taken(alloc, matches, said, input, Spelling::Own, form);
    }
    match bytes_or_refusal(alloc, input, "")? {
        Ok(bytes) => explain_taken(alloc, matches, said, &bytes, Spelling::Dump, form),
        Err(refusal) => noted(refusal, taken_note(alloc, said, "a dump")?),
    }
}

/// What `explain` answers to an input as what it is.
fn explain_seen(
    alloc: Global,
    matches: &ArgMatches<'_>,
    input: &[u8],
    form: Form,
) -> Result<Answer, AllocError>
    ensures { IfOk result (ExplainsSeen (kind_of input.now) matches.now input.now form) }
{
    match kind_of(input) {
        InputKind::Job => explain_with_options(alloc, matches, input, form),
        InputKind::Lines => explain_operations(alloc, matches, Content::Text, input, form),
        InputKind::Bytes | InputKind::Dump => explain_bytes(alloc, matches, None, input, form),
    }
}

/// What `explain` answers to an input as what the option says.
fn explain_as(
    alloc: Global,
    matches: &ArgMatches<'_>,
    content: Content,
    input: &[u8],
    form: Form,
) -> Result<Answer, AllocError>
    ensures { IfOk result (ExplainsAs content matches.now input.now form) }
{
    match content {
        Content::Text => explain_operations(alloc, matches, content, input, form),
        Content::List | Content::Recording => {
            explain_bytes(alloc, matches, Some(content), input, form)
        }
    }
}

/// The refusal of an option that names nothing that an input can be.
fn refused_as(alloc: Global) -> Result<Answer, AllocError>
    ensures { IfOk result (IsRefusal Outside) }
{
    Answer::fault_with(
        alloc,
        PlanFault::Settings,
        "--as takes text, list or recording",
    )
}

/// What `explain` answers to an input as what the option `--as` says, or as what it is.
fn explain_said(
    alloc: Global,
    matches: &ArgMatches<'_>,
    input: &[u8],
    form: Form,
) -> Result<Answer, AllocError>
    ensures { IfOk result (ExplainsSaid (said_in matches.now) matches.now input.now form) }
{
    let Some(said) = said_in(matches) else {
        return refused_as(alloc);
    };
    match said {
        Some(content) => explain_as(alloc, matches, content, input, form),
        None => explain_seen(alloc, matches, input, form),
    }
}

/// What `explain` answers to an input, in the form that the flags ask for.
pub(crate) fn explain(
    alloc: Global,
    matches: &ArgMatches<'_>,
    input: &[u8],
) -> Result<Answer, AllocError>
    ensures { IfOk result (ExplainsInput matches.now input.now) }
{
    let Some(range) = range_of(matches) else {
        return refused_range(alloc);
    };
    let svg = matches.get_flag("svg");
    let json = matches.get_flag("json");
    let waits = matches.get_flag("waits");
    let all = matches.get_flag("all");
    explain_said(alloc, matches, input, form_of(range, svg, json, waits, all))
}
