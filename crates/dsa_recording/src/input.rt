//! The answer to a recording as bytes or as text.

ghost use Rattle.std.specs.Prelude.{◌≡◌, IfOk, MatchResult};
ghost use Rattle.dsa_lines.specs.Texts.{lines_of};
ghost use Rattle.dsa_recording.specs.Foreign.{AnswersEntries};
ghost use Rattle.dsa_forms.specs.Forms.{IsText};
ghost use Rattle.dsa_recording.specs.Inputs.{AnswersInput, IsInLines, IsRefused, OneRecording, SpellsRecording};

use crate::answer::{AuditAnswer, AuditOptions, audit_bytes};
use crate::foreign::{find_foreign, foreign_text};
use dsa_forms::{begins_with_digits, bytes_of_input, form_of, is_text};
use dsa_lines::{Expected, TextFault, assemble_recording};
use dsa_settings::Settings;
use std::alloc::{AllocError, Global};

/// The most lines that are named.
const MOST_NAMED: usize = 20;

/// What a recording has at the column where a line leaves the grammar.
fn expected_words(line: &[u8], column: usize, expected: Expected) -> &'static str {
    let before = line.get(..column.saturating_sub(1)).unwrap_or(&[]);
    if expected == Expected::Operation && before.iter().all(u8::is_ascii_whitespace) {
        "hexadecimal digits, or batch, fence, move, fill, compare, delta, dualcast, crc or copy_crc"
    } else {
        expected.text()
    }
}

/// Whether a line begins with digits, or an offset, as bytes are written: in a text of lines it says nothing more.
fn begins_with_bytes(line: &[u8]) -> bool {
    let word = line
        .split(|byte| byte.is_ascii_whitespace())
        .find(|word| !word.is_empty())
        .unwrap_or(&[]);
    !word.is_empty()
        && word
            .iter()
            .all(|byte| byte.is_ascii_hexdigit() || *byte == b':')
}

/// The column at which a line leaves the grammar of recordings, and what was expected there.
fn mistake_of(alloc: Global, line: &[u8]) -> Result<Option<(usize, Expected)>, AllocError> {
    match assemble_recording(alloc, line) {
        Ok(_) | Err(TextFault::List(_, _)) => Ok(None),
        Err(TextFault::Grammar(_, column, expected)) => Ok(Some((column, expected))),
        Err(TextFault::Memory) => Err(AllocError),
    }
}

/// How many lines are wrong, if they are several.
fn count_text(alloc: Global, count: usize) -> Result<String, AllocError> {
    let left = count.saturating_sub(MOST_NAMED);
    if count < 2 {
        return Ok(String::new(alloc));
    }
    if left == 0 {
        return format!(in alloc; "error: {count} lines are wrong\n");
    }
    format!(in alloc; "error: {count} lines are wrong, and {left} of them are not named\n")
}

/// What is wrong with the lines of a recording.
fn mistakes_text(alloc: Global, text: &[u8]) -> Result<String, AllocError> {
    let mut reason = String::new(alloc);
    let mut count: usize = 0;
    for (at, written) in text.split(|byte| *byte == b'\n').enumerate() {
        if count > 0 && begins_with_bytes(written) {
            continue;
        }
        if let Some((column, expected)) = mistake_of(alloc, written)? {
            count = count.saturating_add(1);
            if count <= MOST_NAMED {
                let (line, words) = (
                    at.saturating_add(1),
                    expected_words(written, column, expected),
                );
                reason.push_str(&format!(in alloc;
                    "line {line}, column {column}: error: expected {words}\n"
                )?)?;
            }
        }
    }
    reason.push_str(&count_text(alloc, count)?)?;
    Ok(reason)
}

/// The bytes of a recording in lines, or its refusal.
fn bytes_of_lines(alloc: Global, text: &[u8]) -> Result<Result<Vec<u8>, AuditAnswer>, AllocError>
    requires { IsInLines text.now }
    ensures { IfOk result
        (λ read. MatchResult read
        (λ bytes. SpellsRecording text.now bytes.items) (IsRefused text.now)) }
{
    match assemble_recording(alloc, text) {
        Ok(bytes) => Ok(Ok(bytes)),
        Err(TextFault::Grammar(_, _, _)) => {
            let reason = mistakes_text(alloc, text)?;
            Ok(Err(AuditAnswer::refused(alloc, reason)))
        }
        // the lines of a recording are no list, so the first does not come
        Err(TextFault::List(_, _)) | Err(TextFault::Memory) => Err(AllocError),
    }
}

/// The bytes of a recording in digits, or its refusal.
fn bytes_of_digits(alloc: Global, text: &[u8]) -> Result<Result<Vec<u8>, AuditAnswer>, AllocError>
    requires text { IsText text.now }
    requires unlike { ¬ IsInLines text.now }
    ensures { IfOk result
        (λ read. MatchResult read
        (λ bytes. SpellsRecording text.now bytes.items) (IsRefused text.now)) }
{
    match bytes_of_input(alloc, text)? {
        Ok(bytes) => Ok(Ok(bytes)),
        Err(fault) => {
            let mut reason = fault.text(alloc, "error: ")?;
            reason.push_str("\n")?;
            Ok(Err(AuditAnswer::refused(alloc, reason)))
        }
    }
}

/// The bytes of a recording that is a text, or its refusal.
pub(crate) fn bytes_of_text_input(
    alloc: Global,
    text: &[u8],
) -> Result<Result<Vec<u8>, AuditAnswer>, AllocError>
    requires { IsText text.now }
    ensures { IfOk result
        (λ read. MatchResult read
        (λ bytes. SpellsRecording text.now bytes.items) (IsRefused text.now)) }
{
    if form_of(text).is_some() {
        return bytes_of_digits(alloc, text);
    }
    if begins_with_digits(text) {
        return bytes_of_digits(alloc, text);
    }
    bytes_of_lines(alloc, text)
}

/// The report on the entries of a recording, each batch with its members after it, as [`audit`] answers it.
pub fn audit_entries(
    alloc: Global,
    bytes: &[u8],
    settings: &Settings,
    options: AuditOptions<'_>,
) -> Result<AuditAnswer, AllocError>
    ensures { IfOk result (AnswersEntries options.entry bytes.now) }
{
    match find_foreign(alloc, bytes)? {
        Some(foreign) => {
            let reason = foreign_text(alloc, foreign)?;
            Ok(AuditAnswer::refused(alloc, reason))
        }
        None => audit_bytes(alloc, bytes, settings, options),
    }
}

/// The report on a recording, as bytes or as a text: of bytes in hexadecimal, or of lines. The status is 0 if nothing
/// is an error, 1 if something is, and 2 with the reason if there is no recording, if an entry cannot be a member of
/// its batch, or if the recording is too large for a picture. The report has what the submissions cost under the
/// settings.
pub fn audit(
    alloc: Global,
    input: &[u8],
    settings: &Settings,
    options: AuditOptions<'_>,
) -> Result<AuditAnswer, AllocError>
    ensures { IfOk result (AnswersInput options.entry input.now) }
{
    if !is_text(input) {
        return audit_entries(alloc, input, settings, options);
    }
    match bytes_of_text_input(alloc, input)? {
        Ok(bytes) => audit_entries(alloc, &bytes, settings, options),
        Err(refusal) => Ok(refusal),
    }
}

/// An input spells one recording at most.
pub fn one_recording()
    ensures { OneRecording }
{}
