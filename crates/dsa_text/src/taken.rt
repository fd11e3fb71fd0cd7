//! What an input is taken as: what the option `--as` says, or what it is; and the note that says so.

ghost use Rattle.std.specs.Prelude.{◌≡◌, IfOk};
ghost use Rattle.dsa_text.specs.Taken.{content_by, content_in, content_of, said_in};

use clap::ArgMatches;
use dsa_advice::{Answer, joined};
use dsa_forms::has_batch;
use std::alloc::{AllocError, Global};

/// What operations are in.
#[derive(Clone, Copy)]
pub enum Content {
    /// Lines.
    Text,
    /// The bytes of a list.
    List,
    /// Those of a recording.
    Recording,
}

/// How an input has its bytes.
#[derive(Clone, Copy)]
pub(crate) enum Spelling {
    /// As they are.
    Own,
    /// In a dump.
    Dump,
}

/// What a word names.
fn content_by(word: &str) -> Option<Content>
    ensures { result ≡ content_by word.now }
{
    if word == "text" {
        return Some(Content::Text);
    }
    if word == "list" {
        return Some(Content::List);
    }
    if word == "recording" {
        return Some(Content::Recording);
    }
    None
}

/// What the option `--as` says, if it is given; none if its word names nothing.
pub(crate) fn said_in(matches: &ArgMatches<'_>) -> Option<Option<Content>>
    ensures { result ≡ said_in matches.now }
{
    let Some(word) = matches.get_str("as") else {
        return Some(None);
    };
    match content_by(word) {
        Some(content) => Some(Some(content)),
        None => None,
    }
}

/// What bytes are: those of a recording, if they have a batch, else those of a list.
fn content_of(bytes: &[u8]) -> Content
    ensures { result ≡ content_of bytes.now }
{
    if has_batch(bytes) {
        Content::Recording
    } else {
        Content::List
    }
}

/// What bytes are taken as.
pub(crate) fn content_in(said: Option<Content>, bytes: &[u8]) -> Content
    ensures { result ≡ content_in said bytes.now }
{
    match said {
        Some(content) => content,
        None => content_of(bytes),
    }
}

/// What bytes were taken as.
pub(crate) fn taken_text(content: Content, spelling: Spelling) -> &'static str {
    match (content, spelling) {
        (Content::Text, Spelling::Own | Spelling::Dump) => "lines",
        (Content::List, Spelling::Own) => "the bytes of a list",
        (Content::List, Spelling::Dump) => "a dump of a list",
        (Content::Recording, Spelling::Own) => {
            "a recording, whose lines are those of audit --list"
        }
        (Content::Recording, Spelling::Dump) => {
            "a dump of a recording, whose lines are those of audit --list"
        }
    }
}

/// The note that says what an input was taken as; none if the option said it.
pub(crate) fn taken_note(
    alloc: Global,
    said: Option<Content>,
    what: &str,
) -> Result<Option<String>, AllocError> {
    if said.is_some() {
        return Ok(None);
    }
    Ok(Some(format!(in alloc; "note: taken as {what}; --as decides\n")?))
}

/// An answer with a note before its warnings.
pub(crate) fn noted(answer: Answer, note: Option<String>) -> Result<Answer, AllocError>
    ensures text { IfOk result (λ a. a.text ≡ answer.text) }
    ensures status { IfOk result (λ a. a.status ≡ answer.status) }
{
    let warnings = joined(note, answer.warnings)?;
    Ok(Answer {
        text: answer.text,
        status: answer.status,
        warnings,
    })
}
