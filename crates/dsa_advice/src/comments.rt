//! What the comments of a text name: operations, and buffers.

ghost use Rattle.std.specs.Prelude.{◌≡◌, IfOk, map, string_bytes};
ghost use Rattle.std.specs.List.{list_any};
ghost use Rattle.std.specs.Str.{chars};
ghost use Rattle.dsa_lines.specs.TextLists.{line_shown};
ghost use Rattle.dsa_advice.specs.Comments.{after_mark, comment_of, harmless, is_obeyed, names_from, names_in};

use crate::numbers::number_of;
use crate::unplanned::Source;
use dsa_explain::Buffer;
use dsa_lines::OperationLine;
use std::alloc::{AllocError, Global};

/// The most bytes of a name, which each piece of its operation shows.
const LONGEST_NAME: usize = 256;

/// What the comments of a text name.
#[derive(Drop)]
pub(crate) struct Comments {
    /// The name of each operation, empty if it has none.
    pub(crate) names: Vec<String>,
    /// Buffers with their names, for pictures.
    pub(crate) buffers: Vec<Buffer>,
}

/// What is after the first # of a line.
fn after_mark(line: &[u8]) -> &[u8]
    ensures { result.now ≡ after_mark line.now }
{
    let mut rest = line;
    while let [first, after @ ..] = rest {
        if *first == b'#' {
            return after;
        }
        rest = after;
    }
    rest
}

/// Whether a terminal obeys this character.
fn is_obeyed(sign: char) -> bool
    ensures { result ≡ is_obeyed sign }
{
    sign != '\t' && sign.is_control()
}

/// Whether a terminal would obey a part of a text.
fn has_obeyed(text: &str) -> bool
    ensures { result ≡ list_any is_obeyed (chars text.now) }
{
    text.chars().any(is_obeyed)
}

/// A text; empty if it is longer than a name, or a terminal would obey a part of it.
#[tactic(auto, unfolding(crate::specs::Comments::harmless))]
fn harmless(text: &str) -> &str
    ensures { result.now ≡ harmless text.now }
{
    if text.len() > LONGEST_NAME {
        return "";
    }
    if has_obeyed(text) { "" } else { text }
}

/// The comment of a line; empty if it has none, or one that is not shown.
#[tactic(auto, using(crate::proofs::Named::is_text, crate::proofs::Named::is_no_text))]
pub(crate) fn comment_of(line: &[u8]) -> &str
    ensures { result.now ≡ comment_of line.now }
{
    match str::from_utf8(after_mark(line)) {
        Ok(comment) => harmless(comment.trim()),
        Err(_) => "",
    }
}

/// The buffer that a comment names, as `0x200000: the log`.
fn buffer_of(alloc: Global, comment: &str) -> Result<Option<Buffer>, AllocError> {
    let Some((number, name)) = comment.split_once(':') else {
        return Ok(None);
    };
    let Some(address) = number_of(number) else {
        return Ok(None);
    };
    let name = String::from_str(alloc, name.trim())?;
    Ok(Some(Buffer { address, name }))
}

/// Adds the buffer that a comment names, if it names one.
fn push_buffer(alloc: Global, buffers: &mut Vec<Buffer>, comment: &str) -> Result<(), AllocError> {
    if let Some(buffer) = buffer_of(alloc, comment)? {
        buffers.push(buffer)?;
    }
    Ok(())
}

/// The names of operations, by their lines: the comment of each.
fn names_in(alloc: Global, lines: &[OperationLine<'_>]) -> Result<Vec<String>, AllocError>
    ensures { IfOk result
        (λ names. map string_bytes names.items ≡ names_in (map line_shown lines.now)) }
{
    let mut names = Vec::new(alloc);
    for line in lines {
        names.push(String::from_str(alloc, comment_of(line.text))?)?;
    }
    Ok(names)
}

/// The buffers that the comments of the other lines of a text name.
fn buffers_in(
    alloc: Global,
    text: &[u8],
    lines: &[OperationLine<'_>],
) -> Result<Vec<Buffer>, AllocError> {
    let mut buffers = Vec::new(alloc);
    let mut rest = lines;
    for (before, line) in text.split(|byte| *byte == b'\n').enumerate() {
        match rest {
            [next, after @ ..] if next.number == before.saturating_add(1) => rest = after,
            [] | [_, ..] => push_buffer(alloc, &mut buffers, comment_of(line))?,
        }
    }
    Ok(buffers)
}

/// What comments name, by where operations come from: nothing but in a text, and buffers only for pictures.
pub(crate) fn comments_in(
    alloc: Global,
    source: Source<'_>,
    is_drawn: bool,
) -> Result<Comments, AllocError>
    ensures { IfOk result (λ found. map string_bytes found.names.items ≡ names_from source.entry) }
{
    match source {
        Source::Text(text, lines) => {
            let names = names_in(alloc, lines)?;
            let buffers = if is_drawn {
                buffers_in(alloc, text, lines)?
            } else {
                Vec::new(alloc)
            };
            Ok(Comments { names, buffers })
        }
        Source::List | Source::Job => Ok(Comments {
            names: Vec::new(alloc),
            buffers: Vec::new(alloc),
        }),
    }
}
