//! What a line of a list has: an operation, a barrier, or neither.

ghost use Rattle.std.specs.Prelude.{◌≡◌, [], List, Some, None, true, false, MatchResult};
ghost use Rattle.dsa_operations.specs.OperationFields.{OperationFields};
ghost use Rattle.dsa_lines.specs.Answers.{HasOperation};
ghost use Rattle.dsa_lines.specs.Recordings.{at_end, batch_at};
ghost use Rattle.dsa_lines.specs.TextLists.{HasLine};
ghost use Rattle.dsa_lines.specs.Words.{words_of};

use crate::fault::{Expected, Stop};
use crate::reading::read_line;
use crate::recording::batch_at;
use crate::words::next_word;

/// What a line of a list has.
#[derive(Clone, Copy)]
pub(crate) enum ListLine {
    /// Neither an operation nor a barrier.
    Nothing,
    /// A barrier.
    Barrier,
    /// The bytes of an operation, and whether `fence` is before it.
    Entry([u8; 64], bool),
}

/// Nothing, if the text has no word.
fn nothing_in(text: &[u8]) -> Result<(), Stop>
    ensures { MatchResult result
        (λ _. at_end {A = List OperationFields} [] (words_of text.now) ≡ Some [])
        (λ _. at_end {A = List OperationFields} [] (words_of text.now) ≡ None) }
{
    match next_word(text) {
        None => Ok(()),
        Some(_) => Err(Stop::at(text, Expected::End)),
    }
}

/// What a line has, by its first word. Of a batch there is nothing.
#[tactic(auto, unfolding(crate::specs::Texts::line_fields, crate::specs::Barriers::line_kind))]
fn list_line_at(text: &[u8]) -> Result<ListLine, Stop>
    ensures { HasLine (words_of text.now) result }
{
    let Some((word, rest)) = next_word(text) else {
        return Ok(ListLine::Nothing);
    };
    if word == b"batch".as_slice() {
        batch_at(rest)?;
        return Ok(ListLine::Nothing);
    }
    if word == b"barrier".as_slice() {
        nothing_in(rest)?;
        return Ok(ListLine::Barrier);
    }
    if word == b"fence".as_slice() {
        let line = read_line(rest)?;
        return Ok(ListLine::Entry(line.bytes(), true));
    }
    let line = read_line(text)?;
    Ok(ListLine::Entry(line.bytes(), false))
}

/// What a line has, or the column, from 1 on, where it leaves the grammar, and what was expected there.
pub(crate) fn list_line(text: &[u8]) -> Result<ListLine, (usize, Expected)>
    ensures { HasLine (words_of text.now) result }
{
    match list_line_at(text) {
        Ok(found) => Ok(found),
        Err(stop) => Err((stop.column(text), stop.expected)),
    }
}

/// The 64 bytes of the operation that a line of a list names, which a list may not have. A
/// line without words has none, nor has that of a batch or a barrier; `fence` before an operation
/// is passed over. A text with a newline is no line.
///
/// # Errors
/// The column, from 1 on, where the line leaves the grammar, and what was expected there.
pub fn operation_bytes(text: &[u8]) -> Result<Option<[u8; 64]>, (usize, Expected)>
    ensures { HasOperation (words_of text.now) result }
{
    match list_line(text) {
        Ok(ListLine::Nothing | ListLine::Barrier) => Ok(None),
        Ok(ListLine::Entry(entry, _)) => Ok(Some(entry)),
        Err(place) => Err(place),
    }
}
