//! Reading a line, word by word.

ghost use Rattle.std.specs.Prelude.{◌≡◌, ◌<◌, ◌≤◌, ◌^◌, IfOk, Ok};
ghost use Rattle.dsa_operations.specs.declared.operation.Operation.{Operation};
ghost use Rattle.dsa_operations.specs.OperationFields.{operation_fields};
ghost use Rattle.dsa_lines.specs.Words.{words_of};
ghost use Rattle.dsa_lines.specs.Grammar.{Gives, after, named, number_at, count_at, pattern_at, fields_of, Spells};
ghost use Rattle.dsa_lines.specs.Views.{view};
ghost use Rattle.dsa_lines.specs.Text.{line_text};
ghost use Rattle.dsa_lines.specs.Answers.{Answers, SpellsLine};

use crate::fault::{Expected, LineFault, Stop};
use crate::line::Line;
use crate::numbers::{number_of, pattern_of, size_of};
use crate::operations::op_at;
use crate::options::options_at;
use crate::words::{is_over, next_word};
use dsa_operations::Operation;

/// What comes after this word.
pub(crate) fn after<'a>(text: &'a [u8], word: &[u8], expected: Expected) -> Result<&'a [u8], Stop>
    ensures { Gives (λ x. words_of x.now) result (after word.now (words_of text.now)) }
{
    let Some((first, rest)) = next_word(text) else {
        return Err(Stop::at(text, expected));
    };
    if first == word {
        Ok(rest)
    } else {
        Err(Stop::at(text, expected))
    }
}

/// What comes after a comma and this name.
pub(crate) fn named<'a>(text: &'a [u8], name: &[u8], expected: Expected) -> Result<&'a [u8], Stop>
    ensures { Gives (λ x. words_of x.now) result (named name.now (words_of text.now)) }
{
    let rest = after(text, b",", Expected::Comma)?;
    after(rest, name, expected)
}

/// A number of at most this, and what comes after it.
pub(crate) fn number_at(text: &[u8], most: u64, expected: Expected) -> Result<(u64, &[u8]), Stop>
    ensures value { Gives
        (λ x. (x.0, words_of x.1.now)) result (number_at most (words_of text.now)) }
    ensures bound { IfOk result (λ x. x.0 ≤ most) }
{
    let Some((word, rest)) = next_word(text) else {
        return Err(Stop::at(text, expected));
    };
    let Some(number) = number_of(word) else {
        return Err(Stop::at(text, expected));
    };
    if number <= most {
        Ok((number, rest))
    } else {
        Err(Stop::at(text, expected))
    }
}

/// A number of bytes below 2^32, and what comes after it.
pub(crate) fn count_at(text: &[u8]) -> Result<(u64, &[u8]), Stop>
    ensures value { Gives (λ x. (x.0, words_of x.1.now)) result (count_at (words_of text.now)) }
    ensures bound { IfOk result (λ x. x.0 < 2 ^ 32) }
{
    let Some((word, rest)) = next_word(text) else {
        return Err(Stop::at(text, Expected::Size));
    };
    let Some(count) = size_of(word) else {
        return Err(Stop::at(text, Expected::Size));
    };
    if count <= 0xffff_ffff {
        Ok((count, rest))
    } else {
        Err(Stop::at(text, Expected::Size))
    }
}

/// A pattern, and what comes after it.
pub(crate) fn pattern_at(text: &[u8]) -> Result<(u64, &[u8]), Stop>
    ensures { Gives (λ x. (x.0, words_of x.1.now)) result (pattern_at (words_of text.now)) }
{
    let Some((word, rest)) = next_word(text) else {
        return Err(Stop::at(text, Expected::Pattern));
    };
    let Some(pattern) = pattern_of(word) else {
        return Err(Stop::at(text, Expected::Pattern));
    };
    Ok((pattern, rest))
}

/// The fields that the line spells, if it is one of the grammar.
#[tactic(auto, unfolding(crate::specs::Grammar::fields_of))]
pub(crate) fn read_line(text: &[u8]) -> Result<Line, Stop>
    ensures gives { Gives view result (fields_of (words_of text.now)) }
    ensures small { IfOk result (λ line. (line.pasid < 2 ^ 20) × (line.flags < 2 ^ 24)) }
{
    let (op, size, rest) = op_at(text)?;
    let rest = named(rest, b"record", Expected::Record)?;
    let (record_at, rest) = number_at(rest, u64::MAX, Expected::Number)?;
    let options = options_at(rest)?;
    Ok(Line {
        pasid: options.pasid_or_zero(),
        privileged: options.privileged,
        flags: options.line_flags(op),
        record_at,
        size,
        int_handle: options.handle_or_zero(),
        op,
    })
}

/// The 64 bytes of the fields that a line spells, which a list may not have; none if it has no words.
/// A text with a newline is no line.
///
/// # Errors
/// The column, from 1 on, where the line leaves the grammar, and what was expected there.
pub fn line_bytes(text: &[u8]) -> Result<Option<[u8; 64]>, (usize, Expected)>
    ensures { SpellsLine (words_of text.now) result }
{
    if is_over(text) {
        return Ok(None);
    }
    match read_line(text) {
        Ok(line) => Ok(Some(line.bytes())),
        Err(stop) => Err((stop.column(text), stop.expected)),
    }
}

/// The operation that a line with words spells.
fn operation_of(text: &[u8]) -> Result<Operation, LineFault>
    ensures gives { Answers (fields_of (words_of text.now)) result }
    ensures only { (o : Operation) → Spells text.now (operation_fields o) → result ≡ Ok o }
{
    let line = match read_line(text) {
        Ok(line) => line,
        Err(stop) => return Err(LineFault::Grammar(stop.column(text), stop.expected)),
    };
    match Operation::read(&line.bytes()) {
        Ok(operation) => Ok(operation),
        Err(fault) => Err(LineFault::Field(fault)),
    }
}

/// The operation that a line spells. A text with a newline is no line.
///
/// # Errors
/// Where the line leaves the grammar, or the first fault of the bytes of its fields.
pub fn parse_line(text: &[u8]) -> Result<Operation, LineFault>
    // The operation that the line spells, the first fault of its fields, or that it spells none.
    ensures gives { Answers (fields_of (words_of text.now)) result }
    // What the line spells is read.
    ensures only { (o : Operation) → Spells text.now (operation_fields o) → result ≡ Ok o }
    // The canonical line is read back.
    ensures again { (o : Operation) → text.now ≡ line_text (operation_fields o) → result ≡ Ok o }
{
    operation_of(text)
}
