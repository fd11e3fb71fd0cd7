//! The message of a refusal: the place, the cause, and what was expected; its number and name come last.

ghost use Rattle.std.specs.Prelude.{◌≡◌, ◌++◌, IfOk, OnOk, codes, string_bytes};
ghost use Rattle.dsa_calls.specs.Fault.{indices_text, inner_text, list_cause, named_text, place_text};
ghost use Rattle.dsa_advice.specs.Refusals.{NamesCause, NamesGrammar, cause_words};

use crate::faulty::{push_owners, push_values};
use crate::words::{column_at_fault, hint_of, line_at, push_found, word_at};
use dsa_calls::{InnerFault, PlanFault};
use dsa_descriptor::{Indices, ListFault, u32_at};
use dsa_lines::{Expected, operation_bytes};
use dsa_sentences::{TextCause, refusal_text};
use std::alloc::{AllocError, Global};

/// The first two numbers of the indices, 0 for each that is missing.
fn numbers_of(indices: Indices) -> (u64, u64) {
    match indices {
        Indices::Empty => (0, 0),
        Indices::One(index) => (index, 0),
        Indices::Two(first, second) => (first, second),
    }
}

/// What a cause means, without the descriptor that it is about.
fn without_place(said: &str) -> &str {
    match said
        .strip_prefix("descriptor ")
        .and_then(|rest| rest.split_once(": "))
    {
        Some((_, cause)) => cause,
        None => said,
    }
}

/// Writes the sentence of a cause with its indices. Which descriptor it is about is written before, as the place.
pub fn push_sentence(text: &mut String, number: u64, indices: Indices) -> Result<(), AllocError> {
    let (first, second) = numbers_of(indices);
    let number = u32::try_from(number).unwrap_or(0);
    let said = refusal_text(number, 0, first, second);
    match str::from_utf8(said.as_slice()) {
        Ok(said) => text.push_str(without_place(said)),
        Err(_) => Ok(()),
    }
}

/// Writes what the refusal means, and the operation that it is about.
fn push_cause(alloc: Global, text: &mut String, fault: PlanFault) -> Result<(), AllocError> {
    if let PlanFault::List(ListFault::Field(index, _) | ListFault::MixedPasid(index)) = fault {
        text.push_str(&format!(in alloc; "operation {index}: ")?)?;
    }
    push_sentence(text, fault.number(), fault.indices())?;
    match fault.inner() {
        Some(inner) => push_inner(text, inner),
        None => Ok(()),
    }
}

/// Writes the cause within.
fn push_inner(text: &mut String, inner: InnerFault) -> Result<(), AllocError> {
    text.push_str(": ")?;
    push_sentence(text, u64::from(inner.number()), inner.indices())
}

/// Writes a space and a number.
fn push_place(alloc: Global, text: &mut String, place: u64) -> Result<(), AllocError>
    ensures { OnOk result (string_bytes text.new ≡ string_bytes text.old ++ place_text place) }
{
    text.push_str(&format!(in alloc; " {place}")?)
}

/// Writes the indices, a space before each.
pub fn push_indices(alloc: Global, text: &mut String, indices: Indices) -> Result<(), AllocError>
    ensures { OnOk result (string_bytes text.new ≡ string_bytes text.old ++ indices_text indices) }
{
    match indices {
        Indices::Empty => Ok(()),
        Indices::One(index) => push_place(alloc, text, index),
        Indices::Two(first, second) => {
            push_place(alloc, text, first)?;
            push_place(alloc, text, second)
        }
    }
}

/// Writes a number and a name, a space before each.
fn push_named(alloc: Global, text: &mut String, number: u64, name: &str) -> Result<(), AllocError>
    ensures { OnOk result (string_bytes text.new ≡ string_bytes text.old ++
        named_text number name.now) }
{
    push_place(alloc, text, number)?;
    text.push_str(" ")?;
    text.push_str(name)
}

/// Writes the number, the name and the indices of the cause within.
fn push_inner_name(
    alloc: Global,
    text: &mut String,
    inner: Option<InnerFault>,
) -> Result<(), AllocError>
    ensures { OnOk result (string_bytes text.new ≡ string_bytes text.old ++ inner_text inner) }
{
    let Some(inner) = inner else {
        return Ok(());
    };
    push_named(alloc, text, u64::from(inner.number()), inner.name())?;
    push_indices(alloc, text, inner.indices())
}

/// Writes the number, the name and the indices, as the program `dsa` does.
fn push_name(alloc: Global, text: &mut String, fault: PlanFault) -> Result<(), AllocError>
    ensures { OnOk result (string_bytes text.new ≡ string_bytes text.old ++
        (codes " [" ++ (cause_words fault ++ codes "]\n"))) }
{
    let (number, name) = (fault.number(), fault.name());
    text.push_str(&format!(in alloc; " [{number} {name}")?)?;
    push_indices(alloc, text, fault.indices())?;
    push_inner_name(alloc, text, fault.inner())?;
    text.push_str("]\n")
}

/// The message of a refusal.
pub fn message_of(alloc: Global, fault: PlanFault) -> Result<String, AllocError>
    ensures { IfOk result (λ s. NamesCause fault (string_bytes s)) }
{
    let mut text = String::from_str(alloc, "error: ")?;
    push_cause(alloc, &mut text, fault)?;
    push_name(alloc, &mut text, fault)?;
    Ok(text)
}

/// The message of a refusal that more is known about than its cause.
pub fn message_with(alloc: Global, fault: PlanFault, words: &str) -> Result<String, AllocError>
    ensures { IfOk result (λ s. NamesCause fault (string_bytes s)) }
{
    let mut text = String::from_str(alloc, "error: ")?;
    text.push_str(words)?;
    push_name(alloc, &mut text, fault)?;
    Ok(text)
}

/// Writes the place of an operation's fault in its line, the cause, and what was found there.
fn push_line_cause(
    alloc: Global,
    text: &mut String,
    given: &[u8],
    line: usize,
    fault: ListFault,
) -> Result<(), AllocError> {
    let Some(column) = column_at_fault(given, line, fault) else {
        push_cause(alloc, text, PlanFault::from(fault))?;
        return push_line_values(alloc, text, given, line, fault);
    };
    text.push_str(&format!(in alloc; "column {column}, ")?)?;
    push_cause(alloc, text, PlanFault::from(fault))?;
    if let ListFault::MixedPasid(_) = fault {
        return push_line_values(alloc, text, given, line, fault);
    }
    text.push_str(", found ")?;
    push_found(alloc, text, word_at(given, line, column))
}

/// The owner of the first operation of a text.
fn first_owner(given: &[u8]) -> Option<u32> {
    for line in given.split(|byte| *byte == b'\n') {
        if let Ok(Some(entry)) = operation_bytes(line) {
            return Some(u32_at(&entry, 0));
        }
    }
    None
}

/// Writes the values that are at fault in the operation of a line.
fn push_line_values(
    alloc: Global,
    text: &mut String,
    given: &[u8],
    line: usize,
    fault: ListFault,
) -> Result<(), AllocError> {
    match (fault, operation_bytes(line_at(given, line))) {
        (ListFault::Field(_, fault), Ok(Some(entry))) => push_values(alloc, text, &entry, fault),
        (ListFault::MixedPasid(_), Ok(Some(entry))) => match first_owner(given) {
            Some(first) => push_owners(alloc, text, u32_at(&entry, 0), first),
            None => Ok(()),
        },
        (ListFault::Field(_, _) | ListFault::MixedPasid(_), Ok(None) | Err(_))
        | (ListFault::Length | ListFault::Memory, _) => Ok(()),
    }
}

/// Writes the values that are at fault in the operation of a list.
fn push_list_values(
    alloc: Global,
    text: &mut String,
    list: &[u8],
    fault: ListFault,
) -> Result<(), AllocError> {
    let (entries, _) = list.as_chunks::<64>();
    match fault {
        ListFault::Field(index, fault) => match entries.get(index) {
            Some(entry) => push_values(alloc, text, entry, fault),
            None => Ok(()),
        },
        ListFault::MixedPasid(index) => match (entries.get(index), entries.first()) {
            (Some(entry), Some(first)) => {
                push_owners(alloc, text, u32_at(entry, 0), u32_at(first, 0))
            }
            (Some(_) | None, Some(_) | None) => Ok(()),
        },
        ListFault::Length => {
            let bytes = list.len();
            let plural = if bytes == 1 { "" } else { "s" };
            text.push_str(&format!(in alloc; ": {bytes} byte{plural}")?)
        }
        ListFault::Memory => Ok(()),
    }
}

/// The message of bytes that are no list.
pub(crate) fn list_message(
    alloc: Global,
    list: &[u8],
    fault: ListFault,
) -> Result<String, AllocError>
    ensures { IfOk result (λ s. NamesCause (list_cause fault) (string_bytes s)) }
{
    let mut text = String::from_str(alloc, "error: ")?;
    push_cause(alloc, &mut text, PlanFault::from(fault))?;
    push_list_values(alloc, &mut text, list, fault)?;
    push_name(alloc, &mut text, PlanFault::from(fault))?;
    Ok(text)
}

/// The message of an operation of a text that can't be listed.
pub(crate) fn line_message(
    alloc: Global,
    given: &[u8],
    line: usize,
    fault: ListFault,
) -> Result<String, AllocError>
    ensures { IfOk result (λ s. NamesCause (list_cause fault) (string_bytes s)) }
{
    let mut text = format!(in alloc; "error: line {line}, ")?;
    push_line_cause(alloc, &mut text, given, line, fault)?;
    push_name(alloc, &mut text, PlanFault::from(fault))?;
    Ok(text)
}

/// Writes what was expected at a place, what is there, and what helps.
fn push_expected(
    alloc: Global,
    text: &mut String,
    word: &[u8],
    expected: Expected,
) -> Result<(), AllocError> {
    let wanted = expected.text();
    text.push_str(&format!(in alloc; "expected {wanted}, found ")?)?;
    push_found(alloc, text, word)?;
    if let Some(hint) = hint_of(word, expected) {
        text.push_str(" (")?;
        text.push_str(hint)?;
        text.push_str(")")?;
    }
    Ok(())
}

/// The message of a line that leaves the grammar: what was expected at the place, what is there, and what helps.
pub(crate) fn grammar_message(
    alloc: Global,
    given: &[u8],
    line: usize,
    column: usize,
    expected: Expected,
) -> Result<String, AllocError>
    ensures { IfOk result (λ s. NamesGrammar (string_bytes s)) }
{
    let mut text = format!(in alloc; "error: line {line}, column {column}: ")?;
    push_expected(alloc, &mut text, word_at(given, line, column), expected)?;
    text.push_str(TextCause::Line.ending())?;
    Ok(text)
}
