//! The bytes of a recording, from its lines.

ghost use Rattle.std.specs.Prelude.{◌≡◌, [], ◌<◌, ◌^◌, ◌++◌, take, true, false, MatchResult};
ghost use Rattle.dsa_lines.specs.Words.{words_of};
ghost use Rattle.dsa_lines.specs.Grammar.{Gives};
ghost use Rattle.dsa_lines.specs.Texts.{lines_of};
ghost use Rattle.dsa_lines.specs.declared.fault.TextFault.TheVariants.{Memory};
ghost use Rattle.dsa_lines.specs.Recordings.{at_end, batch_at, entry_at, fenced_at, recorded_at, line_recorded, batch_bytes, first_owner, owned_bytes, Records, SaysLine, PushesRecorded};

use crate::fault::{Expected, Stop, TextFault};
use crate::lines::before;
use crate::reading::{after, named, number_at, read_line};
use crate::words::{is_over, next_word};
use std::alloc::Global;

/// The flags and the operation code of a batch descriptor.
const BATCH: u32 = 0x0100_000c;

/// The line of a batch.
#[derive(Clone, Copy)]
pub(crate) struct BatchLine {
    pub(crate) count: u32,
    pub(crate) list_at: u64,
    pub(crate) record_at: u64,
}

/// What a line of a recording says.
#[derive(Clone, Copy)]
pub(crate) enum Recorded {
    /// That a batch was submitted.
    Batch(BatchLine),
    /// The bytes of an operation.
    Entry([u8; 64]),
}

/// The batch, if no word comes after it.
fn at_end(batch: BatchLine, text: &[u8]) -> Result<BatchLine, Stop>
    ensures { Gives (λ x. x) result (at_end batch (words_of text.now)) }
{
    match next_word(text) {
        None => Ok(batch),
        Some(_) => Err(Stop::at(text, Expected::End)),
    }
}

/// A batch, after its name.
#[tactic(auto, unfolding(crate::specs::Recordings::batch_at))]
pub(crate) fn batch_at(text: &[u8]) -> Result<BatchLine, Stop>
    ensures { Gives (λ x. x) result (batch_at (words_of text.now)) }
{
    let rest = after(text, b"of", Expected::Of)?;
    let (count, rest) = number_at(rest, 0xffff_ffff, Expected::Size)?;
    let rest = after(rest, b"at", Expected::At)?;
    let (list_at, rest) = number_at(rest, u64::MAX, Expected::Number)?;
    let rest = named(rest, b"record", Expected::Record)?;
    let (record_at, rest) = number_at(rest, u64::MAX, Expected::Number)?;
    let batch = BatchLine {
        count: count as u32,
        list_at,
        record_at,
    };
    at_end(batch, rest)
}

/// The bytes of an operation.
fn entry_at(text: &[u8]) -> Result<[u8; 64], Stop>
    ensures { Gives (λ x. x) result (entry_at (words_of text.now)) }
{
    let line = read_line(text)?;
    Ok(line.bytes())
}

/// The bytes of a fenced operation.
fn fenced_at(text: &[u8]) -> Result<[u8; 64], Stop>
    ensures { Gives (λ x. x) result (fenced_at (words_of text.now)) }
{
    let mut bytes = entry_at(text)?;
    bytes[4] |= 1;
    Ok(bytes)
}

/// What a line with words says.
#[tactic(auto, unfolding(crate::specs::Recordings::recorded_at))]
fn recorded_at(text: &[u8]) -> Result<Recorded, Stop>
    ensures { Gives (λ x. x) result (recorded_at (words_of text.now)) }
{
    let Some((word, rest)) = next_word(text) else {
        return Err(Stop::at(text, Expected::Operation));
    };
    if word == b"batch".as_slice() {
        let batch = batch_at(rest)?;
        return Ok(Recorded::Batch(batch));
    }
    if word == b"fence".as_slice() {
        let entry = fenced_at(rest)?;
        return Ok(Recorded::Entry(entry));
    }
    let entry = entry_at(text)?;
    Ok(Recorded::Entry(entry))
}

/// What a line says; nothing if it has no words.
fn recorded_line(text: &[u8]) -> Result<Option<Recorded>, (usize, Expected)>
    ensures { SaysLine (words_of text.now) result }
{
    if is_over(text) {
        return Ok(None);
    }
    match recorded_at(text) {
        Ok(recorded) => Ok(Some(recorded)),
        Err(stop) => Err((stop.column(text), stop.expected)),
    }
}

/// The owner of an operation.
fn owner_of(entry: &[u8; 64]) -> [u8; 4]
    ensures { result ≡ take 4 entry.now }
{
    [entry[0], entry[1], entry[2], entry[3]]
}

/// Writes the bytes at the end.
fn push_entry(bytes: &mut Vec<u8>, entry: &[u8]) -> Result<(), TextFault>
    ensures { MatchResult result (λ _. bytes.new.items ≡ bytes.old.items ++
        entry.now) (λ fault. fault ≡ Memory) }
{
    match bytes.extend_from_slice(entry) {
        Ok(()) => Ok(()),
        Err(_) => Err(TextFault::Memory),
    }
}

/// Writes the entry of a batch of this owner at the end.
fn push_batch(bytes: &mut Vec<u8>, batch: BatchLine, owner: &[u8; 4]) -> Result<(), TextFault>
    ensures { MatchResult result (λ _. bytes.new.items ≡
        bytes.old.items ++ batch_bytes batch owner.now) (λ fault. fault ≡ Memory) }
{
    push_entry(bytes, owner)?;
    push_entry(bytes, &BATCH.to_le_bytes())?;
    push_entry(bytes, &batch.record_at.to_le_bytes())?;
    push_entry(bytes, &batch.list_at.to_le_bytes())?;
    push_entry(bytes, &[0; 8])?;
    push_entry(bytes, &batch.count.to_le_bytes())?;
    push_entry(bytes, &[0; 28])?;
    Ok(())
}

/// Writes the entry of a pending batch, whose owner is known now.
fn push_pending(
    bytes: &mut Vec<u8>,
    pending: Option<BatchLine>,
    owner: &[u8; 4],
) -> Result<(), TextFault>
    ensures { MatchResult result (λ _. bytes.new.items ≡
        bytes.old.items ++ owned_bytes pending owner.now) (λ fault. fault ≡ Memory) }
{
    match pending {
        Some(batch) => push_batch(bytes, batch, owner),
        None => Ok(()),
    }
}

/// Writes what a line says at the end. A batch is pending until its owner is known: that of the line after it.
fn push_recorded(
    bytes: &mut Vec<u8>,
    pending: Option<BatchLine>,
    line: &[u8],
    number: usize,
) -> Result<Option<BatchLine>, TextFault>
    ensures { PushesRecorded bytes.old.items pending bytes.new.items number
        (line_recorded (words_of line.now)) result }
{
    match recorded_line(line) {
        Ok(None) => Ok(pending),
        Ok(Some(Recorded::Batch(batch))) => {
            push_pending(bytes, pending, &[0; 4])?;
            Ok(Some(batch))
        }
        Ok(Some(Recorded::Entry(entry))) => {
            push_pending(bytes, pending, &owner_of(&entry))?;
            push_entry(bytes, &entry)?;
            Ok(None)
        }
        Err((column, expected)) => Err(TextFault::Grammar(number, column, expected)),
    }
}

/// The bytes of a recording that is written as lines: the lines of a portal, with those of the members of a batch, as a
/// staging area has them, after the line of the batch. The entry of a batch gets the owner of the operation after it.
///
/// # Errors
/// The first line that leaves the grammar; [`TextFault::Memory`] at the first allocation that fails.
pub fn assemble_recording(alloc: Global, text: &[u8]) -> Result<Vec<u8>, TextFault>
    ensures { Records (λ bytes. bytes.items) (lines_of text.now) result }
{
    let mut bytes = Vec::new(alloc);
    let mut pending = None;
    let mut rest = text;
    let mut number: usize = 1;
    'lines: loop {
        let (line, later) = rest.split_at(before(rest, b'\n'));
        pending = push_recorded(&mut bytes, pending, line, number)?;
        let [_newline, next @ ..] = later else {
            push_pending(&mut bytes, pending, &[0; 4])?;
            return Ok(bytes);
        };
        rest = next;
        number += 1;
    }
}
