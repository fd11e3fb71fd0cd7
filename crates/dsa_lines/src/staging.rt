//! The text of a staging area, from its bytes.

ghost use Rattle.std.specs.Prelude.{◌≡◌, ◌≢◌, ℕ, ◌*◌, ◌%◌, ◌^◌, ◌≤◌, ◌⊎◌, ◌↔◌, ◌++◌, ◌∷◌, [], List, drop, length, IfOk, IfErr, IsTrue, MatchResult, OnOk, string_bytes};
ghost use Rattle.dsa_descriptor.specs.Faults.{AreZero};
ghost use Rattle.dsa_lines.specs.declared.fault.EmittedFault.{EmittedFault};
ghost use Rattle.dsa_lines.specs.declared.fault.EmittedFault.TheVariants.{Memory};
ghost use Rattle.dsa_lines.specs.Stagings.{StagedEntry, AreEntries, BeginsRecord, IsFirstStagingFault, IsStaging, Shows, entry_text, entries_text, piece_text, staging_text};

use crate::fault::EmittedFault;
use crate::portal::{other_text, push_line};
use crate::staged_record::push_records;
use crate::writing::line_of;
use dsa_descriptor::{is_fenced, unfenced};
use dsa_emission::EmissionFault;
use dsa_operations::Operation;
use std::alloc::{AllocError, Global};

/// Whether all of the bytes are zero.
fn are_zero(bytes: &[u8]) -> bool
    ensures { IsTrue result ↔ AreZero bytes.now }
{
    bytes.iter().all(|byte| *byte == 0)
}

/// Whether the records begin at this entry.
fn begins_record(entry: &[u8; 64]) -> bool
    ensures { IsTrue result ↔ BeginsRecord entry.now }
{
    entry[7] == 0 && (entry[0] != 0 || are_zero(&entry[8..32]))
}

/// The line of a piece.
fn piece_text(alloc: Global, piece: &Operation, fence: bool) -> Result<String, AllocError>
    ensures { IfOk result (λ line. string_bytes line ≡
        piece_text (record { fence = fence; piece = piece.now })) }
{
    let line = line_of(alloc, piece)?;
    if fence {
        return format!(in alloc; "fence {line}");
    }
    Ok(line)
}

/// The line of an entry.
fn entry_text(alloc: Global, entry: &[u8; 64]) -> Result<String, AllocError>
    ensures { IfOk result (λ line. (e : StagedEntry) × Shows entry.now e ×
        (string_bytes line ≡ entry_text e)) }
{
    match Operation::read(&unfenced(entry)) {
        Ok(operation) => piece_text(alloc, &operation, is_fenced(entry)),
        Err(fault) => other_text(alloc, entry, fault),
    }
}

/// Writes the line of an entry at the end.
fn push_entry(alloc: Global, text: &mut String, entry: &[u8; 64]) -> Result<(), AllocError>
    ensures { OnOk result ((e : StagedEntry) × Shows entry.now e ×
        (string_bytes text.new ≡ string_bytes text.old ++ (entry_text e ++ 10 ∷ []))) }
{
    let line = entry_text(alloc, entry)?;
    push_line(text, &line)
}

/// Writes the lines of the entries, and returns how many there are.
fn push_entries(alloc: Global, text: &mut String, bytes: &[u8]) -> Result<usize, AllocError>
    ensures { IfOk result (λ number. (es : List StagedEntry) × AreEntries bytes.now number es ×
        (string_bytes text.new ≡ string_bytes text.old ++ entries_text es)) }
{
    let (all, _) = bytes.as_chunks::<64>();
    for (number, entry) in all.iter().enumerate() {
        if begins_record(entry) {
            return Ok(number);
        }
        push_entry(alloc, text, entry)?;
    }
    Ok(all.len())
}

/// A line for each entry, and one for the record of each batch.
fn text_of_staging(alloc: Global, bytes: &[u8], at: u64) -> Result<String, EmittedFault>
    requires { at ≤ 2 ^ 63 }
    ensures ok { IfOk result (λ text. (es : List StagedEntry) × (rs : List (List ℕ)) ×
        IsStaging bytes.now es rs × (string_bytes text ≡ staging_text at es rs)) }
    ensures err { IfErr result (IsFirstStagingFault bytes.now) }
{
    if bytes.len() % 32 != 0 {
        return Err(EmittedFault::Emission(EmissionFault::StagingLength));
    }
    let mut text = String::new(alloc);
    let entries = push_entries(alloc, &mut text, bytes)?;
    push_records(
        alloc,
        &mut text,
        &bytes[64 * entries..],
        at + 64 * entries as u64,
    )?;
    Ok(text)
}

/// The text of a staging area at an address, before a run or after it: a line for each entry of 64 bytes, and then one
/// for the record of each batch, 32 bytes.
///
/// The line of an entry is the canonical line of a piece, after `fence` if it is fenced, or that of other bytes as in a
/// portal, `unknown CODE (FAULT), 64 bytes DIGITS`. The records begin at the first slot whose byte 7 is 0, and whose
/// byte 0 is not 0 or whose bytes 8 to 31 are all 0; or when fewer than 64 bytes are left. A record has the line
/// `# record K at ADDRESS`. If it is not all zero, `: status S, N finished` follows, S in hexadecimal, and if it has
/// more, also `, 32 bytes DIGITS`. Bytes whose byte 7 is not 0 can be no record; their line is `unknown record K at
/// ADDRESS, 32 bytes DIGITS`, which is no comment.
///
/// # Errors
/// [`EmissionFault::StagingLength`] if the length is no multiple of 32; else [`EmittedFault::Memory`] at the first
/// allocation that fails.
pub fn disassemble_staging(alloc: Global, bytes: &[u8], at: u64) -> Result<String, EmittedFault>
    requires { at ≤ 2 ^ 63 }
    ensures answer { IfOk result (λ text. (es : List StagedEntry) × (rs : List (List ℕ)) ×
        IsStaging bytes.now es rs × (string_bytes text ≡ staging_text at es rs)) }
    ensures only { (es : List StagedEntry) (rs : List (List ℕ)) → IsStaging bytes.now es rs →
        MatchResult result
        (λ text. string_bytes text ≡ staging_text at es rs) (λ fault. fault ≡ Memory) }
    ensures fault { IfErr result (IsFirstStagingFault bytes.now) }
    ensures refused { (fault : EmittedFault) →
        fault ≢ Memory → IsFirstStagingFault bytes.now fault →
        MatchResult result (λ _. ⊥) (λ other. (other ≡ fault) ⊎ (other ≡ Memory)) }
{
    text_of_staging(alloc, bytes, at)
}
