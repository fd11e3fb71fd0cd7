//! The text of a portal, from its bytes.

ghost use Rattle.std.specs.Prelude.{◌≡◌, ◌≢◌, ◌⊎◌, ◌++◌, ◌∷◌, [], List, IfOk, IfErr, OnOk, MatchResult, codes, decimal, string_bytes};
ghost use Rattle.hex.specs.Hex.{encode_lower};
ghost use Rattle.dsa_lines.specs.declared.fault.EmittedFault.{EmittedFault};
ghost use Rattle.dsa_lines.specs.declared.fault.EmittedFault.TheVariants.{Memory};
ghost use Rattle.dsa_lines.specs.Portals.{Submission, Submits, IsPortal, IsFirstPortalFault, batch_words, other_words, submission_text, portal_text, why};
ghost use Rattle.dsa_lines.specs.Numbers.{hex};
ghost use Rattle.dsa_lines.specs.Text.{text_of};

use crate::fault::EmittedFault;
use crate::writing::{line_of, push_record};
use dsa_descriptor::{FieldFault, u32_at, u64_at};
use dsa_emission::EmissionFault;
use dsa_operations::Operation;
use std::alloc::{AllocError, Global};

/// The operation code of a batch descriptor.
const BATCH: u8 = 1;

/// The line of a batch up to its record.
fn batch_front(alloc: Global, count: u32, list_at: u64) -> Result<String, AllocError>
    ensures { IfOk result (λ line. string_bytes line ≡ codes "batch of " ++
        (decimal count ++ (codes " at " ++ hex list_at))) }
{
    format!(in alloc; "batch of {count} at 0x{list_at:x}")
}

/// The line of a batch.
fn batch_text(alloc: Global, count: u32, list_at: u64, record_at: u64) -> Result<String, AllocError>
    ensures { IfOk result (λ line. string_bytes line ≡
        text_of (batch_words count list_at record_at)) }
{
    let mut line = batch_front(alloc, count, list_at)?;
    push_record(alloc, &mut line, record_at)?;
    Ok(line)
}

/// The operation code of other bytes, and why they are no operation.
fn other_front(alloc: Global, code: u8, fault: FieldFault) -> Result<String, AllocError>
    ensures { IfOk result (λ line. string_bytes line ≡ codes "unknown " ++
        (hex code ++ (codes " " ++ why fault))) }
{
    let name = fault.name();
    format!(in alloc; "unknown 0x{code:x} ({name})")
}

/// The line of other bytes.
pub(crate) fn other_text(
    alloc: Global,
    entry: &[u8; 64],
    fault: FieldFault,
) -> Result<String, AllocError>
    ensures { IfOk result (λ line. string_bytes line ≡ text_of (other_words entry.now fault)) }
{
    let mut line = other_front(alloc, entry[7], fault)?;
    let digits = hex::encode(alloc, *entry)?;
    line.push_str(", 64 bytes ")?;
    line.push_str(&digits)?;
    Ok(line)
}

/// The line of an entry.
fn entry_text(alloc: Global, entry: &[u8; 64]) -> Result<String, AllocError>
    ensures { IfOk result (λ line. (s : Submission) × Submits entry.now s ×
        (string_bytes line ≡ submission_text s)) }
{
    if entry[7] == BATCH {
        let (list_at, record_at) = (u64_at(entry, 16), u64_at(entry, 8));
        return batch_text(alloc, u32_at(entry, 32), list_at, record_at);
    }
    match Operation::read(entry) {
        Ok(operation) => line_of(alloc, &operation),
        Err(fault) => other_text(alloc, entry, fault),
    }
}

/// Writes the line and a newline at the end.
pub(crate) fn push_line(text: &mut String, line: &str) -> Result<(), AllocError>
    ensures { OnOk result (string_bytes text.new ≡
        string_bytes text.old ++ (line.now ++ 10 ∷ [])) }
{
    text.push_str(line)?;
    text.push_str("\n")
}

/// Writes the line of an entry at the end.
fn push_entry(alloc: Global, text: &mut String, entry: &[u8; 64]) -> Result<(), AllocError>
    ensures { OnOk result ((s : Submission) × Submits entry.now s ×
        (string_bytes text.new ≡ string_bytes text.old ++ (submission_text s ++ 10 ∷ []))) }
{
    let line = entry_text(alloc, entry)?;
    push_line(text, &line)
}

/// A line for each entry.
fn text_of_portal(alloc: Global, bytes: &[u8]) -> Result<String, EmittedFault>
    ensures ok { IfOk result (λ text. (ss : List Submission) × IsPortal bytes.now ss ×
        (string_bytes text ≡ portal_text ss)) }
    ensures err { IfErr result (IsFirstPortalFault bytes.now) }
{
    let (all, rest) = bytes.as_chunks::<64>();
    if !rest.is_empty() {
        return Err(EmittedFault::Emission(EmissionFault::PortalLength));
    }
    let mut text = String::new(alloc);
    for entry in all {
        push_entry(alloc, &mut text, entry)?;
    }
    Ok(text)
}

/// The text of a portal: a line for each entry, `batch of COUNT at ADDRESS, record ADDRESS`, the canonical line of an
/// operation, or `unknown CODE (FAULT), 64 bytes DIGITS` of an entry that is neither.
///
/// # Errors
/// [`EmissionFault::PortalLength`] if the length is no multiple of 64; else [`EmittedFault::Memory`] at the first
/// allocation that fails.
pub fn disassemble_portal(alloc: Global, bytes: &[u8]) -> Result<String, EmittedFault>
    ensures answer { IfOk result (λ text. (ss : List Submission) × IsPortal bytes.now ss ×
        (string_bytes text ≡ portal_text ss)) }
    ensures only { (ss : List Submission) → IsPortal bytes.now ss → MatchResult result
        (λ text. string_bytes text ≡ portal_text ss) (λ fault. fault ≡ Memory) }
    ensures fault { IfErr result (IsFirstPortalFault bytes.now) }
    ensures refused { (fault : EmittedFault) →
        fault ≢ Memory → IsFirstPortalFault bytes.now fault →
        MatchResult result (λ _. ⊥) (λ other. (other ≡ fault) ⊎ (other ≡ Memory)) }
{
    text_of_portal(alloc, bytes)
}
