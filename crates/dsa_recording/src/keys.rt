//! What findings of one kind have in common.

ghost use Rattle.std.specs.Prelude.{◌≡◌, ◌++◌, IfOk, OnOk, codes, slice_get, string_bytes};
ghost use Rattle.dsa_recording.specs.Details.{named_by};
ghost use Rattle.dsa_recording.specs.Furthers.{code_name};
ghost use Rattle.dsa_recording.specs.EntryKeys.{asked_name, batch_key, entry_key, fence_front, fence_key, fence_words, hazard_names, key_of_entry, member_key, name_or_code, operation_name};
ghost use Rattle.dsa_recording.specs.Keys.{cause_key, flaw_key, key_words, other_key, others_key, place_key};

use crate::detail::{Detail, named_by};
use crate::entry::Header;
use crate::entry_words::operation_text;
use crate::findings::{FindingKind, Flaw, Place};
use crate::further::code_name;
use crate::stream::Submission;
use crate::words::unseen_text;
use dsa_audit::Hazards;
use std::alloc::{AllocError, Global};

/// The name of an operation beyond the six of a descriptor, or its code if it has none.
fn name_or_code(alloc: Global, code: u8) -> Result<String, AllocError>
    ensures { IfOk result (λ s. string_bytes s ≡ name_or_code code (code_name code)) }
{
    let name = code_name(code);
    if name.is_empty() {
        return operation_text(alloc, code);
    }
    String::from_str(alloc, name)
}

/// The name of an operation.
fn operation_name(alloc: Global, code: u8) -> Result<String, AllocError>
    ensures { IfOk result (λ s. string_bytes s ≡ operation_name code) }
{
    match code {
        0x01 => String::from_str(alloc, "batch"),
        0x03 => String::from_str(alloc, "move"),
        0x04 => String::from_str(alloc, "fill"),
        0x05 => String::from_str(alloc, "compare"),
        0x06 => String::from_str(alloc, "compare pattern"),
        0x08 => String::from_str(alloc, "delta"),
        0x09 => String::from_str(alloc, "dualcast"),
        _ => name_or_code(alloc, code),
    }
}

/// The operation of the entry of this number, and its size.
pub(crate) fn entry_key(
    alloc: Global,
    all: &[[u8; 64]],
    number: usize,
) -> Result<String, AllocError>
    ensures { IfOk result (λ s. string_bytes s ≡ entry_key (slice_get all.now number)) }
{
    let Some(entry) = all.get(number) else {
        return Ok(String::new(alloc));
    };
    let Header { code, size, .. } = Header::of(entry);
    let name = operation_name(alloc, code)?;
    format!(in alloc; "{name}, {size} bytes")
}

/// A member of a submission whose first member is entry `first`.
fn member_key(
    alloc: Global,
    all: &[[u8; 64]],
    first: usize,
    member: usize,
) -> Result<String, AllocError>
    ensures { IfOk result (λ s. string_bytes s ≡ member_key all.now first member) }
{
    let key = entry_key(alloc, all, first.saturating_add(member))?;
    format!(in alloc; "; member {member}: {key}")
}

/// A batch of so many members.
fn batch_key(alloc: Global, size: usize) -> Result<String, AllocError>
    ensures { IfOk result (λ s. string_bytes s ≡ batch_key size) }
{
    format!(in alloc; "; batch of {size}")
}

/// An entry of a submission: a lone descriptor, the descriptor of a batch, or a member.
pub fn key_of_entry(
    alloc: Global,
    all: &[[u8; 64]],
    submission: Submission,
    entry: usize,
) -> Result<String, AllocError>
    ensures { IfOk result (λ s. string_bytes s ≡ key_of_entry all.now submission entry) }
{
    if !submission.is_batch {
        let key = entry_key(alloc, all, entry)?;
        return format!(in alloc; "; lone: {key}");
    }
    let batch = batch_key(alloc, submission.size)?;
    if entry < submission.first {
        return Ok(batch);
    }
    let member = member_key(alloc, all, submission.first, entry - submission.first)?;
    format!(in alloc; "{batch}{member}")
}

/// A member of a batch of so many members.
fn batch_member_key(
    alloc: Global,
    all: &[[u8; 64]],
    detail: &Detail,
    member: usize,
) -> Result<String, AllocError>
    ensures { IfOk result (λ s. string_bytes s ≡
        batch_key detail.now.size ++ member_key all.now detail.now.first member) }
{
    let mut text = batch_key(alloc, detail.size)?;
    text.push_str(&member_key(alloc, all, detail.first, member)?)?;
    Ok(text)
}

/// Writes what the finding is of.
fn push_place(
    alloc: Global,
    text: &mut String,
    all: &[[u8; 64]],
    detail: &Detail,
) -> Result<(), AllocError>
    ensures { OnOk result (string_bytes text.new ≡ string_bytes text.old ++
        place_key all.now detail.now detail.now.is_batch detail.now.place) }
{
    match (detail.place, detail.is_batch) {
        (Place::Head, true | false) => text.push_str(&batch_key(alloc, detail.size)?),
        (Place::Member(member), true) => {
            text.push_str(&batch_member_key(alloc, all, detail, member)?)
        }
        (Place::Member(_), false) => {
            text.push_str("; lone: ")?;
            text.push_str(&entry_key(alloc, all, detail.first)?)
        }
    }
}

/// Writes another member that the cause names.
fn push_other(
    alloc: Global,
    text: &mut String,
    all: &[[u8; 64]],
    detail: &Detail,
    member: usize,
) -> Result<(), AllocError>
    ensures { OnOk result (string_bytes text.new ≡ string_bytes text.old ++
        other_key all.now detail.now member) }
{
    if detail.first as u128 + member as u128 == detail.entry as u128 {
        return Ok(());
    }
    text.push_str(&member_key(alloc, all, detail.first, member)?)
}

/// Writes the members that the cause names.
fn push_others(
    alloc: Global,
    text: &mut String,
    all: &[[u8; 64]],
    detail: &Detail,
) -> Result<(), AllocError>
    ensures { OnOk result (string_bytes text.new ≡ string_bytes text.old ++
        others_key all.now detail.now (named_by detail.now.cause)) }
{
    let members = named_by(detail.cause);
    for member in members.as_slice() {
        push_other(alloc, text, all, detail, *member)?;
    }
    Ok(())
}

/// A name, if it is asked for.
fn asked_name(asked: bool, name: &'static str) -> &'static str
    ensures { result.now ≡ asked_name asked name.now }
{
    if asked { name } else { "" }
}

/// The names of hazards, each after a comma.
pub fn hazard_names(alloc: Global, hazards: Hazards) -> Result<String, AllocError>
    ensures { IfOk result (λ s. string_bytes s ≡ hazard_names hazards) }
{
    let first = asked_name(hazards.read_after_write, ", read after write");
    let second = asked_name(hazards.write_after_write, ", write after write");
    let third = asked_name(hazards.write_after_read, ", write after read");
    format!(in alloc; "{first}{second}{third}")
}

/// A missing fence between members with these hazards.
fn fence_words(alloc: Global, hazards: Hazards) -> Result<String, AllocError>
    ensures { IfOk result (λ s. string_bytes s ≡ fence_words hazards) }
{
    let names = hazard_names(alloc, hazards)?;
    format!(in alloc; "missing fence{names}")
}

/// The key of a missing fence before member `later` of a batch with these entries, which has these hazards with the
/// earlier one.
pub fn fence_key(
    alloc: Global,
    entries: &[[u8; 64]],
    earlier: usize,
    later: usize,
    hazards: Hazards,
) -> Result<String, AllocError>
    ensures { IfOk result (λ s. string_bytes s ≡ fence_key entries.now earlier later hazards) }
{
    let mut text = fence_words(alloc, hazards)?;
    text.push_str(&batch_key(alloc, entries.len())?)?;
    text.push_str(&member_key(alloc, entries, 0, later)?)?;
    text.push_str(&member_key(alloc, entries, 0, earlier)?)?;
    Ok(text)
}

/// What the keys begin with of missing fences before member `later` of a batch with these entries, which has these
/// hazards with an earlier one: what comes before the number of that.
pub(crate) fn fence_front(
    alloc: Global,
    entries: &[[u8; 64]],
    later: usize,
    hazards: Hazards,
) -> Result<String, AllocError>
    ensures { IfOk result (λ s. string_bytes s ≡ fence_front entries.now later hazards) }
{
    let mut text = fence_words(alloc, hazards)?;
    text.push_str(&batch_key(alloc, entries.len())?)?;
    text.push_str(&member_key(alloc, entries, 0, later)?)?;
    text.push_str("; member ")?;
    Ok(text)
}

/// What else is wrong.
fn flaw_key(flaw: Flaw) -> &'static str
    ensures { result.now ≡ flaw_key flaw }
{
    match flaw {
        Flaw::SharedRecord(_) => "shared record",
        Flaw::OverwritesBatch => "overwrites its batch",
        Flaw::DataOverRecord => "data over its own completion record",
        Flaw::MisalignedRecord => "misaligned record",
        Flaw::ReservedBytes => "reserved bytes set",
        Flaw::SmallBatch(_) => "small batch",
        Flaw::FenceWithoutEffect => "fence without effect",
    }
}

/// What is found; of a missing fence with these hazards.
fn cause_key<E: Copy>(
    alloc: Global,
    code: u8,
    hazards: Hazards,
    kind: FindingKind<E>,
) -> Result<String, AllocError>
    ensures { IfOk result (λ s. string_bytes s ≡ cause_key code hazards kind) }
{
    match kind {
        FindingKind::NotSeen(why) => unseen_text(alloc, why, code),
        FindingKind::MissingFence(_) => fence_words(alloc, hazards),
        FindingKind::GuardingFence(_) => String::from_str(alloc, "guarding fence"),
        FindingKind::SignallingFence(_) => String::from_str(alloc, "signalling fence"),
        FindingKind::GuardingAndSignallingFence(_, _) => {
            String::from_str(alloc, "guarding and signalling fence")
        }
        FindingKind::NeedlessFence => String::from_str(alloc, "needless fence"),
        FindingKind::Repeated(_) => String::from_str(alloc, "repeated operation"),
        FindingKind::Flawed(flaw) => String::from_str(alloc, flaw_key(flaw)),
    }
}

/// The key of a finding in these entries: what it is, of which operations, in a submission of how many members. It has
/// no address, so findings of one kind in like batches have one key, in another run too.
pub fn key_text(alloc: Global, all: &[[u8; 64]], detail: &Detail) -> Result<String, AllocError>
    ensures { IfOk result (λ s. string_bytes s ≡ key_words all.now detail.now) }
{
    let mut text = cause_key(alloc, detail.code, detail.hazards, detail.cause)?;
    push_place(alloc, &mut text, all, detail)?;
    push_others(alloc, &mut text, all, detail)?;
    Ok(text)
}
