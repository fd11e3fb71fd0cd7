//! The sentence of a fence, or of a group's beginning.

ghost use Rattle.std.specs.Prelude.{◌≡◌, ◌++◌, [], IfOk, OnOk, Some, codes, slice_get, string_bytes, if◌then◌else◌};
ghost use Rattle.dsa_reasons.specs.Sentences.{conflict_words, fence_words, first_conflict, is_in_first, is_in_record, kind_words, more_words, named, named_words, need_words, reason_words, record_of, record_words, sentence_words};

use crate::fences::Fence;
use crate::reason::Reason;
use dsa_ranges::{HazardKind, Span, Touching};
use std::alloc::{AllocError, Global};

/// A conflict that a sentence names.
#[derive(Clone, Copy)]
pub struct NamedConflict {
    /// Its two pieces, its hazard and its address.
    pub reason: Reason,
    /// The piece whose completion record has the address, if one has; the earlier one if both have.
    pub record_of: Option<usize>,
}

/// The name of a kind of hazard.
pub fn kind_text(kind: HazardKind) -> &'static str
    ensures { result.now ≡ kind_words kind }
{
    match kind {
        HazardKind::ReadAfterWrite => "read after write",
        HazardKind::WriteAfterRead => "write after read",
        HazardKind::WriteAfterWrite => "write after write",
    }
}

/// The words of a conflict: its two pieces, the kind of hazard and the address.
fn conflict_text(alloc: Global, reason: &Reason) -> Result<String, AllocError>
    ensures { IfOk result (λ s. string_bytes s ≡ conflict_words reason.now) }
{
    let (earlier, later) = (reason.earlier, reason.later);
    let (kind, address) = (kind_text(reason.hazard.kind), reason.hazard.address);
    format!(in alloc; "{later} after {earlier}, {kind} at 0x{address:x}")
}

/// Whether the address lies in the first of the spans.
fn is_in_first(spans: &[Span], address: u64) -> bool
    ensures { result ≡ is_in_first spans.now address }
{
    match spans {
        [span, ..] => span.first <= address && address - span.first < span.len,
        [] => false,
    }
}

/// Whether the address is one of the piece's completion record, the first span that it writes.
fn is_in_record<P: Touching>(pieces: &[P], piece: usize, address: u64) -> bool
    ensures { result ≡ is_in_record P.writes (slice_get pieces.now piece) address }
{
    match pieces.get(piece) {
        Some(piece) => is_in_first(piece.touched_spans().writes.as_slice(), address),
        None => false,
    }
}

/// The piece of a conflict whose completion record has the address, if one has; the earlier one if both have.
pub fn record_of<P: Touching>(pieces: &[P], reason: &Reason) -> Option<usize>
    ensures { result ≡ record_of P.writes pieces.now reason.now }
{
    if is_in_record(pieces, reason.earlier, reason.hazard.address) {
        Some(reason.earlier)
    } else if is_in_record(pieces, reason.later, reason.hazard.address) {
        Some(reason.later)
    } else {
        None
    }
}

/// A conflict of these pieces, with the piece whose record has its address.
fn named<P: Touching>(pieces: &[P], reason: &Reason) -> NamedConflict
    ensures { result ≡ named P.writes pieces.now reason.now }
{
    NamedConflict {
        reason: *reason,
        record_of: record_of(pieces, reason),
    }
}

/// The first of the conflicts that a fence names, if it names one.
pub fn first_conflict<P: Touching>(pieces: &[P], fence: &Fence) -> Option<NamedConflict>
    ensures { result ≡ first_conflict P.writes pieces.now fence.now.named.items }
{
    match fence.named.get(0) {
        Some(reason) => Some(named(pieces, reason)),
        None => None,
    }
}

/// Writes that the address lies in a completion record, if it does.
fn push_record(alloc: Global, text: &mut String, piece: Option<usize>) -> Result<(), AllocError>
    ensures { OnOk result (string_bytes text.new ≡ string_bytes text.old ++ record_words piece) }
{
    let Some(piece) = piece else {
        return Ok(());
    };
    let words = format!(in alloc; " (record of {piece})")?;
    text.push_str(&words)
}

/// The words of a conflict, with the piece whose record has its address.
fn named_text(alloc: Global, conflict: &NamedConflict) -> Result<String, AllocError>
    ensures { IfOk result (λ s. string_bytes s ≡ named_words conflict.now) }
{
    let mut text = conflict_text(alloc, &conflict.reason)?;
    push_record(alloc, &mut text, conflict.record_of)?;
    Ok(text)
}

/// The words of a conflict of these pieces that a fence separates.
pub fn reason_text<P: Touching>(
    alloc: Global,
    pieces: &[P],
    reason: &Reason,
) -> Result<String, AllocError>
    ensures { IfOk result (λ s. string_bytes s ≡ reason_words P.writes pieces.now reason.now) }
{
    named_text(alloc, &named(pieces, reason))
}

/// What needs a fence before its first conflict.
fn barrier_text(barrier: bool) -> &'static str
    ensures { result.now ≡ if barrier then codes "a barrier, and " else [] }
{
    if barrier { "a barrier, and " } else { "" }
}

/// What needs a fence, if there is no conflict that only this fence separates.
fn alone_text(barrier: bool) -> &'static str
    ensures { result.now ≡
        if barrier then codes "a barrier" else codes "no conflict needs it alone" }
{
    if barrier {
        "a barrier"
    } else {
        "no conflict needs it alone"
    }
}

/// The words of what needs a fence: a barrier, a conflict, or both.
fn need_text(
    alloc: Global,
    barrier: bool,
    conflict: Option<NamedConflict>,
) -> Result<String, AllocError>
    ensures { IfOk result (λ s. string_bytes s ≡ need_words barrier conflict) }
{
    let Some(conflict) = conflict else {
        return String::from_str(alloc, alone_text(barrier));
    };
    let words = named_text(alloc, &conflict)?;
    let mut text = String::from_str(alloc, barrier_text(barrier))?;
    text.push_str(&words)?;
    Ok(text)
}

/// Writes how many more conflicts only this fence separates, if there are any.
fn push_more(alloc: Global, text: &mut String, more: usize) -> Result<(), AllocError>
    ensures { OnOk result (string_bytes text.new ≡ string_bytes text.old ++ more_words more) }
{
    if more == 0 {
        return Ok(());
    }
    let words = format!(in alloc; ", and {more} more")?;
    text.push_str(&words)
}

/// The sentence of a fence, or of a group's beginning: a barrier that needs it, the first conflict that it alone
/// separates, and how many more there are.
///
/// # Errors
/// [`AllocError`] at the first allocation that fails.
pub fn sentence_text(
    alloc: Global,
    barrier: bool,
    conflict: Option<NamedConflict>,
    more: usize,
) -> Result<String, AllocError>
    ensures { IfOk result (λ s. string_bytes s ≡ sentence_words barrier conflict more) }
{
    let mut text = need_text(alloc, barrier, conflict)?;
    push_more(alloc, &mut text, more)?;
    Ok(text)
}

/// The words of a fence: its sentence, with the first of the conflicts that it names and how many more there are that
/// it does not name.
///
/// # Errors
/// [`AllocError`] at the first allocation that fails.
pub fn fence_text<P: Touching>(
    alloc: Global,
    pieces: &[P],
    fence: &Fence,
) -> Result<String, AllocError>
    ensures { IfOk result (λ s. string_bytes s ≡ fence_words P.writes pieces.now fence.now) }
{
    sentence_text(
        alloc,
        fence.barrier,
        first_conflict(pieces, fence),
        fence.more,
    )
}
