//! A tracker in an array of words that the caller holds. Whatever the words are, each call is safe,
//! and a refusal leaves them as they were. The answers are a tracker's if the words are.

ghost use Rattle.std.specs.Prelude.{◌≡◌, ◌↔◌, ℕ, ◌+◌, ◌*◌, ◌<◌, ◌≤◌, ◌⊎◌, ◌++◌, None, IfOk, IsTrue, MatchResult, flat_map, length, min, replicate, slice_get};
ghost use Rattle.dsa_emission.specs.Emission.{batched_count};
ghost use Rattle.dsa_flight.specs.Spans.{staged_writes};
ghost use Rattle.dsa_tracker.specs.Calls.{AreAddressable, CanKeep, CanKeepList, IsCompleteFault, IsListFault, IsRefused, IsSpanFault, IsWithdrawFault, Retires, Submits, owner_with};
ghost use Rattle.dsa_tracker.specs.Groups.{CanTakeGroups, IsGroupsFault, SubmitsInTurn, free_count, group_reads, group_writes};
ghost use Rattle.dsa_tracker.specs.Head.{IsHeadOf};
ghost use Rattle.dsa_tracker.specs.Sets.{Has};
ghost use Rattle.dsa_tracker.specs.Table.{ConflictsWith, IsExactly, IsHeld, IsReady, WaitsFor};
ghost use Rattle.dsa_tracker.specs.Words.{AreMeasures, IsShapedIn, IsTracker, RefusesIn, owner_in, room_in, shown_in, table_in, words_needed};

use crate::board::{Board, first_free, free_slots};
use crate::fault::{TrackFault, WordsFault};
use crate::grid::{Grid, Shape};
use crate::groups::{Before, check_groups, own_pieces, staged_spans};
use crate::head::{HEAD_LEN, Head, are_measures, needed, read_head, write_head};
use crate::limits::{list_fault, span_fault};
use crate::owner::{Owner, expected_owner};
use crate::parts::{conflicts_in, keep_list_in, keep_spans_in, release_in, take_in, waits_at_in};
use crate::slots::Slots;
use crate::submitted::{Retired, Submitted};
use crate::tracked::Tracked;
use dsa_descriptor::Span;
use dsa_settings::Plan;
use std::alloc::{AllocError, Global};

/// The head of a tracker all of whose slots are free.
fn first_head(slots: u32, room: u32, log2_rows: u32, log2_unit: u32) -> Head
    requires { AreMeasures slots room log2_rows log2_unit }
    ensures slots { result.slots ≡ slots }
    ensures room { result.room ≡ room }
    ensures width { result.shape.width ≡ 2 * room + 1 }
    ensures rows { result.shape.grid.log2_rows ≡ log2_rows }
    ensures unit { result.shape.grid.log2_unit ≡ log2_unit }
    ensures board { (s : ℕ) → ¬ (Has result.board.outstanding s ⊎ Has result.board.blocked s) }
    ensures owner { result.owner ≡ None }
{
    Head {
        slots: slots as usize,
        room,
        shape: Shape {
            width: 2 * room as usize + 1,
            grid: Grid {
                log2_rows,
                log2_unit,
            },
        },
        board: Board {
            outstanding: Slots::EMPTY,
            blocked: Slots::EMPTY,
            wide: Slots::EMPTY,
        },
        owner: None,
    }
}

/// Makes the words a tracker with so many slots, for submissions that read at most `room` spans
/// and write at most `room` spans. The other measures are powers of two: the number of rows (8,192
/// do for most), and the length of the pieces that addresses are cut into for a first look. They
/// change no answer.
///
/// # Errors
/// A measure is outside its limits, or there are fewer words than it takes.
pub fn begin(
    words: &mut [u64],
    slots: u32,
    room: u32,
    log2_rows: u32,
    log2_unit: u32,
) -> Result<(), WordsFault>
    ensures { MatchResult result
        (λ _. AreMeasures slots room log2_rows log2_unit ×
        (words_needed slots room log2_rows ≤ length words.old) × IsTracker words.new ×
        (table_in words.new ≡
        record { slots = replicate slots None; room = room; owner = None }))
        (λ f. (f ≡ WordsFault.NotATracker) × (¬ (AreMeasures slots room log2_rows log2_unit ×
        (words_needed slots room log2_rows ≤ length words.old))) × (words.new ≡ words.old)) }
{
    let (count, spans) = (slots as usize, room as usize);
    if !are_measures(count, spans, log2_rows as usize, log2_unit as usize) {
        return Err(WordsFault::NotATracker);
    }
    let len = needed(count, spans, log2_rows as usize);
    if words.len() < len {
        return Err(WordsFault::NotATracker);
    }
    let head = first_head(slots, room, log2_rows, log2_unit);
    let (front, body) = words.split_at_mut(HEAD_LEN);
    write_head(front, head);
    body[..len - HEAD_LEN].fill(0);
    Ok(())
}

/// Words that are a tracker of these measures, as [`begin`] makes them.
///
/// # Errors
/// An allocation failed.
pub fn begun(
    alloc: Global,
    slots: u32,
    room: u32,
    log2_rows: u32,
    log2_unit: u32,
) -> Result<Vec<u64>, AllocError>
    requires { AreMeasures slots room log2_rows log2_unit }
    ensures { IfOk result (λ words. IsTracker words.items × (table_in words.items ≡
        record { slots = replicate slots None; room = room; owner = None })) }
{
    let len = needed(slots as usize, room as usize, log2_rows as usize);
    let mut words = vec![in alloc; 0; len]?;
    let _ = begin(&mut words, slots, room, log2_rows, log2_unit);
    Ok(words)
}

/// Takes a submission that reads and writes these spans. It waits for the outstanding ones that it conflicts with, and
/// for those of `also` that are outstanding.
///
/// # Errors
/// The first cause: the words are no tracker's, no slot is free, there are too many spans, a span of `reads` and then
/// `writes` goes past 2^64.
pub fn submit_spans(
    words: &mut [u64],
    reads: &[Span],
    writes: &[Span],
    also: Slots,
) -> Result<Submitted, WordsFault>
    ensures { MatchResult result
        (λ s. IsShapedIn words.old × IsShapedIn words.new ×
        CanKeep (room_in words.old) reads.now writes.now × (IsTracker words.old →
        IsTracker words.new × Submits (table_in words.old) reads.now writes.now also
        (owner_in words.old) s (table_in words.new)))
        (λ f. RefusesIn words.old f (λ g. IsRefused (table_in words.old) g
        (IsSpanFault (room_in words.old) reads.now writes.now g)) ×
        (words.new ≡ words.old)) }
{
    let Some(head) = read_head(words) else {
        return Err(WordsFault::NotATracker);
    };
    let Some(slot) = first_free(head.board.outstanding, head.slots) else {
        return Err(WordsFault::Track(TrackFault::NoSlot));
    };
    if let Some(fault) = span_fault(head.room, reads, writes) {
        return Err(WordsFault::Track(fault));
    }
    keep_spans_in(words, head, slot, reads, writes);
    let waits = take_in(words, head, slot, also, head.owner);
    Ok(Submitted { slot, waits })
}

/// Takes a submission of these pieces, whose staging area (its batch descriptors and batch records) counts as written.
/// It waits for the outstanding ones that it conflicts with, and for those of `also` that are outstanding.
///
/// # Errors
/// The first cause: the words are no tracker's, no slot is free, there are too many pieces, the staging area goes past
/// 2^64, a piece has another owner than the first piece that came.
pub fn submit<P: Tracked>(
    words: &mut [u64],
    pieces: &[P],
    staging: Span,
    also: Slots,
) -> Result<Submitted, WordsFault>
    ensures { let owner = owner_with P.owner (owner_in words.old) pieces.now in
        MatchResult result
        (λ s. IsShapedIn words.old × IsShapedIn words.new ×
        CanKeepList P.owner (room_in words.old) owner pieces.now staging × (IsTracker words.old →
        IsTracker words.new × Submits (table_in words.old) (flat_map P.reads pieces.now)
        (staged_writes P.writes staging pieces.now) also owner s (table_in words.new)))
        (λ f. RefusesIn words.old f (λ g. IsRefused (table_in words.old) g
        (IsListFault P.owner (room_in words.old) owner pieces.now staging g)) ×
        (words.new ≡ words.old)) }
{
    let Some(head) = read_head(words) else {
        return Err(WordsFault::NotATracker);
    };
    let Some(slot) = first_free(head.board.outstanding, head.slots) else {
        return Err(WordsFault::Track(TrackFault::NoSlot));
    };
    let owner = expected_owner(head.owner, pieces);
    if let Some(fault) = list_fault(head.room, owner, pieces, staging) {
        return Err(WordsFault::Track(fault));
    }
    Ok(take_list(words, head, slot, pieces, &[staging], also, owner))
}

/// Takes the first free slot for these pieces and these staging bytes, and has this owner then.
fn take_list<P: Tracked>(
    words: &mut [u64],
    head: Head,
    slot: u32,
    pieces: &[P],
    staged: &[Span],
    also: Slots,
    owner: Option<Owner>,
) -> Submitted
    requires shaped { IsShapedIn words.old }
    requires head { IsHeadOf words.old head }
    requires within { slot < head.slots }
    requires free { ¬ Has head.board.outstanding slot }
    requires before { (k : ℕ) → k < slot → Has head.board.outstanding k }
    requires room { 3 * length pieces.now + length staged.now ≤ head.room }
    requires addressable { AreAddressable staged.now }
    ensures slot { result.slot ≡ slot }
    ensures shaped { IsShapedIn words.new }
    ensures room { room_in words.new ≡ room_in words.old }
    ensures count { free_count (shown_in words.new) + 1 ≡ free_count (shown_in words.old) }
    ensures call { IsTracker words.old → IsTracker words.new ×
        Submits (table_in words.old) (flat_map P.reads pieces.now)
        (staged.now ++ flat_map P.writes pieces.now) also owner result (table_in words.new) }
{
    keep_list_in(words, head, slot, pieces, staged);
    let waits = take_in(words, head, slot, also, owner);
    Submitted { slot, waits }
}

/// Takes the groups of a plan that can be taken, `total` pieces of which are in batches.
fn take_groups<P: Tracked>(
    words: &mut [u64],
    pieces: &[P],
    plan: &Plan,
    staging: u64,
    total: usize,
    also: Slots,
    slots: &mut [u32],
)
    requires shaped { IsShapedIn words.old }
    requires can { CanTakeGroups P.owner (room_in words.old)
        (min (free_count (shown_in words.old)) (length slots.old))
        (owner_with P.owner (owner_in words.old) pieces.now) pieces.now plan.now staging }
    requires total { total ≡ batched_count plan.now }
    ensures shaped { IsShapedIn words.new }
    ensures taken { IsTracker words.old → IsTracker words.new ×
        SubmitsInTurn (table_in words.old) (group_reads P.reads plan.now pieces.now)
        (group_writes P.writes staging plan.now pieces.now) also
        (owner_with P.owner (owner_in words.old) pieces.now) slots.new (length plan.now)
        (table_in words.new) }
    ensures rest { (k : ℕ) →
        length plan.now ≤ k → slice_get slots.new k ≡ slice_get slots.old k }
{
    P::are_few(pieces);
    let Some(first) = read_head(words) else {
        return;
    };
    let owner = expected_owner(first.owner, pieces);
    let mut before = Before::default();
    for (number, group) in plan.groups().iter().enumerate() {
        let own = own_pieces(pieces, before, group);
        let staged = staged_spans(staging, total, before, group);
        let Some(head) = read_head(words) else {
            return;
        };
        let Some(slot) = first_free(head.board.outstanding, head.slots) else {
            return;
        };
        let submitted = take_list(words, head, slot, own, staged.as_slice(), also, owner);
        slots[number] = submitted.slot;
        before = before.after(group);
    }
}

/// Takes the groups of a plan of these pieces one after another, each as a submission of its own: its pieces, and its
/// part of the staging area at this address, which counts as written. Each waits for the outstanding ones that it
/// conflicts with, those of earlier groups among them, and for those of `also` that are outstanding then: with all
/// slots in `also` it waits for each earlier group. `slots` begins with the slot of each group, and its rest stays.
///
/// # Errors
/// The first cause: the words are no tracker's, the plan is of another number of pieces, it has more groups than slots
/// are free or have a place in `slots`, a group may have too many spans, the staging bytes go past 2^64, a piece has
/// another owner than the first piece that came.
pub fn submit_groups<P: Tracked>(
    words: &mut [u64],
    pieces: &[P],
    plan: &Plan,
    staging: u64,
    also: Slots,
    slots: &mut [u32],
) -> Result<(), WordsFault>
    ensures answer { let owner = owner_with P.owner (owner_in words.old) pieces.now in
        let free = min (free_count (shown_in words.old)) (length slots.old) in
        MatchResult result
        (λ _. IsShapedIn words.old × IsShapedIn words.new ×
        CanTakeGroups P.owner (room_in words.old) free owner pieces.now plan.now staging ×
        (IsTracker words.old → IsTracker words.new × SubmitsInTurn (table_in words.old)
        (group_reads P.reads plan.now pieces.now)
        (group_writes P.writes staging plan.now pieces.now) also owner slots.new
        (length plan.now) (table_in words.new)))
        (λ f. RefusesIn words.old f
        (IsGroupsFault P.owner (room_in words.old) free owner pieces.now plan.now staging) ×
        (words.new ≡ words.old) × (slots.new ≡ slots.old)) }
    ensures rest { (k : ℕ) →
        length plan.now ≤ k → slice_get slots.new k ≡ slice_get slots.old k }
{
    let Some(head) = read_head(words) else {
        return Err(WordsFault::NotATracker);
    };
    let owner = expected_owner(head.owner, pieces);
    let free = free_slots(head.board, head.slots).min(slots.len());
    match check_groups(head.room, free, owner, pieces, plan, staging) {
        Ok(end) => {
            take_groups(words, pieces, plan, staging, end.batched, also, slots);
            Ok(())
        }
        Err(fault) => Err(WordsFault::Track(fault)),
    }
}

/// The outstanding submissions that conflict with accesses to these spans, also with accesses of the host: if there are
/// none, the accesses may be done at once.
///
/// # Errors
/// The words are no tracker's.
pub fn ask(words: &[u64], reads: &[Span], writes: &[Span]) -> Result<Slots, WordsFault>
    ensures { MatchResult result
        (λ set. IsShapedIn words.now × (IsTracker words.now →
        IsExactly set (ConflictsWith (table_in words.now).slots reads.now writes.now)))
        (λ f. (f ≡ WordsFault.NotATracker) × (¬ IsShapedIn words.now)) }
{
    let Some(head) = read_head(words) else {
        return Err(WordsFault::NotATracker);
    };
    Ok(conflicts_in(words, head, reads, writes))
}

/// The slots that the submission of this slot waits for: with none it is ready, so it may be rung.
///
/// # Errors
/// The words are no tracker's, or the slot has no outstanding submission.
pub fn waits(words: &[u64], slot: u32) -> Result<Slots, WordsFault>
    ensures { MatchResult result
        (λ set. IsShapedIn words.now × IsHeld (table_in words.now).slots slot ×
        IsExactly set (λ s. WaitsFor (table_in words.now).slots s slot))
        (λ f. RefusesIn words.now f (IsWithdrawFault (table_in words.now) slot)) }
{
    let Some(head) = read_head(words) else {
        return Err(WordsFault::NotATracker);
    };
    match waits_at_in(words, head, slot) {
        Some(waits) => Ok(waits),
        None => Err(WordsFault::Track(TrackFault::NotOutstanding(slot))),
    }
}

/// Whether the submission of this slot is outstanding and waits for none, so that it may be rung.
///
/// # Errors
/// The words are no tracker's.
pub fn is_ready(words: &[u64], slot: u32) -> Result<bool, WordsFault>
    ensures { MatchResult result
        (λ b. IsShapedIn words.now × (IsTrue b ↔ IsReady (table_in words.now).slots slot))
        (λ f. (f ≡ WordsFault.NotATracker) × (¬ IsShapedIn words.now)) }
{
    let Some(head) = read_head(words) else {
        return Err(WordsFault::NotATracker);
    };
    match waits_at_in(words, head, slot) {
        Some(waits) => Ok(waits.is_empty()),
        None => Ok(false),
    }
}

/// Takes a submission off that was ready, and has ended.
///
/// # Errors
/// The words are no tracker's, or the slot has no outstanding submission, or one that still waits.
pub fn complete(words: &mut [u64], slot: u32) -> Result<Retired, WordsFault>
    ensures { MatchResult result
        (λ r. IsShapedIn words.old × IsShapedIn words.new ×
        IsReady (table_in words.old).slots slot × (IsTracker words.old →
        IsTracker words.new × Retires (table_in words.old) slot r (table_in words.new)))
        (λ f. RefusesIn words.old f (IsCompleteFault (table_in words.old) slot) ×
        (words.new ≡ words.old)) }
{
    let Some(head) = read_head(words) else {
        return Err(WordsFault::NotATracker);
    };
    let Some(waits) = waits_at_in(words, head, slot) else {
        return Err(WordsFault::Track(TrackFault::NotOutstanding(slot)));
    };
    if !waits.is_empty() {
        return Err(WordsFault::Track(TrackFault::Held(slot)));
    }
    Ok(release_in(words, head, slot))
}

/// Takes a submission off that was not rung.
///
/// # Errors
/// The words are no tracker's, or the slot has no outstanding submission.
pub fn withdraw(words: &mut [u64], slot: u32) -> Result<Retired, WordsFault>
    ensures { MatchResult result
        (λ r. IsShapedIn words.old × IsShapedIn words.new ×
        IsHeld (table_in words.old).slots slot × (IsTracker words.old →
        IsTracker words.new × Retires (table_in words.old) slot r (table_in words.new)))
        (λ f. RefusesIn words.old f (IsWithdrawFault (table_in words.old) slot) ×
        (words.new ≡ words.old)) }
{
    let Some(head) = read_head(words) else {
        return Err(WordsFault::NotATracker);
    };
    let Some(_waits) = waits_at_in(words, head, slot) else {
        return Err(WordsFault::Track(TrackFault::NotOutstanding(slot)));
    };
    Ok(release_in(words, head, slot))
}
