//! Submissions handed to a tracker in the caller's words.

ghost use Rattle.std.specs.Prelude.{◌≡◌, ◌≢◌, ◌<◌, None, MatchResult, length, map, replicate};
ghost use Rattle.dsa_descriptor.specs.Spans.{span};
ghost use Rattle.dsa_tracker.specs.Words.{IsTracker, table_in};
ghost use Rattle.dsa_c.specs.Planning.{RefusesToPlan};
ghost use Rattle.dsa_c.specs.Tracking.{ArePiecesUnder, CanBegin, RefusesAsTracked, RefusesGroups, RefusesList, RefusesSpans, TakesGroups, TakesList, TakesPieces, TakesSpans, begin_refusal, measure_at_fault, slots_of, submitted_of, track_refusal_of};

use crate::refusal::{RawRefusal, first_two, refusal, refusal_at};
use crate::settings::{RawSettings, are_settings, settings_of, settings_refusal, staged_at};
use dsa_calls::{PlanFault, own_pieces};
use dsa_descriptor::Span;
use dsa_lists::{AnyPieces, any_pieces};
use dsa_operations::Operation;
use dsa_plan::read_submitted;
use dsa_tracker::{Slots, Submitted, Tracked, WordsFault, words};
use std::alloc::Global;

/// The refusal of this cause.
pub(crate) fn track_refusal(fault: WordsFault) -> RawRefusal
    ensures value { result ≡ track_refusal_of fault }
    ensures some { 0 < result.number }
{
    let (first, second) = first_two(fault.indices());
    refusal_at(u32::from(fault.number()), first, second)
}

/// Which measure of a new tracker is outside its limits, by its place in the call; 5, the words, if none is.
fn measure_at_fault(slots: u32, log2_rows: u32, log2_unit: u32) -> u64
    ensures { result ≡ measure_at_fault slots log2_rows log2_unit }
{
    if slots > 64 {
        return 1;
    }
    if log2_rows == 0 || log2_rows > 32 {
        return 3;
    }
    if log2_unit == 0 || log2_unit > 63 {
        return 4;
    }
    5
}

/// Makes the words a tracker with so many slots, for submissions of at most so many spans that they read, and that
/// they write. It allocates nothing. It returns 0 then; else it returns 126, and has written only `refusal`, whose
/// first index is the place of the measure that is outside its limits, or 5 if there are too few words.
#[unsafe(no_mangle)]
pub extern "C" fn dsa_track_begin(
    words: &mut [u64],
    slots: u32,
    spans: u32,
    log2_rows: u32,
    log2_unit: u32,
    refusal: &mut RawRefusal,
) -> u32
    ensures begun { result ≡ 0 →
        CanBegin slots spans log2_rows log2_unit (length words.old) × IsTracker words.new
        × (table_in words.new ≡
        record { slots = replicate slots None; room = spans; owner = None }) }
    ensures refused { result ≢ 0 → (result ≡ refusal.new.number)
        × (refusal.new ≡ begin_refusal slots log2_rows log2_unit)
        × (¬ CanBegin slots spans log2_rows log2_unit (length words.old)) }
    ensures unchanged { result ≢ 0 → words.new ≡ words.old }
    ensures quiet { result ≡ 0 → refusal.new ≡ refusal.old }
{
    match words::begin(words, slots, spans, log2_rows, log2_unit) {
        Ok(()) => 0,
        Err(fault) => {
            let measure = measure_at_fault(slots, log2_rows, log2_unit);
            let cause = refusal_at(u32::from(fault.number()), measure, 0);
            *refusal = cause;
            cause.number
        }
    }
}

/// The pieces of a list as planning splits it, whatever they are. Not inlined: settings take 8 KiB, and most lists
/// have their pieces without.
#[inline(never)]
fn split_pieces(
    alloc: Global,
    settings: &RawSettings,
    table: &[u64],
    list: &[u8],
) -> Result<AnyPieces, RawRefusal>
    ensures { let s = settings.now in let t = table.now in MatchResult result
        (ArePiecesUnder s t list.now) (λ r. (0 < r.number) × RefusesToPlan s t list.now r) }
{
    let Some(checked) = settings_of(settings, table) else {
        return Err(settings_refusal(settings));
    };
    match any_pieces(alloc, list, &checked) {
        Ok(pieces) => Ok(pieces),
        Err(fault) => Err(refusal(fault)),
    }
}

/// The pieces of a list, or why it has none.
fn pieces_for(
    alloc: Global,
    settings: &RawSettings,
    table: &[u64],
    list: &[u8],
) -> Result<AnyPieces, RawRefusal>
    ensures { let s = settings.now in let t = table.now in MatchResult result
        (ArePiecesUnder s t list.now) (λ r. (0 < r.number) × RefusesToPlan s t list.now r) }
{
    if !are_settings(settings, table) {
        return split_pieces(alloc, settings, table, list);
    }
    match own_pieces(alloc, list, settings.greatest_transfer, settings.staging) {
        Ok(Some(pieces)) => Ok(AnyPieces::Descriptors(pieces)),
        Ok(None) => split_pieces(alloc, settings, table, list),
        Err(_) => Err(refusal(PlanFault::Memory)),
    }
}

/// Hands a submission of these pieces to the tracker.
fn submit_pieces<P: Tracked>(
    words: &mut [u64],
    pieces: &[P],
    staging: Span,
    also: Slots,
) -> Result<Submitted, RawRefusal>
    ensures { MatchResult result
        (λ taken. TakesPieces P.owner P.reads P.writes
        words.old pieces.now staging also taken words.new)
        (λ r. (0 < r.number) × RefusesAsTracked P.owner words.old pieces.now staging r
        × (words.new ≡ words.old)) }
{
    match words::submit(words, pieces, staging, also) {
        Ok(submitted) => Ok(submitted),
        Err(fault) => Err(track_refusal(fault)),
    }
}

/// Hands a submission of the pieces of the operations that the bytes spell to the tracker.
fn take_list(
    alloc: Global,
    words: &mut [u64],
    settings: &RawSettings,
    table: &[u64],
    list: &[u8],
    staging: Span,
    also: Slots,
) -> Result<Submitted, RawRefusal>
    ensures { let s = settings.now in let t = table.now in MatchResult result
        (λ taken. TakesList s t words.old list.now staging also taken words.new)
        (λ r. (0 < r.number) × RefusesList s t words.old list.now staging r
        × (words.new ≡ words.old)) }
{
    let staged = staged_at(settings, staging.first);
    match pieces_for(alloc, &staged, table, list) {
        Ok(AnyPieces::Descriptors(pieces)) => submit_pieces(words, &pieces, staging, also),
        Ok(AnyPieces::Operations(pieces)) => submit_pieces(words, &pieces, staging, also),
        Err(cause) => Err(cause),
    }
}

/// Takes a submission that reads and writes these spans: writes its slot to `slot`, and the slots of those that it
/// waits for to `waits`, a bit for each. It allocates nothing. It returns 0 then; else it returns the number of the
/// refusal, and has written only `refusal`.
#[unsafe(no_mangle)]
pub extern "C" fn dsa_track_spans(
    words: &mut [u64],
    reads: &[Span],
    writes: &[Span],
    also: u64,
    slot: &mut u32,
    waits: &mut u64,
    refusal: &mut RawRefusal,
) -> u32
    ensures taken { result ≡ 0 → TakesSpans words.old reads.now writes.now
        (slots_of also) (submitted_of slot.new waits.new) words.new }
    ensures refused { result ≢ 0 → (result ≡ refusal.new.number)
        × RefusesSpans words.old reads.now writes.now refusal.new }
    ensures unchanged { result ≢ 0 →
        (words.new ≡ words.old) × (slot.new ≡ slot.old) × (waits.new ≡ waits.old) }
    ensures quiet { result ≡ 0 → refusal.new ≡ refusal.old }
{
    match words::submit_spans(words, reads, writes, Slots(also)) {
        Ok(submitted) => {
            *slot = submitted.slot;
            *waits = submitted.waits.0;
            0
        }
        Err(fault) => {
            let cause = track_refusal(fault);
            *refusal = cause;
            cause.number
        }
    }
}

/// Takes a submission of a list, whose staging area counts as written: of the pieces that its operations are split into
/// under these settings with the staging address of the call, whether or not operations have the flag 0x0001, fence.
/// Writes its slot to `slot`, and the slots of those that it waits for to `waits`, a bit for each. It returns 0 then;
/// else it returns the number of the refusal, and has written only `refusal`.
#[unsafe(no_mangle)]
pub extern "C" fn dsa_track_list(
    alloc: Global,
    words: &mut [u64],
    settings: &RawSettings,
    table: &[u64],
    list: &[u8],
    staging: u64,
    staging_len: u64,
    also: u64,
    slot: &mut u32,
    waits: &mut u64,
    refusal: &mut RawRefusal,
) -> u32
    ensures taken { result ≡ 0 → TakesList settings.now table.now words.old list.now
        (span staging staging_len) (slots_of also) (submitted_of slot.new waits.new) words.new }
    ensures refused { result ≢ 0 → (result ≡ refusal.new.number)
        × RefusesList settings.now table.now words.old list.now (span staging staging_len)
        refusal.new }
    ensures unchanged { result ≢ 0 →
        (words.new ≡ words.old) × (slot.new ≡ slot.old) × (waits.new ≡ waits.old) }
    ensures quiet { result ≡ 0 → refusal.new ≡ refusal.old }
{
    let area = Span {
        first: staging,
        len: staging_len,
    };
    match take_list(alloc, words, settings, table, list, area, Slots(also)) {
        Ok(submitted) => {
            *slot = submitted.slot;
            *waits = submitted.waits.0;
            0
        }
        Err(cause) => {
            *refusal = cause;
            cause.number
        }
    }
}

/// Hands the groups that these bytes submit to the tracker, one after another.
fn take_groups(
    alloc: Global,
    words: &mut [u64],
    settings: &RawSettings,
    table: &[u64],
    portal: &[u8],
    staging: &[u8],
    also: Slots,
    slots: &mut [u32],
) -> Result<(), RawRefusal>
    ensures { let s = settings.now in let t = table.now in
        let places = slots.old in
        MatchResult result
        (λ _. TakesGroups s t words.old portal.now staging.now also places slots.new words.new)
        (λ r. (0 < r.number)
        × RefusesGroups s t words.old portal.now staging.now (length places) r
        × (words.new ≡ words.old) × (slots.new ≡ slots.old)) }
{
    let Some(limits) = settings_of(settings, table) else {
        return Err(settings_refusal(settings));
    };
    let (plan, pieces) = match read_submitted::<Operation>(alloc, portal, staging, &limits) {
        Ok(read) => read,
        Err(fault) => return Err(refusal(PlanFault::from(fault))),
    };
    match words::submit_groups(words, &pieces, &plan, settings.staging, also, slots) {
        Ok(()) => Ok(()),
        Err(fault) => Err(track_refusal(fault)),
    }
}

/// Takes each entry of a portal as a submission of its own, in their order: its pieces, and what it names of the
/// staging area, which counts as written. Writes the slot of each entry to the front of `slots`, whose rest stays. It
/// returns 0 then; else it returns the number of the refusal, and has written only `refusal`.
#[unsafe(no_mangle)]
pub extern "C" fn dsa_track_groups(
    alloc: Global,
    words: &mut [u64],
    settings: &RawSettings,
    table: &[u64],
    portal: &[u8],
    staging: &[u8],
    also: u64,
    slots: &mut [u32],
    refusal: &mut RawRefusal,
) -> u32
    ensures taken { result ≡ 0 → TakesGroups settings.now table.now words.old portal.now
        staging.now (slots_of also) slots.old slots.new words.new }
    ensures refused { result ≢ 0 → (result ≡ refusal.new.number)
        × RefusesGroups settings.now table.now words.old portal.now staging.now
        (length slots.old) refusal.new }
    ensures unchanged { result ≢ 0 → (words.new ≡ words.old) × (slots.new ≡ slots.old) }
    ensures quiet { result ≡ 0 → refusal.new ≡ refusal.old }
{
    match take_groups(
        alloc,
        words,
        settings,
        table,
        portal,
        staging,
        Slots(also),
        slots,
    ) {
        Ok(()) => 0,
        Err(cause) => {
            *refusal = cause;
            cause.number
        }
    }
}
