//! Slots that are taken and given back.

ghost use Rattle.std.specs.Prelude.{◌≡◌, ◌≢◌, ℕ, ◌+◌, ◌*◌, ◌<◌, ◌≤◌, ◌↔◌, ◌⊎◌, IsTrue, List, MatchOption, Some, length, slice_set};
ghost use Rattle.dsa_tracker.specs.Calls.{Releases};
ghost use Rattle.dsa_tracker.specs.Finding.{reads_store, writes_store};
ghost use Rattle.dsa_tracker.specs.Groups.{free_count};
ghost use Rattle.dsa_tracker.specs.Kept.{kept};
ghost use Rattle.dsa_tracker.specs.Sets.{Has, IsEmpty};
ghost use Rattle.dsa_tracker.specs.State.{IsShaped, IsState, all_shown, kept_at, waits_of};
ghost use Rattle.dsa_tracker.specs.Table.{HasToWait, IsExactly, IsReady, IsWithout, WaitsFor};

use crate::finding::Others;
use crate::grid::Shape;
use crate::kept::store;
use crate::marking::{note_slot, unmark_slot};
use crate::slots::Slots;
use crate::submitted::Retired;

/// Which slots have an outstanding submission, which of these wait for some other, and which have
/// spans of too many units to mark.
#[derive(Clone, Copy)]
pub(crate) struct Board {
    /// Those that are outstanding.
    pub outstanding: Slots,
    /// Those of them that wait.
    pub blocked: Slots,
    /// Those of them with long spans.
    pub wide: Slots,
}

impl Board {
    /// The board once the slot is taken by what waits for these, and was marked as a whole or not.
    fn with(self, slot: u32, awaited: Slots, is_whole: bool) -> Board
        requires { slot < 64 }
        ensures outstanding { (s : ℕ) →
            Has result.outstanding s ↔ (Has self.outstanding s ⊎ (s ≡ slot)) }
        ensures blocked { (s : ℕ) → Has result.blocked s ↔
            (Has self.blocked s ⊎ ((s ≡ slot) × (¬ IsEmpty awaited))) }
        ensures wide { (s : ℕ) → Has result.wide s ↔
            (Has self.wide s ⊎ ((s ≡ slot) × (¬ IsTrue is_whole))) }
    {
        let blocked = if awaited.is_empty() {
            self.blocked
        } else {
            self.blocked.with(slot)
        };
        let wide = if is_whole {
            self.wide
        } else {
            self.wide.with(slot)
        };
        Board {
            outstanding: self.outstanding.with(slot),
            blocked,
            wide,
        }
    }

    /// The board once the slot is free and these have become ready.
    fn without(self, slot: u32, ready: Slots) -> Board
        requires { slot < 64 }
        ensures outstanding { (s : ℕ) →
            Has result.outstanding s ↔ (Has self.outstanding s × (s ≢ slot)) }
        ensures blocked { (s : ℕ) → Has result.blocked s ↔
            (Has self.blocked s × (¬ Has ready s) × (s ≢ slot)) }
        ensures wide { (s : ℕ) → Has result.wide s ↔ (Has self.wide s × (s ≢ slot)) }
    {
        Board {
            outstanding: self.outstanding.without(slot),
            blocked: self.blocked.minus(ready).without(slot),
            wide: self.wide.without(slot),
        }
    }
}

/// The first free slot.
pub(crate) fn first_free(outstanding: Slots, slots: usize) -> Option<u32>
    ensures { MatchOption result ((s : ℕ) → s < slots → s < 64 → Has outstanding s)
        (λ s. (s < slots) × (s < 64) × (¬ Has outstanding s) ×
        ((k : ℕ) → k < s → Has outstanding k)) }
{
    let slot = outstanding.first_without()?;
    if slot as usize >= slots {
        return None;
    }
    Some(slot)
}

/// How many of so many slots are free.
pub(crate) fn free_slots(board: Board, slots: usize) -> usize
    requires { slots ≤ 64 }
    ensures { (width : ℕ) (waits stores : List ℕ) → length waits ≡ slots →
        result ≡ free_count (all_shown width board waits stores) }
{
    let mut free = 0;
    for slot in 0..slots {
        if !board.outstanding.contains(slot as u32) {
            free += 1;
        }
    }
    free
}

/// What the submission of the slot waits for, if it is outstanding.
pub(crate) fn waits_at(outstanding: Slots, waits: &[u64], slot: u32) -> Option<Slots>
    requires { (s : ℕ) → Has outstanding s → s < length waits.now }
    ensures { MatchOption result (¬ Has outstanding slot)
        (λ w. Has outstanding slot × (w ≡ waits_of waits.now slot)) }
{
    if !outstanding.contains(slot) {
        return None;
    }
    Some(Slots(waits[slot as usize]))
}

/// Takes the free slot for what its stores keep, and answers what that waits for.
pub(crate) fn take(
    board: &mut Board,
    waits: &mut [u64],
    rows: &mut [u64],
    stores: &[u64],
    shape: Shape,
    slot: u32,
    also: Slots,
) -> Slots
    requires shaped { IsShaped board.old waits.old stores.now rows.old shape }
    requires within { slot < length waits.old }
    requires free { ¬ Has board.old.outstanding slot }
    ensures waits { IsState board.old waits.old stores.now rows.old shape →
        IsExactly result (HasToWait (all_shown shape.width board.old waits.old
        stores.now) (kept (reads_store shape.width stores.now slot))
        (kept (writes_store shape.width stores.now slot)) also) }
    ensures slots { all_shown shape.width board.new waits.new stores.now ≡ slice_set
        (all_shown shape.width board.old waits.old stores.now) slot
        (Some (kept_at shape.width waits.new stores.now slot)) }
    ensures here { waits_of waits.new slot ≡ result }
    ensures shaped { IsShaped board.new waits.new stores.now rows.new shape }
    ensures state { IsState board.old waits.old stores.now rows.old shape →
        IsState board.new waits.new stores.now rows.new shape }
{
    let reads = store(stores, shape.width, 2 * slot as usize);
    let writes = store(stores, shape.width, 2 * slot as usize + 1);
    let named = also.intersection(board.outstanding);
    let others = Others {
        among: board.outstanding.minus(named),
        wide: board.wide,
    };
    let noted = note_slot(rows, shape, stores, others, slot, reads, writes);
    let awaited = named.union(noted.found);
    waits[slot as usize] = awaited.0;
    *board = board.with(slot, awaited, noted.is_whole);
    awaited
}

/// Those of the slots that wait for this one.
fn slots_that_wait(among: Slots, waits: &[u64], slot: u32) -> Slots
    requires { (s : ℕ) → Has among s → s < length waits.now }
    ensures { IsExactly result (λ s. Has among s × Has (waits_of waits.now s) slot) }
{
    let mut found = Slots::EMPTY;
    let mut rest = among;
    while let Some(other) = rest.take_first() {
        let awaited = Slots(waits[other as usize]);
        if awaited.contains(slot) {
            found = found.with(other);
        }
    }
    found
}

/// Takes the slot off the waits of these.
fn forget(among: Slots, waits: &mut [u64], slot: u32)
    requires few { slot < 64 }
    requires within { (s : ℕ) → Has among s → s < length waits.old }
    ensures forgets { (s : ℕ) → Has among s →
        IsWithout (waits_of waits.old s) slot (waits_of waits.new s) }
    ensures others { (s : ℕ) → ¬ Has among s → waits_of waits.new s ≡ waits_of waits.old s }
{
    let mut rest = among;
    while let Some(other) = rest.take_first() {
        let awaited = Slots(waits[other as usize]);
        waits[other as usize] = awaited.without(slot).0;
    }
}

/// Those of the slots that wait for none.
fn slots_without_waits(among: Slots, waits: &[u64]) -> Slots
    requires { (s : ℕ) → Has among s → s < length waits.now }
    ensures { IsExactly result (λ s. Has among s × IsEmpty (waits_of waits.now s)) }
{
    let mut found = Slots::EMPTY;
    let mut rest = among;
    while let Some(slot) = rest.take_first() {
        let awaited = Slots(waits[slot as usize]);
        if awaited.is_empty() {
            found = found.with(slot);
        }
    }
    found
}

/// Frees the slot, and takes it off all waits.
pub(crate) fn release(
    board: &mut Board,
    waits: &mut [u64],
    rows: &mut [u64],
    stores: &[u64],
    shape: Shape,
    slot: u32,
) -> Retired
    requires shaped { IsShaped board.old waits.old stores.now rows.old shape }
    requires held { Has board.old.outstanding slot }
    ensures released { IsState board.old waits.old stores.now rows.old shape →
        Releases (all_shown shape.width board.old waits.old stores.now) slot
        (all_shown shape.width board.new waits.new stores.now) }
    ensures waited { IsState board.old waits.old stores.now rows.old shape →
        IsExactly result.waited
        (WaitsFor (all_shown shape.width board.old waits.old stores.now) slot) }
    ensures ready { IsState board.old waits.old stores.now rows.old shape →
        IsExactly result.ready (λ s.
        WaitsFor (all_shown shape.width board.old waits.old stores.now) slot s ×
        IsReady (all_shown shape.width board.new waits.new stores.now) s) }
    ensures shaped { IsShaped board.new waits.new stores.now rows.new shape }
    ensures state { IsState board.old waits.old stores.now rows.old shape →
        IsState board.new waits.new stores.now rows.new shape }
{
    let reads = store(stores, shape.width, 2 * slot as usize);
    let writes = store(stores, shape.width, 2 * slot as usize + 1);
    unmark_slot(rows, shape.grid, slot, reads, writes);
    let waited = slots_that_wait(board.blocked, waits, slot);
    forget(waited, waits, slot);
    let ready = slots_without_waits(waited, waits);
    *board = board.without(slot, ready);
    Retired {
        waited,
        ready: ready.without(slot),
    }
}
