//! What a slot reads and writes, noted in the rows and taken away.

ghost use Rattle.std.specs.Prelude.{◌≡◌, ◌≢◌, ℕ, ◌+◌, ◌*◌, ◌/◌, ◌<◌, ◌≤◌, ◌⊎◌, ◌^◌, IsTrue, length};
ghost use Rattle.dsa_ranges.specs.Ranges.{SpansConflict};
ghost use Rattle.dsa_tracker.specs.Finding.{AreCovered, AreNoted, ConflictsWithStore, HaveStores, Marks, reads_store, writes_store};
ghost use Rattle.dsa_tracker.specs.Kept.{kept};
ghost use Rattle.dsa_tracker.specs.Rows.{Holds};
ghost use Rattle.dsa_tracker.specs.Sets.{Has};
ghost use Rattle.dsa_tracker.specs.Table.{IsExactly};

use crate::finding::{Others, candidates, slots_in_conflict};
use crate::grid::{Grid, Shape};
use crate::kept::count;
use crate::slots::Slots;
use crate::units::{note_units, unmark_units};

/// What was found while units were noted.
#[derive(Clone, Copy)]
pub(crate) struct Noted {
    /// The slots in conflict.
    pub found: Slots,
    /// Whether all units were noted.
    pub is_whole: bool,
}

/// Notes all that the store keeps for the slot, which reads or writes it, and finds those of the
/// others that conflict with that.
fn note_store(
    rows: &mut [u64],
    shape: Shape,
    stores: &[u64],
    others: Others,
    slot: u32,
    store: &[u64],
    is_written: bool,
) -> Noted
    requires some { 0 < length store.now }
    requires sized { length rows.old ≡ 2 * 2 ^ shape.grid.log2_rows }
    requires few { slot < 64 }
    requires wide { 0 < shape.width }
    requires within { HaveStores shape.width stores.now others.among }
    ensures found { AreCovered shape.width stores.now shape.grid rows.old others.wide others.among →
        IsExactly result.found (λ k. Has others.among k ×
        ConflictsWithStore shape.width stores.now is_written store.now k) }
    ensures noted { IsTrue result.is_whole →
        AreNoted shape.grid rows.new is_written store.now slot }
    ensures kept { (k s : ℕ) → s < 64 → Holds rows.old k s → Holds rows.new k s }
{
    let mut found = Slots::EMPTY;
    let mut is_whole = true;
    for index in 0..count(store) {
        let first = store[2 * index + 1];
        let last = store[2 * index + 2];
        let noted = note_units(rows, shape.grid, first, last, slot, is_written);
        is_whole &= noted.is_some();
        let sought = candidates(others, noted).minus(found);
        if !sought.is_empty() {
            let width = shape.width;
            let here = slots_in_conflict(stores, width, sought, first, last, is_written);
            found = found.union(here);
        }
    }
    Noted { found, is_whole }
}

/// Takes the marks of all that the store keeps away, which the slot reads or writes.
fn unmark_store(rows: &mut [u64], grid: Grid, store: &[u64], slot: u32, is_written: bool)
    requires some { 0 < length store.now }
    requires sized { length rows.old ≡ 2 * 2 ^ grid.log2_rows }
    requires few { slot < 64 }
    ensures { (k s : ℕ) → s < 64 → s ≢ slot → Holds rows.old k s → Holds rows.new k s }
{
    for index in 0..count(store) {
        let first = store[2 * index + 1];
        let last = store[2 * index + 2];
        unmark_units(rows, grid, first, last, slot, is_written);
    }
}

/// Notes what the slot reads and writes, and finds those of the others that conflict with that.
pub(crate) fn note_slot(
    rows: &mut [u64],
    shape: Shape,
    stores: &[u64],
    others: Others,
    slot: u32,
    reads: &[u64],
    writes: &[u64],
) -> Noted
    requires reads { 0 < length reads.now }
    requires writes { 0 < length writes.now }
    requires sized { length rows.old ≡ 2 * 2 ^ shape.grid.log2_rows }
    requires few { slot < 64 }
    requires wide { 0 < shape.width }
    requires within { HaveStores shape.width stores.now others.among }
    ensures found { AreCovered shape.width stores.now shape.grid rows.old others.wide others.among →
        IsExactly result.found (λ k. Has others.among k × SpansConflict
        (kept (reads_store shape.width stores.now k))
        (kept (writes_store shape.width stores.now k))
        (kept reads.now) (kept writes.now)) }
    ensures marked { IsTrue result.is_whole →
        Marks shape.grid rows.new (kept reads.now) (kept writes.now) slot }
    ensures kept { (k s : ℕ) → s < 64 → Holds rows.old k s → Holds rows.new k s }
{
    let read = note_store(rows, shape, stores, others, slot, reads, false);
    let rest = Others {
        among: others.among.minus(read.found),
        ..others
    };
    let written = note_store(rows, shape, stores, rest, slot, writes, true);
    Noted {
        found: read.found.union(written.found),
        is_whole: read.is_whole & written.is_whole,
    }
}

/// Takes the marks of what the slot reads and writes away.
pub(crate) fn unmark_slot(rows: &mut [u64], grid: Grid, slot: u32, reads: &[u64], writes: &[u64])
    requires reads { 0 < length reads.now }
    requires writes { 0 < length writes.now }
    requires sized { length rows.old ≡ 2 * 2 ^ grid.log2_rows }
    requires few { slot < 64 }
    ensures { (k s : ℕ) → s < 64 → s ≢ slot → Holds rows.old k s → Holds rows.new k s }
{
    unmark_store(rows, grid, reads, slot, false);
    unmark_store(rows, grid, writes, slot, true);
}
