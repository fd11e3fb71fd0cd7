//! Which slots conflict with accesses that are not kept.

ghost use Rattle.std.specs.Prelude.{◌≡◌, ℕ, ◌+◌, ◌*◌, ◌/◌, ◌^◌, ◌<◌, ◌≤◌, ◌⊎◌, ◌∷◌, [], length};
ghost use Rattle.dsa_descriptor.specs.Spans.{InSome, InSpan};
ghost use Rattle.dsa_ranges.specs.Ranges.{SpansConflict};
ghost use Rattle.dsa_tracker.specs.Finding.{AreCovered, ConflictsWithSpans, HaveStores, reads_store, writes_store};
ghost use Rattle.dsa_tracker.specs.Kept.{kept};
ghost use Rattle.dsa_tracker.specs.Sets.{Has};
ghost use Rattle.dsa_tracker.specs.Table.{IsExactly};

use crate::finding::{Others, candidates, slots_in_conflict};
use crate::grid::Shape;
use crate::slots::Slots;
use crate::units::look_at_units;
use dsa_descriptor::Span;

/// Those of the others that conflict with a read, or a write, of this span.
fn slots_against_one(
    rows: &[u64],
    shape: Shape,
    stores: &[u64],
    others: Others,
    span: Span,
    is_written: bool,
) -> Slots
    requires sized { length rows.now ≡ 2 * 2 ^ shape.grid.log2_rows }
    requires wide { 0 < shape.width }
    requires within { HaveStores shape.width stores.now others.among }
    ensures { AreCovered shape.width stores.now shape.grid rows.now others.wide others.among →
        IsExactly result (λ k. Has others.among k ×
        ConflictsWithSpans shape.width stores.now is_written (span ∷ []) k) }
{
    if span.len == 0 {
        return Slots::EMPTY;
    }
    let last = span.first.saturating_add(span.len - 1);
    let noted = look_at_units(rows, shape.grid, is_written, span.first, last);
    let sought = candidates(others, Some(noted));
    slots_in_conflict(stores, shape.width, sought, span.first, last, is_written)
}

/// Those of the others that conflict with reads, or writes, of these spans.
fn slots_against(
    rows: &[u64],
    shape: Shape,
    stores: &[u64],
    others: Others,
    spans: &[Span],
    is_written: bool,
) -> Slots
    requires sized { length rows.now ≡ 2 * 2 ^ shape.grid.log2_rows }
    requires wide { 0 < shape.width }
    requires within { HaveStores shape.width stores.now others.among }
    ensures { AreCovered shape.width stores.now shape.grid rows.now others.wide others.among →
        IsExactly result (λ k. Has others.among k ×
        ConflictsWithSpans shape.width stores.now is_written spans.now k) }
{
    let mut found = Slots::EMPTY;
    for span in spans {
        let here = slots_against_one(rows, shape, stores, others, *span, is_written);
        found = found.union(here);
    }
    found
}

/// Those of the others that conflict with what reads and writes these spans.
pub(crate) fn slots_in_the_way(
    rows: &[u64],
    shape: Shape,
    stores: &[u64],
    others: Others,
    reads: &[Span],
    writes: &[Span],
) -> Slots
    requires sized { length rows.now ≡ 2 * 2 ^ shape.grid.log2_rows }
    requires wide { 0 < shape.width }
    requires within { HaveStores shape.width stores.now others.among }
    ensures { AreCovered shape.width stores.now shape.grid rows.now others.wide others.among →
        IsExactly result (λ k. Has others.among k × SpansConflict
        (kept (reads_store shape.width stores.now k))
        (kept (writes_store shape.width stores.now k)) reads.now writes.now) }
{
    let by_reads = slots_against(rows, shape, stores, others, reads, false);
    let by_writes = slots_against(rows, shape, stores, others, writes, true);
    by_reads.union(by_writes)
}
