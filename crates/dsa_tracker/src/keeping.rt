//! What a submission reads and writes, put into the stores of its slot.

ghost use Rattle.std.specs.Prelude.{◌≡◌, ◌≢◌, ℕ, ◌+◌, ◌*◌, ◌<◌, ◌≤◌, ◌⊎◌, ◌↔◌, ◌++◌, flat_map, length, slice_index};
ghost use Rattle.dsa_descriptor.specs.Spans.{InSome, InSpan, IsAddressable};
ghost use Rattle.dsa_tracker.specs.Calls.{AreAddressable, SameAddresses};
ghost use Rattle.dsa_tracker.specs.Keeping.{InRecord, InTargets, InSources, AreOtherStores};
ghost use Rattle.dsa_tracker.specs.Kept.{kept, store_at};

use crate::kept::{append, clear, push};
use crate::tracked::Tracked;
use dsa_descriptor::Span;

/// Keeps just these spans.
fn replace(store: &mut [u64], spans: &[Span])
    requires room { 2 * length spans.now < length store.old }
    requires addressable { AreAddressable spans.now }
    ensures { SameAddresses (kept store.new) spans.now }
{
    clear(store);
    append(store, spans);
}

/// Keeps just these spans in the store of this place.
pub(crate) fn keep_spans(stores: &mut [u64], width: usize, place: usize, spans: &[Span])
    requires within { (place + 1) * width ≤ length stores.old }
    requires room { 2 * length spans.now < width }
    requires addressable { AreAddressable spans.now }
    ensures here { SameAddresses (kept (store_at width stores.new place)) spans.now }
    ensures others { AreOtherStores width place stores.old stores.new }
{
    replace(&mut stores[place * width..(place + 1) * width], spans);
}

/// Adds what these pieces read.
fn append_reads<P: Tracked>(store: &mut [u64], pieces: &[P])
    requires room { 2 * (slice_index store.old 0 + 2 * length pieces.now) < length store.old }
    ensures spans { (a : ℕ) → InSome (kept store.new) a ↔
        (InSome (kept store.old) a ⊎ InSources P.reads pieces.now a) }
    ensures count { slice_index store.new 0 ≤ slice_index store.old 0 + 2 * length pieces.now }
{
    for piece in pieces {
        let sources = piece.sources();
        append(store, sources.as_slice());
    }
}

/// Adds the destinations of these pieces.
fn append_targets<P: Tracked>(store: &mut [u64], pieces: &[P])
    requires room { 2 * (slice_index store.old 0 + 2 * length pieces.now) < length store.old }
    ensures spans { (a : ℕ) → InSome (kept store.new) a ↔
        (InSome (kept store.old) a ⊎ InTargets P.writes pieces.now a) }
    ensures count { slice_index store.new 0 ≤ slice_index store.old 0 + 2 * length pieces.now }
{
    for piece in pieces {
        let targets = piece.targets();
        append(store, targets.as_slice());
    }
}

/// Adds the completion records of these pieces.
fn append_records<P: Tracked>(store: &mut [u64], pieces: &[P])
    requires room { 2 * (slice_index store.old 0 + length pieces.now) < length store.old }
    ensures spans { (a : ℕ) → InSome (kept store.new) a ↔
        (InSome (kept store.old) a ⊎ InRecord P.writes pieces.now a) }
    ensures count { slice_index store.new 0 ≤ slice_index store.old 0 + length pieces.now }
{
    for piece in pieces {
        push(store, piece.completion_record());
    }
}

/// Keeps just what these pieces read.
fn replace_by_reads<P: Tracked>(store: &mut [u64], pieces: &[P])
    requires { 2 * (3 * length pieces.now) < length store.old }
    ensures { SameAddresses (kept store.new) (flat_map P.reads pieces.now) }
{
    clear(store);
    append_reads(store, pieces);
}

/// Keeps just what these pieces write, and their staging bytes: the records after all destinations,
/// since records that follow each other are put together.
fn replace_by_writes<P: Tracked>(store: &mut [u64], pieces: &[P], staged: &[Span])
    requires room { 2 * (3 * length pieces.now + length staged.now) < length store.old }
    requires addressable { AreAddressable staged.now }
    ensures { SameAddresses (kept store.new)
        (staged.now ++ flat_map P.writes pieces.now) }
{
    clear(store);
    append(store, staged);
    append_targets(store, pieces);
    append_records(store, pieces);
}

/// Keeps just what these pieces read in the store of this place.
pub(crate) fn keep_reads<P: Tracked>(stores: &mut [u64], width: usize, place: usize, pieces: &[P])
    requires within { (place + 1) * width ≤ length stores.old }
    requires room { 2 * (3 * length pieces.now) < width }
    ensures here { SameAddresses (kept (store_at width stores.new place))
        (flat_map P.reads pieces.now) }
    ensures others { AreOtherStores width place stores.old stores.new }
{
    replace_by_reads(&mut stores[place * width..(place + 1) * width], pieces);
}

/// Keeps just what these pieces write, and their staging bytes, in the store of this place.
pub(crate) fn keep_writes<P: Tracked>(
    stores: &mut [u64],
    width: usize,
    place: usize,
    pieces: &[P],
    staged: &[Span],
)
    requires within { (place + 1) * width ≤ length stores.old }
    requires room { 2 * (3 * length pieces.now + length staged.now) < width }
    requires addressable { AreAddressable staged.now }
    ensures here { SameAddresses (kept (store_at width stores.new place))
        (staged.now ++ flat_map P.writes pieces.now) }
    ensures others { AreOtherStores width place stores.old stores.new }
{
    replace_by_writes(
        &mut stores[place * width..(place + 1) * width],
        pieces,
        staged,
    );
}
