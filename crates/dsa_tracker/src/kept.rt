//! Spans, kept in words: a count, and for each span its first and its last address.

ghost use Rattle.std.specs.Prelude.{◌≡◌, ℕ, ◌+◌, ◌-◌, ◌*◌, ◌<◌, ◌≤◌, ◌⊎◌, ◌↔◌, IsTrue, length, slice_index};
ghost use Rattle.dsa_descriptor.specs.Spans.{InSome, InSpan, IsAddressable};
ghost use Rattle.dsa_tracker.specs.Calls.{AreAddressable};
ghost use Rattle.dsa_tracker.specs.Kept.{InFirst, Touches, kept, kept_count, store_at};

use dsa_descriptor::Span;

/// How many spans are kept.
pub(crate) fn count(store: &[u64]) -> usize
    requires { 0 < length store.now }
    ensures { result ≡ kept_count store.now }
{
    let most = (store.len() - 1) / 2;
    (store[0] as usize).min(most)
}

/// The store of this place.
pub(crate) fn store(stores: &[u64], width: usize, place: usize) -> &[u64]
    requires wide { 0 < width }
    requires within { (place + 1) * width ≤ length stores.now }
    ensures { result.now ≡ store_at width stores.now place }
{
    &stores[place * width..(place + 1) * width]
}

/// Keeps none.
pub(crate) fn clear(store: &mut [u64])
    requires { 0 < length store.old }
    ensures none { (a : ℕ) → ¬ InSome (kept store.new) a }
    ensures count { slice_index store.new 0 ≡ 0 }
{
    store[0] = 0;
}

/// Whether the span follows on the last of the kept ones.
fn follows(store: &[u64], count: usize, span: Span) -> bool
    requires { 2 * count < length store.now }
    ensures { IsTrue result → (0 < count) ×
        (slice_index store.now (2 * count) + 1 ≡ span.first) ×
        (slice_index store.now (2 * count - 1) ≤ slice_index store.now (2 * count)) }
{
    if count == 0 {
        return false;
    }
    if span.first == 0 {
        return false;
    }
    let last = store[2 * count];
    last == span.first - 1 && store[2 * count - 1] <= last
}

/// Puts a span after the first ones, and answers how many there are then. One that follows on the
/// last is put together with that.
fn put(store: &mut [u64], count: usize, span: Span) -> usize
    requires room { 2 * count + 2 < length store.old }
    requires addressable { IsAddressable span }
    ensures spans { (a : ℕ) →
        InFirst store.new result a ↔ (InFirst store.old count a ⊎ InSpan span a) }
    ensures count { result ≤ count + 1 }
{
    if span.len == 0 {
        return count;
    }
    let last = span.first + (span.len - 1);
    if follows(store, count, span) {
        store[2 * count] = last;
        return count;
    }
    store[2 * count + 1] = span.first;
    store[2 * count + 2] = last;
    count + 1
}

/// Adds a span.
pub(crate) fn push(store: &mut [u64], span: Span)
    requires room { 2 * slice_index store.old 0 + 2 < length store.old }
    requires addressable { IsAddressable span }
    ensures spans { (a : ℕ) →
        InSome (kept store.new) a ↔ (InSome (kept store.old) a ⊎ InSpan span a) }
    ensures count { slice_index store.new 0 ≤ slice_index store.old 0 + 1 }
{
    let before = store[0] as usize;
    let count = put(store, before, span);
    store[0] = count as u64;
}

/// Adds these spans.
pub(crate) fn append(store: &mut [u64], spans: &[Span])
    requires room { 2 * (slice_index store.old 0 + length spans.now) < length store.old }
    requires addressable { AreAddressable spans.now }
    ensures spans { (a : ℕ) →
        InSome (kept store.new) a ↔ (InSome (kept store.old) a ⊎ InSome spans.now a) }
    ensures count { slice_index store.new 0 ≤ slice_index store.old 0 + length spans.now }
{
    let mut count = store[0] as usize;
    for span in spans {
        count = put(store, count, *span);
    }
    store[0] = count as u64;
}

/// Whether some kept span has an address from the first to the last.
pub(crate) fn touches(store: &[u64], first: u64, last: u64) -> bool
    requires { 0 < length store.now }
    ensures { IsTrue result ↔ Touches store.now first last }
{
    let mut is_found = false;
    for index in 0..count(store) {
        let other_first = store[2 * index + 1];
        let other_last = store[2 * index + 2];
        let low = first.max(other_first);
        let high = last.min(other_last);
        if low <= high {
            is_found = true;
        }
    }
    is_found
}
