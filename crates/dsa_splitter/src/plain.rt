//! Lists whose operations are their own pieces and do not meet the staging area, as most lists: one pass finds out.

ghost use Rattle.std.specs.Prelude.{◌≡◌, ℕ, ◌≤◌, ◌<◌, length, map, IsTrue};
ghost use Rattle.dsa_descriptor.specs.Descriptors.{fields};
ghost use Rattle.dsa_descriptor.specs.Spans.{InSpan};
ghost use Rattle.dsa_splitter.specs.Rules.{AreWhole, IsClear, IsSplit};

use dsa_descriptor::{Descriptor, MOST_PIECES, RECORD_LEN, Span, data_at};
use dsa_settings::{STAGED_LEN, Settings};

/// Whether the area is known to have none of the addresses from `low` to below `high`.
fn is_outside(area: Span, low: u64, high: u64) -> bool
    ensures { IsTrue result → (x : ℕ) → low ≤ x → x < high → InSpan area x → ⊥ }
{
    high <= area.first || area.end() <= u128::from(low)
}

/// True only if each operation is its own only piece, and none has an address in the area. All data has to lie on one
/// side of the area, and so do all records. The loop only collects the ends, which are looked at once.
fn are_plain(list: &[Descriptor], greatest: u64, area: Span) -> bool
    ensures whole { IsTrue result → AreWhole list.now greatest }
    ensures clear { IsTrue result → IsClear area (map fields list.now) }
{
    let (mut low, mut high, mut longest) = (u64::MAX, 0u64, 0u32);
    let (mut from, mut to) = (u64::MAX, 0u64);
    for d in list {
        let Some((p, q)) = data_at(&d.op) else {
            return false;
        };
        low = low.min(p.min(q));
        high = high.max(p.max(q));
        longest = longest.max(d.size);
        from = from.min(d.record_at);
        to = to.max(d.record_at);
    }
    let length = u64::from(longest);
    if length > greatest {
        return false;
    }
    let Some(end) = high.checked_add(length) else {
        return false;
    };
    let Some(record_end) = to.checked_add(RECORD_LEN) else {
        return false;
    };
    is_outside(area, low, end) && is_outside(area, from, record_end)
}

/// True only if each operation is its own only piece, and the rules of a split list are kept with a staging area at
/// this address.
pub fn are_own_pieces(list: &[Descriptor], greatest: u64, staging: u64) -> bool
    ensures whole { IsTrue result → AreWhole list.now greatest }
    ensures split { IsTrue result → IsSplit greatest staging (map fields list.now) }
{
    if list.len() > MOST_PIECES {
        return false;
    }
    let area = Span {
        first: staging,
        len: STAGED_LEN * list.len() as u64,
    };
    are_plain(list, greatest, area)
}

/// Whether the list is split as it is under these settings.
pub(crate) fn is_split(list: &[Descriptor], settings: &Settings) -> bool
    ensures whole { IsTrue result → AreWhole list.now settings.now.greatest_transfer }
    ensures split { IsTrue result → IsSplit
        settings.now.greatest_transfer settings.now.staging (map fields list.now) }
{
    are_own_pieces(list, settings.greatest_transfer(), settings.staging())
}
