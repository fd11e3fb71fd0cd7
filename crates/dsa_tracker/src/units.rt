//! Spans, marked in rows and looked up there.

ghost use Rattle.std.specs.Prelude.{◌≡◌, ◌≢◌, ℕ, ◌+◌, ◌*◌, ◌/◌, ◌^◌, ◌<◌, ◌≤◌, ⊤, IfSome, IsSome, MatchOption, length};
ghost use Rattle.std.specs.Int.{bit_at};
ghost use Rattle.dsa_tracker.specs.Rows.{Holds, IsMarked, IsNoted, IsSought};

use crate::grid::Grid;
use crate::marks::{note, seek, unmark};

/// A span of more units than this is not marked.
const MOST_UNITS: u64 = 1024;

/// The units of the addresses from the first to the last: the first, and the one after the last.
/// None if there are too many.
fn units(grid: Grid, first: u64, last: u64) -> Option<(u64, u64)>
    ensures { MatchOption result ⊤ (λ u. (a : ℕ) → first ≤ a → a ≤ last →
        (u.0 ≤ a / 2 ^ grid.log2_unit) × (a / 2 ^ grid.log2_unit < u.1)) }
{
    let from = first >> grid.log2_unit;
    let until = (last >> grid.log2_unit) + 1;
    if until.saturating_sub(from) > MOST_UNITS {
        return None;
    }
    Some((from, until))
}

/// Notes the units of these addresses for the slot, which reads or writes them. Answers the slots
/// that were noted there before and may conflict with that: all that do, and perhaps others. None
/// if there are too many units, and then none is noted.
pub(crate) fn note_units(
    rows: &mut [u64],
    grid: Grid,
    first: u64,
    last: u64,
    slot: u32,
    is_written: bool,
) -> Option<u64>
    requires sized { length rows.old ≡ 2 * 2 ^ grid.log2_rows }
    requires few { slot < 64 }
    ensures found { IfSome result (λ found. (a s : ℕ) → s < 64 → first ≤ a → a ≤ last →
        IsSought grid rows.old is_written (a / 2 ^ grid.log2_unit) s → 0 < bit_at found s) }
    ensures noted { IsSome result → (a : ℕ) → first ≤ a → a ≤ last →
        IsNoted grid rows.new is_written (a / 2 ^ grid.log2_unit) slot }
    ensures kept { (k s : ℕ) → s < 64 → Holds rows.old k s → Holds rows.new k s }
{
    let (from, until) = units(grid, first, last)?;
    let mut found = 0;
    for unit in from..until {
        found |= note(rows, grid, unit, slot, is_written);
    }
    Some(found)
}

/// Takes the marks of these addresses away, which the slot reads or writes.
pub(crate) fn unmark_units(
    rows: &mut [u64],
    grid: Grid,
    first: u64,
    last: u64,
    slot: u32,
    is_written: bool,
)
    requires sized { length rows.old ≡ 2 * 2 ^ grid.log2_rows }
    requires few { slot < 64 }
    ensures { (k s : ℕ) → s < 64 → s ≢ slot → Holds rows.old k s → Holds rows.new k s }
{
    let Some((from, until)) = units(grid, first, last) else {
        return;
    };
    for unit in from..until {
        unmark(rows, grid, unit, slot, is_written);
    }
}

/// The slots that are noted for a unit of these addresses and may conflict with what reads or
/// writes it: all that do, and perhaps others.
pub(crate) fn look_at_units(
    rows: &[u64],
    grid: Grid,
    is_written: bool,
    first: u64,
    last: u64,
) -> u64
    requires sized { length rows.now ≡ 2 * 2 ^ grid.log2_rows }
    ensures { (a s : ℕ) → s < 64 → first ≤ a → a ≤ last →
        IsSought grid rows.now is_written (a / 2 ^ grid.log2_unit) s → 0 < bit_at result s }
{
    let Some((from, until)) = units(grid, first, last) else {
        return u64::MAX;
    };
    let mut found = 0;
    for unit in from..until {
        found |= seek(rows, grid, unit, is_written);
    }
    found
}
