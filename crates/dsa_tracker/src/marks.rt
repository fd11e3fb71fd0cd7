//! Rows of bits, one for each slot: which slots may touch a unit of addresses, and which may write
//! it. A row is two words, one for each of these sides. A unit has two rows, and a slot that
//! touches it has its bit in both.

ghost use Rattle.std.specs.Prelude.{◌≡◌, ◌≢◌, ℕ, ◌+◌, ◌*◌, ◌^◌, ◌<◌, ◌≤◌, length};
ghost use Rattle.std.specs.Int.{bit_at};
ghost use Rattle.dsa_tracker.specs.Rows.{Holds, IsMarked, IsNoted, IsSought, key};

use crate::grid::Grid;

/// The row of a unit by this factor.
fn row_of(grid: Grid, unit: u64, factor: u64) -> usize
    ensures within { result < 2 ^ grid.log2_rows }
    ensures value { result ≡ key grid.log2_rows factor unit }
{
    (unit.wrapping_mul(factor) >> (64 - grid.log2_rows)) as usize
}

/// The word of a side in the first row of a unit.
fn first_place(grid: Grid, side: usize, unit: u64) -> usize
    requires { side < 2 }
    ensures within { result < 2 * 2 ^ grid.log2_rows }
    ensures value { result ≡ 2 * key grid.log2_rows 11400714819323198485 unit + side }
{
    2 * row_of(grid, unit, 0x9e37_79b9_7f4a_7c15) + side
}

/// The word of a side in its second row.
fn second_place(grid: Grid, side: usize, unit: u64) -> usize
    requires { side < 2 }
    ensures within { result < 2 * 2 ^ grid.log2_rows }
    ensures value { result ≡ 2 * key grid.log2_rows 14029467366897019727 unit + side }
{
    2 * row_of(grid, unit, 0xc2b2_ae3d_27d4_eb4f) + side
}

/// Sets the slot's bit in a word.
fn set_bit(rows: &mut [u64], place: usize, slot: u32)
    requires within { place < length rows.old }
    requires few { slot < 64 }
    ensures set { Holds rows.new place slot }
    ensures kept { (k s : ℕ) → s < 64 → Holds rows.old k s → Holds rows.new k s }
{
    rows[place] |= 1 << slot;
}

/// Clears the slot's bit in a word.
fn clear_bit(rows: &mut [u64], place: usize, slot: u32)
    requires within { place < length rows.old }
    requires few { slot < 64 }
    ensures { (k s : ℕ) → s < 64 → s ≢ slot → Holds rows.old k s → Holds rows.new k s }
{
    rows[place] &= !(1 << slot);
}

/// Marks the unit for the slot on one side.
fn mark_side(rows: &mut [u64], grid: Grid, side: usize, unit: u64, slot: u32)
    requires sized { length rows.old ≡ 2 * 2 ^ grid.log2_rows }
    requires side { side < 2 }
    requires few { slot < 64 }
    ensures marked { IsMarked grid rows.new side unit slot }
    ensures kept { (k s : ℕ) → s < 64 → Holds rows.old k s → Holds rows.new k s }
{
    let first = first_place(grid, side, unit);
    let second = second_place(grid, side, unit);
    set_bit(rows, first, slot);
    set_bit(rows, second, slot);
}

/// Takes the mark of the slot away on one side, and of no other slot.
fn unmark_side(rows: &mut [u64], grid: Grid, side: usize, unit: u64, slot: u32)
    requires sized { length rows.old ≡ 2 * 2 ^ grid.log2_rows }
    requires side { side < 2 }
    requires few { slot < 64 }
    ensures { (k s : ℕ) → s < 64 → s ≢ slot → Holds rows.old k s → Holds rows.new k s }
{
    let first = first_place(grid, side, unit);
    let second = second_place(grid, side, unit);
    clear_bit(rows, first, slot);
    clear_bit(rows, second, slot);
}

/// The slots that the unit is marked for on this side, and perhaps others.
fn look(rows: &[u64], grid: Grid, side: usize, unit: u64) -> u64
    requires sized { length rows.now ≡ 2 * 2 ^ grid.log2_rows }
    requires side { side < 2 }
    ensures { (s : ℕ) → IsMarked grid rows.now side unit s → 0 < bit_at result s }
{
    let first = first_place(grid, side, unit);
    let second = second_place(grid, side, unit);
    rows[first] & rows[second]
}

/// The slots that the unit is marked for and that may conflict with what reads or writes it: all
/// that do, and perhaps others.
pub(crate) fn seek(rows: &[u64], grid: Grid, unit: u64, is_written: bool) -> u64
    requires sized { length rows.now ≡ 2 * 2 ^ grid.log2_rows }
    ensures { (s : ℕ) → IsSought grid rows.now is_written unit s → 0 < bit_at result s }
{
    if is_written {
        look(rows, grid, 0, unit)
    } else {
        look(rows, grid, 1, unit)
    }
}

/// Notes the unit for the slot, which reads or writes it. Answers the slots that it was noted for
/// before and that may conflict with that: all that do, and perhaps others.
pub(crate) fn note(rows: &mut [u64], grid: Grid, unit: u64, slot: u32, is_written: bool) -> u64
    requires sized { length rows.old ≡ 2 * 2 ^ grid.log2_rows }
    requires few { slot < 64 }
    ensures found { (s : ℕ) → IsSought grid rows.old is_written unit s → 0 < bit_at result s }
    ensures noted { IsNoted grid rows.new is_written unit slot }
    ensures kept { (k s : ℕ) → s < 64 → Holds rows.old k s → Holds rows.new k s }
{
    let found = seek(rows, grid, unit, is_written);
    mark_side(rows, grid, 0, unit, slot);
    if is_written {
        mark_side(rows, grid, 1, unit, slot);
    }
    found
}

/// Takes the marks of the slot away, which reads or writes the unit, and of no other slot.
pub(crate) fn unmark(rows: &mut [u64], grid: Grid, unit: u64, slot: u32, is_written: bool)
    requires sized { length rows.old ≡ 2 * 2 ^ grid.log2_rows }
    requires few { slot < 64 }
    ensures { (k s : ℕ) → s < 64 → s ≢ slot → Holds rows.old k s → Holds rows.new k s }
{
    unmark_side(rows, grid, 0, unit, slot);
    if is_written {
        unmark_side(rows, grid, 1, unit, slot);
    }
}
