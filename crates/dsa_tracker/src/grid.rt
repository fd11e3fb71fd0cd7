//! How addresses are cut into units, and units found in rows.

ghost use Rattle.std.specs.Prelude.{◌≡◌, ◌^◌, ◌<◌, ◌≤◌};

/// How many rows there are, and how long a unit of addresses is, as powers of two.
#[derive(Clone, Copy)]
pub(crate) struct Grid {
    /// The number of rows.
    pub log2_rows: u32,
    /// The bytes of a unit.
    pub log2_unit: u32,
    ghost in_range: { (1 ≤ log2_rows) × (log2_rows ≤ 32) × (1 ≤ log2_unit) × (log2_unit ≤ 63) },
}

/// How the words of a tracker are cut.
#[derive(Clone, Copy)]
pub(crate) struct Shape {
    /// The words of a store.
    pub width: usize,
    /// How units are found in rows.
    pub grid: Grid,
}
