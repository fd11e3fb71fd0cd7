//! Writing the rows of a prepared submission.

ghost use Rattle.std.specs.Prelude.{◌≡◌, ◌++◌, All, IfOk, OnOk, length, map};
ghost use Rattle.dsa_prepared.specs.Rows.{ArePrepared, AreNumbered, entry_in, entry_row, header_row, region_rows_of, rows_of, template_in, tie_row};

use crate::entry::Entry;
use crate::parts::Parts;
use crate::row::{Row, entry_row, region_row, tie_row};
use crate::tie::Tie;
use dsa_descriptor::Span;
use std::alloc::{AllocError, Global};

/// "DSAPREP1" as bytes of a little-endian number. The last of them is the version of the layout.
pub const MAGIC: u64 = 0x3150_4552_5041_5344;

/// Adds the rows of the regions with their units.
fn push_regions(rows: &mut Vec<Row>, regions: &[Span], units: &[u64]) -> Result<(), AllocError>
    requires { length units.now ≡ length regions.now }
    ensures { OnOk result (rows.new.items ≡
        rows.old.items ++ region_rows_of regions.now units.now) }
{
    for i in 0..regions.len() {
        rows.push(region_row(regions[i], units[i]))?;
    }
    Ok(())
}

/// Adds the rows of the ties.
fn push_ties(rows: &mut Vec<Row>, ties: &[Tie]) -> Result<(), AllocError>
    ensures { OnOk result (rows.new.items ≡ rows.old.items ++ map tie_row ties.now) }
{
    for tie in ties {
        rows.push(tie_row(tie))?;
    }
    Ok(())
}

/// Adds the rows of the entries.
fn push_entries(rows: &mut Vec<Row>, entries: &[Entry]) -> Result<(), AllocError>
    requires { All AreNumbered entries.now }
    ensures { OnOk result ((rows.new.items ≡ rows.old.items ++ map entry_row entries.now)
        × (map entry_in (map entry_row entries.now) ≡ entries.now)) }
{
    for k in 0..entries.len() {
        rows.push(entry_row(&entries[k]))?;
    }
    Ok(())
}

/// The header of the rows.
fn header_row(parts: &Parts) -> Row
    ensures { result ≡ header_row parts.now }
{
    Row {
        words: [
            MAGIC,
            parts.regions.len() as u64,
            parts.ties.len() as u64,
            parts.portal.len() as u64,
            parts.staging.len() as u64,
            parts.batches as u64,
            parts.pieces as u64,
            0,
            0,
            0,
        ],
    }
}

/// How many rows the parts have.
fn row_count(parts: &Parts) -> usize {
    let entries = parts.portal.len().saturating_add(parts.staging.len());
    let ties = parts.ties.len().saturating_add(entries);
    parts.regions.len().saturating_add(ties).saturating_add(1)
}

/// The rows of the parts.
pub(crate) fn rows_of(alloc: Global, parts: &Parts) -> Result<Vec<Row>, AllocError>
    ensures { IfOk result (λ rows. (rows.items ≡ rows_of parts.now)
        × (template_in rows.items ≡ parts.now) × ArePrepared rows.items) }
{
    let mut rows = Vec::with_capacity(alloc, row_count(parts))?;
    rows.push(header_row(parts))?;
    push_regions(&mut rows, &parts.regions, &parts.units)?;
    push_ties(&mut rows, &parts.ties)?;
    push_entries(&mut rows, &parts.portal)?;
    push_entries(&mut rows, &parts.staging)?;
    Ok(rows)
}
