//! Where everything is in a picture.

use crate::bars::BARRIER;
use crate::grid::Grid;
use crate::heads::fold_name;
use crate::layout::Layout;
use crate::slots::Slot;
use crate::texts::{SIZE, letters_in, letters_of, wrapped};
use std::alloc::{AllocError, Global};

/// The most groups or submissions that a picture has.
pub const MOST_ROWS: usize = 1_024;

/// Where the first column begins, after the names of the rows.
pub(crate) const LEFT: usize = 146;

/// The height of a row.
pub(crate) const ROW: usize = 22;

/// The most letters of a name that is read from the bottom to the top.
pub(crate) const MOST_TURNED: usize = 22;

/// The longest name of a column in which operations are folded.
const FOLDED: &str = "65536 in 1024 groups";

/// How wide a column is if there are few.
const WIDEST: usize = 80;

/// How wide all columns are together, if none is too wide or too narrow.
const COLUMNS: usize = 740;

/// A column, and where it begins.
#[derive(Clone, Copy)]
pub(crate) struct Placed {
    pub(crate) slot: Slot,
    pub(crate) left: usize,
}

/// Where everything is.
#[derive(Drop)]
pub(crate) struct Places {
    /// How wide a column is.
    pub(crate) width: usize,
    /// Whether columns are so narrow that names are read from the bottom to the top.
    pub(crate) is_narrow: bool,
    /// How wide the gap between groups is.
    pub(crate) gap: usize,
    /// The columns.
    pub(crate) columns: Vec<Placed>,
    /// Where the column of each operation begins that has one.
    pub(crate) lefts: Vec<Option<usize>>,
    /// Where the last column ends.
    pub(crate) right: usize,
    /// Where the names of operations begin, below those of groups.
    pub(crate) names: usize,
    /// Where the rows begin.
    pub(crate) top: usize,
    /// Where the rows end.
    pub(crate) bottom: usize,
    /// Where the lines at the end begin.
    pub(crate) notes: usize,
}

impl Places {
    /// Where the operation's column begins, if it has one.
    pub(crate) fn left_of(&self, operation: usize) -> Option<usize> {
        self.lefts.get(operation).copied().flatten()
    }

    /// Where the row begins.
    pub(crate) fn top_of(&self, row: usize) -> usize {
        self.top.saturating_add(row.saturating_mul(ROW))
    }
}

/// How wide each of so many columns is.
fn width_of(columns: usize) -> usize {
    (COLUMNS / columns.max(1)).clamp(30, WIDEST)
}

/// The columns of this width: there is a gap between groups.
fn columns_of(
    alloc: Global,
    slots: &[Slot],
    width: usize,
    gap: usize,
) -> Result<Vec<Placed>, AllocError> {
    let mut columns = Vec::new(alloc);
    let (mut left, mut group) = (LEFT, 0usize);
    for slot in slots {
        if slot.group != group {
            left = left.saturating_add(gap);
            group = slot.group;
        }
        columns.push(Placed { slot: *slot, left })?;
        left = left.saturating_add(width);
    }
    Ok(columns)
}

/// Where the column of each of so many operations begins that has one, or is the first of the pieces that have one.
fn lefts_of(
    alloc: Global,
    columns: &[Placed],
    operations: usize,
) -> Result<Vec<Option<usize>>, AllocError> {
    let mut lefts = vec![in alloc; None; operations]?;
    for column in columns {
        if let Some(operation) = column.slot.marked()
            && operation < lefts.len()
        {
            lefts[operation] = Some(column.left);
        }
    }
    Ok(lefts)
}

/// How high a text is in a column of this width.
fn height_of(alloc: Global, words: &str, width: usize) -> Result<usize, AllocError> {
    if is_narrow(width) {
        let letters = letters_of(words).min(MOST_TURNED);
        return Ok(letters.saturating_mul(7));
    }
    let lines = wrapped(alloc, words, letters_in(width.saturating_sub(4), SIZE))?;
    Ok(lines.len().saturating_mul(13))
}

/// Whether names are read from the bottom to the top in a column of this width.
fn is_narrow(width: usize) -> bool {
    width < 48
}

/// How high the name of a column is.
fn name_height(
    alloc: Global,
    layout: &Layout<'_>,
    slot: &Slot,
    width: usize,
) -> Result<usize, AllocError> {
    if slot.split().is_some() {
        return height_of(alloc, &fold_name(alloc, layout, slot)?, width);
    }
    if slot.is_folded() {
        return height_of(alloc, FOLDED, width);
    }
    match slot.column(layout) {
        Some(column) => height_of(alloc, &column.name, width),
        None => Ok(0),
    }
}

/// How high the names of the columns are.
fn names_height(
    alloc: Global,
    layout: &Layout<'_>,
    slots: &[Slot],
    width: usize,
) -> Result<usize, AllocError> {
    let mut height: usize = 13;
    for slot in slots {
        height = height.max(name_height(alloc, layout, slot, width)?);
    }
    Ok(height)
}

/// How high the words below fences and barriers are.
fn words_height(alloc: Global, layout: &Layout<'_>, width: usize) -> Result<usize, AllocError> {
    let mut height: usize = 0;
    if layout.groups.iter().any(|group| group.has_barrier) {
        height = height_of(alloc, BARRIER, width)?;
    }
    for bar in &layout.bars {
        height = height.max(height_of(alloc, &bar.words, width)?);
    }
    Ok(height)
}

/// How high the words above groups are: those of a narrow group are read from the bottom to the top.
fn heads_height(slots: &[Slot], width: usize) -> usize {
    if is_narrow(width) && has_narrow_group(slots, width) {
        102
    } else {
        46
    }
}

/// Whether a group is narrower than its words.
fn has_narrow_group(slots: &[Slot], width: usize) -> bool {
    let (mut group, mut columns) = (0usize, 0usize);
    for slot in slots {
        if slot.group != group {
            if columns.saturating_mul(width) < 60 {
                return true;
            }
            group = slot.group;
            columns = 0;
        }
        columns = columns.saturating_add(1);
    }
    columns.saturating_mul(width) < 60
}

/// Where everything is in the picture of these columns and rows.
pub(crate) fn places_of(
    alloc: Global,
    layout: &Layout<'_>,
    slots: &[Slot],
    grid: &Grid,
) -> Result<Places, AllocError> {
    let width = width_of(slots.len());
    let gap: usize = if width < WIDEST { 3 } else { 8 };
    let names = heads_height(slots, width);
    let top = names
        .saturating_add(names_height(alloc, layout, slots, width)?)
        .saturating_add(20);
    let bottom = top.saturating_add(grid.rows.len().max(1).saturating_mul(ROW));
    let notes = bottom
        .saturating_add(words_height(alloc, layout, width)?)
        .saturating_add(22);
    let columns = columns_of(alloc, slots, width, gap)?;
    let right = match columns.last() {
        Some(last) => last.left.saturating_add(width),
        None => LEFT.saturating_add(width),
    };
    let lefts = lefts_of(alloc, &columns, layout.columns.len())?;
    Ok(Places {
        width,
        is_narrow: is_narrow(width),
        gap,
        columns,
        lefts,
        right,
        names,
        top,
        bottom,
        notes,
    })
}
