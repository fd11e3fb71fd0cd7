//! A picture: operations in columns, buffers in rows, and fences as bars between the columns.

ghost use Rattle.std.specs.Prelude.{IfOk, string_bytes};
ghost use Rattle.dsa_drawing.specs.Pictures.{IsPicture};

use crate::bars::{push_barriers, push_bars};
use crate::grid::{Grid, grid_of};
use crate::heads::{push_columns, push_heads};
use crate::layout::{Bar, Column, Layout};
use crate::places::{Placed, Places, places_of};
use crate::rows::{push_conflicts, push_marks, push_rows};
use crate::shapes::{Extent, Spot, place, push_box, push_head, push_text};
use crate::slots::{Slot, slots_of};
use std::alloc::{AllocError, Global};

/// The pattern on the columns of operations that are not looked at.
const HATCH: &str = "<defs><pattern id=\"hatch\" width=\"6\" height=\"6\" \
    patternUnits=\"userSpaceOnUse\" patternTransform=\"rotate(45)\">\
    <path d=\"M0 0v6\" stroke=\"#999\" stroke-width=\"2\"/></pattern></defs>\n";

/// The least width of a picture, in which the lines at its end have room.
const LEAST_WIDTH: usize = 500;

/// Whether an operation is not looked at.
fn is_unseen(column: &Column) -> bool {
    column.touched.is_none()
}

/// Writes the ground of a column from here on.
fn push_ground(
    svg: &mut String,
    places: &Places,
    from: Spot,
    paint: &str,
) -> Result<(), AllocError> {
    let extent = Extent {
        width: places.width,
        height: places.bottom.saturating_sub(from.y),
    };
    push_box(svg, from, extent, paint)?;
    svg.push_str("\n")
}

/// Writes the grey of a column of each second epoch, and the hatching of one that is not looked at.
fn push_grounds_of(
    svg: &mut String,
    layout: &Layout<'_>,
    places: &Places,
    column: &Placed,
    is_second: bool,
) -> Result<(), AllocError> {
    if is_second {
        let paint = "class=\"epoch\" fill=\"#eee\"";
        push_ground(svg, places, place(column.left, places.names), paint)?;
    }
    if column.slot.column(layout).is_some_and(is_unseen) {
        let paint = "class=\"unseen\" fill=\"url(#hatch)\"";
        push_ground(svg, places, place(column.left, places.top), paint)?;
    }
    Ok(())
}

/// Passes the bars up to this column, and answers the others and whether the epoch there is a second one, if that
/// before was or not.
fn epoch_at(bars: &[Bar], column: usize, is_second: bool) -> (&[Bar], bool) {
    let none: &[Bar] = &[];
    let mut is_second = is_second;
    for (number, bar) in bars.iter().enumerate() {
        if bar.column > column {
            let (_, rest) = bars.split_at(number.min(bars.len()));
            return (rest, is_second);
        }
        is_second = bar.is_set() != is_second;
    }
    (none, is_second)
}

/// Writes the grounds of the columns: epochs are white and grey by turns.
fn push_grounds(svg: &mut String, layout: &Layout<'_>, places: &Places) -> Result<(), AllocError> {
    let mut bars = layout.bars.as_slice();
    let (mut group, mut is_second) = (usize::MAX, false);
    for column in &places.columns {
        (bars, is_second) = epoch_at(bars, column.slot.first, is_second);
        is_second = column.slot.group == group && is_second;
        group = column.slot.group;
        push_grounds_of(svg, layout, places, column, is_second)?;
    }
    Ok(())
}

/// Writes how many operations and ranges of addresses are folded, if some are.
fn push_folded(
    text: &mut String,
    layout: &Layout<'_>,
    slots: &[Slot],
    grid: &Grid,
) -> Result<(), AllocError> {
    let shown = slots
        .iter()
        .filter(|slot| slot.operation().is_some())
        .count();
    let operations = layout.columns.len();
    if shown < operations {
        let folded = operations.saturating_sub(shown);
        write!(text, "folded: {folded} of {operations} operations")?;
    }
    let (rows, ranges) = (grid.single_rows(), grid.ranges());
    if rows < ranges {
        let folded = ranges.saturating_sub(rows);
        text.push_str(if text.is_empty() { "folded: " } else { ", " })?;
        write!(text, "{folded} of {ranges} buffers")?;
    }
    Ok(())
}

/// Writes the lines at the end.
fn push_notes(
    svg: &mut String,
    layout: &Layout<'_>,
    places: &Places,
    folded: &str,
    width: usize,
) -> Result<(), AllocError> {
    let mut y = places.notes;
    let width = width.saturating_sub(16);
    for note in &layout.notes {
        push_text(svg, place(8, y), width, note)?;
        svg.push_str("\n")?;
        y = y.saturating_add(14);
    }
    if folded.is_empty() {
        return Ok(());
    }
    push_text(svg, place(8, y), width, folded)?;
    svg.push_str("\n")
}

/// What is drawn, and where.
#[derive(Clone, Copy)]
struct Picture<'a> {
    layout: &'a Layout<'a>,
    grid: &'a Grid,
    places: &'a Places,
    /// How many operations and ranges of addresses are folded, if some are.
    folded: &'a str,
}

impl Picture<'_> {
    /// How wide and how high it is.
    fn extent(&self) -> Extent {
        let notes = self.layout.notes.len();
        let lines = notes.saturating_add(if self.folded.is_empty() { 0 } else { 1 });
        Extent {
            width: self.places.right.saturating_add(10).max(LEAST_WIDTH),
            height: self.places.notes.saturating_add(lines.saturating_mul(14)),
        }
    }

    /// Writes the grounds of its columns, and what is above them.
    fn push_columns(&self, alloc: Global, svg: &mut String) -> Result<(), AllocError> {
        if self.layout.columns.iter().any(is_unseen) {
            svg.push_str(HATCH)?;
        }
        push_grounds(svg, self.layout, self.places)?;
        push_heads(alloc, svg, self.layout, self.places)?;
        push_columns(alloc, svg, self.layout, self.places)
    }

    /// Writes its rows, and what is in its columns.
    fn push_rows(&self, alloc: Global, svg: &mut String) -> Result<(), AllocError> {
        push_rows(alloc, svg, self.layout.buffers, self.grid, self.places)?;
        push_barriers(alloc, svg, self.layout, self.places)?;
        push_bars(alloc, svg, &self.layout.bars, self.places)?;
        push_conflicts(svg, self.layout, self.grid, self.places)?;
        push_marks(alloc, svg, self.grid, self.places)
    }

    /// Writes all of it after its first word.
    fn push(&self, alloc: Global, svg: &mut String) -> Result<(), AllocError> {
        let extent = self.extent();
        push_head(svg, extent, &self.layout.title)?;
        self.push_columns(alloc, svg)?;
        self.push_rows(alloc, svg)?;
        push_notes(svg, self.layout, self.places, self.folded, extent.width)
    }
}

/// What is in a picture after its first word.
fn body(alloc: Global, layout: &Layout<'_>) -> Result<String, AllocError> {
    let slots = slots_of(alloc, layout)?;
    let grid = grid_of(alloc, layout, &slots)?;
    let places = places_of(alloc, layout, &slots, &grid)?;
    let mut folded = String::new(alloc);
    push_folded(&mut folded, layout, &slots, &grid)?;
    let picture = Picture {
        layout,
        grid: &grid,
        places: &places,
        folded: &folded,
    };
    let mut svg = String::new(alloc);
    picture.push(alloc, &mut svg)?;
    Ok(svg)
}

/// The picture as SVG, without scripts. Each operation has a column, below its number and its name; each range of
/// addresses that these read or write has a row, with a mark where an operation does: R, W or RW. A fence is a bar
/// before its operation, the conflict that it is about a red line from the mark of the earlier operation to that of the
/// later, and the words of the fence are below; a barrier between groups is a dotted line. Epochs are white and grey by
/// turns. Of more than 24 operations those of groups that are like others are folded; or else also those that repeat
/// others, and the pieces of one operation, with all that they read and write; or else those that no fence is about,
/// and what is too many after that. Of more than 48 ranges those that have no conflict are folded. A browser shows the
/// titles of groups, operations, ranges and fences under the pointer.
pub fn draw(alloc: Global, layout: &Layout<'_>) -> Result<String, AllocError>
    ensures { IfOk result (λ s. IsPicture (string_bytes s)) }
{
    let parts = body(alloc, layout)?;
    let mut svg = String::from_str(alloc, "<svg ")?;
    svg.push_str(&parts)?;
    svg.push_str("</svg>\n")?;
    Ok(svg)
}
