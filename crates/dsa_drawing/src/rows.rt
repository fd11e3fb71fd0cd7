//! The rows of a picture: buffers, what operations do in them, and conflicts.

use crate::grid::{Grid, Mark, Row};
use crate::layout::{Bar, Buffer, Layout};
use crate::places::{LEFT, Places, ROW};
use crate::shapes::{Extent, Spot, close, place, push_box, push_line, push_text};
use crate::texts::{SIZE, letter_size, letters_in, letters_of};
use std::alloc::{AllocError, Global};

/// How far a mark is from the sides of its column.
const INSET: usize = 7;

/// How high a mark is that does not go on in the next row.
const HIGH: usize = 14;

/// How wide the strip is that shows which part of its row a mark is, with what is around it.
const STRIP: usize = 8;

/// How high the strip is.
const STRIP_HIGH: u128 = 10;

/// The smallest letters of the offset of a part.
const SMALL: usize = 7;

/// Writes addresses from the first to before the end.
fn push_addresses(text: &mut String, first: u64, end: u128) -> Result<(), AllocError> {
    let size = end.saturating_sub(u128::from(first));
    write!(text, "0x{first:x} +{size}")
}

/// Opens a group of parts of this class, with addresses as its title.
fn open_at(svg: &mut String, class: &str, first: u64, end: u128) -> Result<(), AllocError> {
    write!(svg, "<g class=\"{class}\"><title>")?;
    push_addresses(svg, first, end)?;
    svg.push_str("</title>")
}

/// Writes the name of a row: its buffer's, with its offset if the buffer begins in a row before; or its addresses; or
/// how many buffers it has.
fn push_row_name(name: &mut String, buffers: &[Buffer], row: &Row) -> Result<(), AllocError> {
    let ranges = row.ranges;
    if ranges > 1 {
        return write!(name, "{ranges} buffers");
    }
    if let Some(number) = row.name
        && let Some(buffer) = buffers.get(number)
    {
        name.push_str(&buffer.name)?;
        let offset = row.first.saturating_sub(buffer.address);
        return if offset > 0 {
            write!(name, " at {offset}")
        } else {
            Ok(())
        };
    }
    push_addresses(name, row.first, row.end)
}

/// Writes a row that begins there.
fn push_row(
    alloc: Global,
    svg: &mut String,
    buffers: &[Buffer],
    row: &Row,
    top: usize,
    right: usize,
) -> Result<(), AllocError> {
    open_at(svg, "row", row.first, row.end)?;
    let mut name = String::new(alloc);
    push_row_name(&mut name, buffers, row)?;
    let (at, foot) = (place(8, top.saturating_add(15)), top.saturating_add(ROW));
    push_text(svg, at, LEFT - 14, &name)?;
    push_line(
        svg,
        place(LEFT, foot),
        place(right, foot),
        "stroke=\"#ccc\"",
    )?;
    close(svg)
}

/// Writes the rows.
pub(crate) fn push_rows(
    alloc: Global,
    svg: &mut String,
    buffers: &[Buffer],
    grid: &Grid,
    places: &Places,
) -> Result<(), AllocError> {
    for (number, row) in grid.rows.iter().enumerate() {
        push_row(
            alloc,
            svg,
            buffers,
            row,
            places.top_of(number),
            places.right,
        )?;
    }
    Ok(())
}

/// Where the line of the conflict of a fence begins and ends, if both operations have columns.
fn ends_of(places: &Places, bar: &Bar) -> Option<(usize, usize)> {
    let separated = bar.separated?;
    let earlier = places.left_of(separated.earlier)?;
    let later = places.left_of(separated.later)?;
    let from = earlier.saturating_add(places.width).saturating_sub(INSET);
    Some((from, later.saturating_add(INSET)))
}

/// Writes the lines of the conflicts, each from the earlier operation to the later.
pub(crate) fn push_conflicts(
    svg: &mut String,
    layout: &Layout<'_>,
    grid: &Grid,
    places: &Places,
) -> Result<(), AllocError> {
    let paint = "class=\"conflict\" stroke=\"#c00\" stroke-width=\"2\"";
    for (row, bar) in &grid.conflicts {
        if let Some(bar) = layout.bars.get(*bar)
            && let Some((from, to)) = ends_of(places, bar)
        {
            let y = places.top_of(*row).saturating_add(ROW / 2);
            push_line(svg, place(from, y), place(to, y), paint)?;
            svg.push_str("\n")?;
        }
    }
    Ok(())
}

/// The letters of a mark.
fn letters(mark: &Mark) -> &'static str {
    match (mark.reads, mark.writes) {
        (true, true) => "RW",
        (false, true) => "W",
        (true, false) | (false, false) => "R",
    }
}

/// Which part of its row a mark is, as an offset and a size of all bytes.
#[derive(Clone, Copy)]
struct Part {
    offset: u128,
    size: u128,
    all: u128,
}

/// The part of its row that a mark is, if it is not all of it. In a row of several buffers none is drawn.
fn part_of(row: &Row, mark: &Mark) -> Option<Part> {
    let offset = u128::from(mark.first.saturating_sub(row.first));
    let size = mark.end.saturating_sub(u128::from(mark.first));
    let all = row.end.saturating_sub(u128::from(row.first));
    if row.ranges > 1 || size >= all {
        return None;
    }
    Some(Part { offset, size, all })
}

/// So many of the bytes as a length of the strip.
fn scaled(bytes: u128, all: u128) -> usize {
    let length = bytes.saturating_mul(STRIP_HIGH) / all.max(1);
    usize::try_from(length).unwrap_or(0)
}

/// Writes a strip that stands for the row, black where the part is.
fn push_strip(svg: &mut String, at: Spot, part: Part) -> Result<(), AllocError> {
    let high = scaled(STRIP_HIGH, STRIP_HIGH);
    let own = scaled(part.size, part.all).max(2);
    let above = scaled(part.offset, part.all).min(high.saturating_sub(own));
    let (width, height) = (4, high);
    push_box(svg, at, Extent { width, height }, "fill=\"white\"")?;
    let (from, height) = (place(at.x, at.y.saturating_add(above)), own);
    push_box(svg, from, Extent { width, height }, "fill=\"black\"")
}

/// Writes words in the middle of a width from a place on.
fn push_middle(
    svg: &mut String,
    from: Spot,
    width: usize,
    ink: &str,
    words: &str,
) -> Result<(), AllocError> {
    let (x, y) = (from.x.saturating_add(width / 2), from.y);
    write!(svg, "<text x=\"{x}\" y=\"{y}\" fill=\"{ink}\"")?;
    let size = letter_size(words, width);
    if size != SIZE {
        write!(svg, " font-size=\"{size}\"")?;
    }
    write!(svg, " text-anchor=\"middle\">{words}</text>")
}

/// The words of a mark in a part of its row: with the offset, if there is room.
fn part_words(alloc: Global, mark: &Mark, part: Part, width: usize) -> Result<String, AllocError> {
    let (letters, offset) = (letters(mark), part.offset);
    let words = format!(in alloc; "{letters} at {offset}")?;
    if letters_of(&words) <= letters_in(width, SMALL) {
        Ok(words)
    } else {
        String::from_str(alloc, letters)
    }
}

/// Writes the box of a mark with its words, and if it is a part of its row, which part.
fn push_mark_box(
    alloc: Global,
    svg: &mut String,
    mark: &Mark,
    part: Option<Part>,
    at: Spot,
    width: usize,
) -> Result<(), AllocError> {
    let (paint, ink) = if mark.writes {
        ("fill=\"#456\" stroke=\"#456\"", "white")
    } else {
        ("fill=\"white\" stroke=\"#456\"", "black")
    };
    let height = if mark.goes_on { ROW } else { HIGH };
    push_box(svg, at, Extent { width, height }, paint)?;
    let base = at.y.saturating_add(11);
    let Some(part) = part else {
        return push_middle(svg, place(at.x, base), width, ink, letters(mark));
    };
    let strip = place(at.x.saturating_add(2), at.y.saturating_add(2));
    push_strip(svg, strip, part)?;
    let (from, room) = (
        place(at.x.saturating_add(STRIP), base),
        width.saturating_sub(STRIP),
    );
    let words = part_words(alloc, mark, part, room)?;
    push_middle(svg, from, room, ink, &words)
}

/// Writes a mark of this row in a column that begins there. A browser shows the addresses of a part.
fn push_mark(
    alloc: Global,
    svg: &mut String,
    places: &Places,
    row: &Row,
    mark: &Mark,
    left: usize,
) -> Result<(), AllocError> {
    let at = place(
        left.saturating_add(INSET),
        places.top_of(mark.row).saturating_add(4),
    );
    let part = part_of(row, mark);
    if part.is_some() {
        open_at(svg, "mark", mark.first, mark.end)?;
    } else {
        svg.push_str("<g class=\"mark\">")?;
    }
    let width = places.width.saturating_sub(2 * INSET);
    push_mark_box(alloc, svg, mark, part, at, width)?;
    close(svg)
}

/// Writes what operations do.
pub(crate) fn push_marks(
    alloc: Global,
    svg: &mut String,
    grid: &Grid,
    places: &Places,
) -> Result<(), AllocError> {
    for mark in &grid.marks {
        if let Some(left) = places.left_of(mark.column)
            && let Some(row) = grid.rows.get(mark.row)
        {
            push_mark(alloc, svg, places, row, mark, left)?;
        }
    }
    Ok(())
}
