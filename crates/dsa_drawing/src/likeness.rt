//! Which groups of a picture are like others.

use crate::layout::{Bar, Column, Group, Layout};
use std::alloc::{AllocError, Global};
use std::collections::BTreeMap;

/// Writes what is before a column, and which other columns it is about, as seen from column `start`.
pub(crate) fn push_bar(text: &mut String, bar: &Bar, start: usize) -> Result<(), AllocError> {
    let (column, words) = (bar.column.saturating_sub(start), &bar.words);
    let state = if bar.is_accepted_wait() {
        "accepted "
    } else {
        ""
    };
    write!(text, "; {column} {state}{words}")?;
    match bar.separated {
        Some(separated) => {
            let (earlier, later) = (separated.earlier, separated.later);
            let before = start.saturating_sub(earlier);
            let (after, last) = (earlier.saturating_sub(start), later.saturating_sub(start));
            write!(text, " {before} {after} {last}")
        }
        None => Ok(()),
    }
}

/// Writes what columns that are alike have in common: the name, which may be a comment, the size, and how many spans
/// are read and written, which distinguishes operations.
pub(crate) fn push_column(text: &mut String, column: &Column) -> Result<(), AllocError> {
    let (name, size) = (&column.name, column.size);
    write!(text, "; {name} {size}")?;
    match &column.touched {
        Some(touched) => {
            let (reads, writes) = (touched.reads.len(), touched.writes.len());
            write!(text, " {reads} {writes}")
        }
        None => Ok(()),
    }
}

/// Writes what groups that are alike have in common: the operations and the fences.
fn push_common(
    text: &mut String,
    group: &Group,
    columns: &[Column],
    bars: &[Bar],
    start: usize,
) -> Result<(), AllocError> {
    text.push_str(&group.kind)?;
    if group.has_barrier {
        text.push_str("; barrier")?;
    }
    for column in columns {
        push_column(text, column)?;
    }
    for bar in bars {
        push_bar(text, bar, start)?;
    }
    Ok(())
}

/// The bars before a column, and the others.
pub(crate) fn bars_around(bars: &[Bar], column: usize) -> (&[Bar], &[Bar]) {
    let none: &[Bar] = &[];
    for (number, bar) in bars.iter().enumerate() {
        if bar.column >= column {
            return bars.split_at(number.min(bars.len()));
        }
    }
    (bars, none)
}

/// The first number that came with this text, which is this number if none did.
pub(crate) fn first_with(
    firsts: &mut BTreeMap<String, usize>,
    text: String,
    number: usize,
) -> Result<usize, AllocError> {
    if let Some(first) = firsts.get(&text) {
        return Ok(*first);
    }
    firsts.insert(text, number)?;
    Ok(number)
}

/// For each group the first that it is like, if it is not that.
pub(crate) fn likes_of(
    alloc: Global,
    layout: &Layout<'_>,
) -> Result<Vec<Option<usize>>, AllocError> {
    let (mut rest, mut rest_bars) = (layout.columns.as_slice(), layout.bars.as_slice());
    let mut start = 0usize;
    let mut firsts = BTreeMap::new(alloc);
    let mut likes = Vec::new(alloc);
    for (number, group) in layout.groups.iter().enumerate() {
        let (own, after) = rest.split_at(group.size.min(rest.len()));
        let end = start.saturating_add(own.len());
        let (own_bars, bars_after) = bars_around(rest_bars, end);
        let mut text = String::new(alloc);
        push_common(&mut text, group, own, own_bars, start)?;
        let first = first_with(&mut firsts, text, number)?;
        likes.push(if first < number { Some(first) } else { None })?;
        (rest, rest_bars, start) = (after, bars_after, end);
    }
    Ok(likes)
}
