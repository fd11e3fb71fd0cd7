//! What is above the columns of a picture: groups, and the names of operations.

use crate::layout::{Column, Layout};
use crate::places::{MOST_TURNED, Placed, Places};
use crate::shapes::{Spot, close, open, place, push_line, push_text, push_turned, push_wrapped};
use crate::slots::{Fold, Slot};
use std::alloc::{AllocError, Global};

/// The words above a group.
#[derive(Clone, Copy)]
struct Head<'a> {
    title: &'a str,
    name: &'a str,
    kind: &'a str,
    cost: &'a str,
}

/// Columns of one group: the first, where that begins, and where the last ends.
#[derive(Clone, Copy)]
struct Stretch {
    first: Slot,
    left: usize,
    right: usize,
}

/// The number of a group of the picture.
fn number_of(layout: &Layout<'_>, group: usize) -> usize {
    layout.groups.get(group).map_or(group, |it| it.number)
}

/// Writes the words above a narrow group, which are read from the bottom to the top and end here.
fn push_turned_words(svg: &mut String, head: Head<'_>, from: Spot) -> Result<(), AllocError> {
    let kind = place(from.x.saturating_add(11), from.y);
    let cost = place(from.x.saturating_add(24), from.y);
    push_turned(svg, kind, "start", head.kind, usize::MAX)?;
    push_turned(svg, cost, "start", head.cost, usize::MAX)
}

/// Writes the words above a group in lines, of which the last is here.
fn push_level_words(
    svg: &mut String,
    head: Head<'_>,
    from: Spot,
    width: usize,
) -> Result<(), AllocError> {
    let x = from.x.saturating_add(2);
    let (first, second) = (from.y.saturating_sub(26), from.y.saturating_sub(13));
    push_text(svg, place(x, first), width, head.name)?;
    push_text(svg, place(x, second), width, head.kind)?;
    push_text(svg, place(x, from.y), width, head.cost)
}

/// Writes these words above a group.
fn push_head(
    svg: &mut String,
    places: &Places,
    head: Head<'_>,
    stretch: Stretch,
) -> Result<(), AllocError> {
    let Stretch { left, right, .. } = stretch;
    let base = places.names.saturating_sub(3);
    let (from, width) = (
        place(left, base.saturating_sub(5)),
        right.saturating_sub(left),
    );
    open(svg, "group", head.title)?;
    if places.is_narrow && width < 60 {
        push_turned_words(svg, head, from)?;
    } else {
        push_level_words(svg, head, from, width)?;
    }
    let ends = (left.saturating_add(1), right.saturating_sub(1));
    let (start, end) = (place(ends.0, base), place(ends.1, base));
    push_line(svg, start, end, "stroke=\"black\"")?;
    close(svg)
}

/// Writes what is above several groups that are folded.
fn push_folded_groups(
    alloc: Global,
    svg: &mut String,
    layout: &Layout<'_>,
    places: &Places,
    stretch: Stretch,
) -> Result<(), AllocError> {
    let groups = stretch.first.groups;
    let first = number_of(layout, stretch.first.group);
    let last = first.saturating_add(groups).saturating_sub(1);
    let title = format!(in alloc; "groups {first} to {last}")?;
    let name = format!(in alloc; "{first} to {last}")?;
    let kind = format!(in alloc; "{groups} groups")?;
    let head = Head {
        title: &title,
        name: &name,
        kind: &kind,
        cost: "folded",
    };
    push_head(svg, places, head, stretch)
}

/// Writes what is above the group of these columns, if there are any, or above several groups that are folded.
fn push_stretch(
    alloc: Global,
    svg: &mut String,
    layout: &Layout<'_>,
    places: &Places,
    stretch: Option<Stretch>,
) -> Result<(), AllocError> {
    let Some(stretch) = stretch else {
        return Ok(());
    };
    if stretch.first.groups > 1 {
        return push_folded_groups(alloc, svg, layout, places, stretch);
    }
    let Some(group) = layout.groups.get(stretch.first.group) else {
        return Ok(());
    };
    let head = Head {
        title: &group.title,
        name: &group.name,
        kind: &group.kind,
        cost: &group.cost,
    };
    push_head(svg, places, head, stretch)
}

/// Writes what is above the groups.
pub(crate) fn push_heads(
    alloc: Global,
    svg: &mut String,
    layout: &Layout<'_>,
    places: &Places,
) -> Result<(), AllocError> {
    let mut stretch: Option<Stretch> = None;
    for Placed { slot, left } in &places.columns {
        let right = left.saturating_add(places.width);
        stretch = match stretch {
            Some(before) if before.first.group == slot.group => Some(Stretch { right, ..before }),
            Some(_) | None => {
                push_stretch(alloc, svg, layout, places, stretch)?;
                Some(Stretch {
                    first: *slot,
                    left: *left,
                    right,
                })
            }
        };
    }
    push_stretch(alloc, svg, layout, places, stretch)
}

/// Writes a name above a column.
fn push_name(
    alloc: Global,
    svg: &mut String,
    places: &Places,
    left: usize,
    name: &str,
) -> Result<(), AllocError> {
    if places.is_narrow {
        let at = place(
            left.saturating_add(places.width / 2).saturating_add(4),
            places.top.saturating_sub(20),
        );
        return push_turned(svg, at, "start", name, MOST_TURNED);
    }
    let (at, width) = (
        place(left.saturating_add(4), places.names.saturating_add(26)),
        places.width.saturating_sub(4),
    );
    push_wrapped(alloc, svg, at, width, name)
}

/// Writes what is above a column.
fn push_head_of(
    alloc: Global,
    svg: &mut String,
    places: &Places,
    left: usize,
    number: &str,
    name: &str,
) -> Result<(), AllocError> {
    let y = if places.is_narrow {
        places.top.saturating_sub(6)
    } else {
        places.names.saturating_add(12)
    };
    let at = place(left.saturating_add(4), y);
    push_text(svg, at, places.width.saturating_sub(4), number)?;
    push_name(alloc, svg, places, left, name)?;
    close(svg)
}

/// Writes what is above the column of an operation.
fn push_column(
    alloc: Global,
    svg: &mut String,
    places: &Places,
    left: usize,
    column: &Column,
) -> Result<(), AllocError> {
    open(svg, "operation", &column.title)?;
    let number = format!(in alloc; "{}", column.number)?;
    push_head_of(alloc, svg, places, left, &number, &column.name)
}

/// Writes what is said of groups that are like others.
fn push_like_name(
    name: &mut String,
    layout: &Layout<'_>,
    slot: &Slot,
    like: usize,
) -> Result<(), AllocError> {
    let (groups, number) = (slot.groups, number_of(layout, like));
    if slot.group == like.saturating_add(1) {
        write!(name, "{groups} more like it")
    } else {
        write!(name, "{groups} more like {number}")
    }
}

/// Writes what columns in which operations are folded have in common.
fn push_fold_name(name: &mut String, layout: &Layout<'_>, slot: &Slot) -> Result<(), AllocError> {
    let (count, groups) = (slot.count, slot.groups);
    match slot.fold {
        Fold::Like(like) => push_like_name(name, layout, slot, like),
        Fold::LikeSeveral => write!(name, "{groups} more like these"),
        Fold::Repeats(1, _) => name.push_str("the one before"),
        Fold::Repeats(columns, _) => write!(name, "the {columns} before"),
        Fold::Plain | Fold::Pieces(_) if groups > 1 => {
            write!(name, "{count} in {groups} groups")
        }
        Fold::Plain | Fold::Pieces(_) | Fold::Rest => write!(name, "{count} more"),
    }
}

/// The name of a column in which operations are folded.
pub(crate) fn fold_name(
    alloc: Global,
    layout: &Layout<'_>,
    slot: &Slot,
) -> Result<String, AllocError> {
    let mut name = String::new(alloc);
    match slot.split().and_then(|split| layout.split_name(split)) {
        Some(split) => write!(name, "{} pieces of {split}", slot.count)?,
        None => push_fold_name(&mut name, layout, slot)?,
    }
    Ok(name)
}

/// Writes why operations are folded.
fn push_reason(svg: &mut String, fold: Fold) -> Result<(), AllocError> {
    match fold {
        Fold::Plain | Fold::Pieces(_) => svg.push_str("no fence is about these"),
        Fold::Like(_) => svg.push_str("like a group that is shown"),
        Fold::LikeSeveral => svg.push_str("each like a group that is shown"),
        Fold::Repeats(1, times) => write!(svg, "the one before comes {times} times in all"),
        Fold::Repeats(columns, times) => {
            write!(svg, "the {columns} before come {times} times in all")
        }
        Fold::Rest => svg.push_str("there is no room for these"),
    }
}

/// Opens what is above a column in which operations are folded, with what a browser shows under the pointer.
fn open_fold(svg: &mut String, slot: &Slot) -> Result<(), AllocError> {
    let count = slot.count;
    let word = if count == 1 {
        "operation"
    } else {
        "operations"
    };
    write!(svg, "<g class=\"folded\"><title>folded: {count} {word}, ")?;
    push_reason(svg, slot.fold)?;
    svg.push_str("</title>")
}

/// What is above the name of a column in which operations are folded.
fn fold_number(alloc: Global, fold: Fold) -> Result<String, AllocError> {
    match fold {
        Fold::Repeats(_, times) => format!(in alloc; "x {times}"),
        Fold::Plain | Fold::Pieces(_) | Fold::Like(_) | Fold::LikeSeveral | Fold::Rest => {
            String::from_str(alloc, "…")
        }
    }
}

/// Writes what is above a column in which operations are folded.
fn push_fold(
    alloc: Global,
    svg: &mut String,
    places: &Places,
    left: usize,
    layout: &Layout<'_>,
    slot: &Slot,
) -> Result<(), AllocError> {
    open_fold(svg, slot)?;
    let number = fold_number(alloc, slot.fold)?;
    let name = fold_name(alloc, layout, slot)?;
    push_head_of(alloc, svg, places, left, &number, &name)
}

/// Writes what is above the columns.
pub(crate) fn push_columns(
    alloc: Global,
    svg: &mut String,
    layout: &Layout<'_>,
    places: &Places,
) -> Result<(), AllocError> {
    for Placed { slot, left } in &places.columns {
        if slot.is_folded() {
            push_fold(alloc, svg, places, *left, layout, slot)?;
        } else if let Some(column) = slot.column(layout) {
            push_column(alloc, svg, places, *left, column)?;
        }
    }
    Ok(())
}
