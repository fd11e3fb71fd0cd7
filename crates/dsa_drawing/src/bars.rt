//! The bars of fences, and the words below them.

use crate::layout::{Bar, BarKind, Layout};
use crate::places::{MOST_TURNED, Placed, Places};
use crate::shapes::{Extent, close, open, place, push_box, push_line, push_turned, push_wrapped};
use std::alloc::{AllocError, Global};

/// What is below a barrier.
pub(crate) const BARRIER: &str = "barrier";

/// What a browser shows of a barrier under the pointer.
const BARRIER_TITLE: &str = "barrier: what follows begins when all before it have succeeded";

/// A bar of a fence that is not needed.
const HOLLOW: &str = "fill=\"white\" stroke=\"black\"";

/// One that is an error.
const HOLLOW_RED: &str = "fill=\"white\" stroke=\"#c00\" stroke-width=\"2\"";

/// What the picture calls a kind of bar.
fn class_of(kind: BarKind) -> &'static str {
    match kind {
        BarKind::Needed => "fence",
        BarKind::Missing => "missing",
        BarKind::Needless => "needless",
        BarKind::Kept => "kept",
        BarKind::NoEffect { .. } => "no-effect",
        BarKind::MissingWait { .. } => "wait",
    }
}

/// How far a missing wait is from a fence before the same column.
const BESIDE: usize = 6;

/// Writes a missing wait as a dotted line before a column that begins there, which may have a fence too.
fn push_wait(
    svg: &mut String,
    places: &Places,
    is_error: bool,
    left: usize,
) -> Result<(), AllocError> {
    let x = left.saturating_sub(BESIDE);
    let foot = places.bottom.saturating_add(4);
    let paint = if is_error {
        "stroke=\"#c00\" stroke-width=\"3\" stroke-dasharray=\"2 3\""
    } else {
        "stroke=\"#999\" stroke-width=\"3\" stroke-dasharray=\"2 3\""
    };
    push_line(svg, place(x, places.names), place(x, foot), paint)
}

/// Writes the bar of a fence before a column that begins there.
fn push_shape(
    svg: &mut String,
    places: &Places,
    kind: BarKind,
    left: usize,
) -> Result<(), AllocError> {
    let (x, top) = (left.saturating_sub(2), places.names);
    let extent = Extent {
        width: 4,
        height: places.bottom.saturating_add(4).saturating_sub(top),
    };
    match kind {
        BarKind::Needed => push_box(svg, place(x, top), extent, "fill=\"black\""),
        BarKind::Kept => push_box(svg, place(x, top), extent, "fill=\"#999\""),
        BarKind::Needless => push_box(svg, place(x, top), extent, HOLLOW),
        BarKind::NoEffect { is_error } => {
            let paint = if is_error { HOLLOW_RED } else { HOLLOW };
            push_box(svg, place(x, top), extent, paint)
        }
        BarKind::Missing => {
            let foot = places.bottom.saturating_add(4);
            let paint = "stroke=\"#c00\" stroke-width=\"4\" stroke-dasharray=\"6 4\"";
            push_line(svg, place(left, top), place(left, foot), paint)
        }
        BarKind::MissingWait { is_error } => push_wait(svg, places, is_error, left),
    }
}

/// Writes words below a bar.
fn push_words(
    alloc: Global,
    svg: &mut String,
    places: &Places,
    left: usize,
    words: &str,
) -> Result<(), AllocError> {
    let foot = places.bottom;
    if places.is_narrow {
        let at = place(left.saturating_add(4), foot.saturating_add(9));
        return push_turned(svg, at, "end", words, MOST_TURNED);
    }
    let (at, width) = (
        place(left, foot.saturating_add(16)),
        places.width.saturating_sub(4),
    );
    svg.push_str("<g text-anchor=\"middle\">")?;
    push_wrapped(alloc, svg, at, width, words)?;
    svg.push_str("</g>")
}

/// Writes the bars, each with its words.
pub(crate) fn push_bars(
    alloc: Global,
    svg: &mut String,
    bars: &[Bar],
    places: &Places,
) -> Result<(), AllocError> {
    for bar in bars {
        if let Some(left) = places.left_of(bar.column) {
            open(svg, class_of(bar.kind), &bar.title)?;
            push_shape(svg, places, bar.kind, left)?;
            push_words(alloc, svg, places, left, &bar.words)?;
            close(svg)?;
        }
    }
    Ok(())
}

/// Writes a barrier before a group that begins there.
fn push_barrier(
    alloc: Global,
    svg: &mut String,
    places: &Places,
    left: usize,
) -> Result<(), AllocError> {
    let x = left.saturating_sub(places.gap / 2);
    let foot = places.bottom.saturating_add(4);
    let paint = "stroke=\"black\" stroke-width=\"2\" stroke-dasharray=\"2 3\"";
    open(svg, "barrier", BARRIER_TITLE)?;
    push_line(svg, place(x, places.names), place(x, foot), paint)?;
    push_words(alloc, svg, places, x, BARRIER)?;
    close(svg)
}

/// Writes the barriers between groups.
pub(crate) fn push_barriers(
    alloc: Global,
    svg: &mut String,
    layout: &Layout<'_>,
    places: &Places,
) -> Result<(), AllocError> {
    let mut before = 0;
    for Placed { slot, left } in &places.columns {
        if slot.group != before
            && let Some(group) = layout.groups.get(slot.group)
            && group.has_barrier
        {
            push_barrier(alloc, svg, places, *left)?;
        }
        before = slot.group;
    }
    Ok(())
}
