//! The ranges of addresses that are rows: ranges that overlap are one, unless only larger ones join them.

use dsa_ranges::Span;
use std::alloc::{AllocError, Global};

/// A range of addresses that has a row.
#[derive(Clone, Copy)]
pub(crate) struct Range {
    pub(crate) first: u64,
    pub(crate) end: u128,
    /// Whether an operation touches bytes right before it together with its own.
    pub(crate) is_joined: bool,
}

/// Addresses between which no row begins.
#[derive(Clone, Copy)]
struct Whole {
    first: u64,
    end: u128,
}

/// Adds of each span the bytes up to the end of the first smaller one in it to end.
fn push_fronts(spans: &mut Vec<Span>, wholes: &mut Vec<Whole>) -> Result<(), AllocError> {
    spans.sort_unstable_by_key(|span| (u64::MAX.saturating_sub(span.first), span.len));
    let mut end = u128::MAX;
    for span in spans.iter() {
        end = end.min(span.end());
        wholes.push(Whole {
            first: span.first,
            end,
        })?;
    }
    Ok(())
}

/// Adds of each span the bytes from the beginning of the last smaller one in it to begin.
fn push_backs(spans: &mut Vec<Span>, wholes: &mut Vec<Whole>) -> Result<(), AllocError> {
    spans.sort_unstable_by_key(|span| (span.end(), u64::MAX.saturating_sub(span.first)));
    let mut first = 0;
    for span in spans.iter() {
        first = span.first.max(first);
        wholes.push(Whole {
            first,
            end: span.end(),
        })?;
    }
    Ok(())
}

/// The addresses between which no row begins: a row may begin within a span only if there is a smaller one in it on
/// either side.
fn wholes_of(alloc: Global, spans: &mut Vec<Span>) -> Result<Vec<Whole>, AllocError> {
    let mut wholes = Vec::new(alloc);
    push_fronts(spans, &mut wholes)?;
    push_backs(spans, &mut wholes)?;
    wholes.sort_unstable_by_key(|whole| whole.first);
    Ok(wholes)
}

/// Passes those that begin before the address, and answers the rest and the greatest end so far.
fn passed(wholes: &[Whole], until: u128, address: u64) -> (&[Whole], u128) {
    let none: &[Whole] = &[];
    let mut until = until;
    for (number, whole) in wholes.iter().enumerate() {
        if whole.first >= address {
            let (_, rest) = wholes.split_at(number.min(wholes.len()));
            return (rest, until);
        }
        until = until.max(whole.end);
    }
    (none, until)
}

/// Adds a span to the last range, or begins one with it, if it may; spans so far end at `reach`.
fn add_span(
    ranges: &mut Vec<Range>,
    span: Span,
    reach: u128,
    may_begin: bool,
) -> Result<(), AllocError> {
    let mut is_joined = false;
    if let Some(last) = ranges.last_mut() {
        if !may_begin || last.first == span.first {
            last.end = reach;
            return Ok(());
        }
        let first = u128::from(span.first);
        is_joined = first < last.end;
        last.end = last.end.min(first);
    }
    ranges.push(Range {
        first: span.first,
        end: reach,
        is_joined,
    })?;
    Ok(())
}

/// The ranges of these spans, in order. One begins where a span does, but not within a span that has no smaller ones on
/// both sides.
pub(crate) fn ranges_of(alloc: Global, mut spans: Vec<Span>) -> Result<Vec<Range>, AllocError> {
    let wholes = wholes_of(alloc, &mut spans)?;
    spans.sort_unstable_by_key(|span| span.first);
    let mut ranges = Vec::new(alloc);
    let (mut rest, mut until, mut reach) = (wholes.as_slice(), 0, 0);
    for span in &spans {
        (rest, until) = passed(rest, until, span.first);
        reach = span.end().max(reach);
        add_span(&mut ranges, *span, reach, until <= u128::from(span.first))?;
    }
    Ok(ranges)
}
