//! Columns that repeat those before them, which are folded into one.

use crate::layout::{Bar, Layout};
use crate::likeness::{bars_around, first_with, push_bar, push_column};
use crate::slots::{Fold, Slot};
use std::alloc::{AllocError, Global};
use std::collections::BTreeMap;

/// The most columns that are shown for those that repeat them.
const MOST_PERIOD: usize = 12;

/// A column as it is compared with others.
#[derive(Clone, Copy)]
struct Token {
    /// Equal for columns that are alike.
    kind: usize,
    /// Whether its group begins with it.
    begins: bool,
}

/// Columns that are repeated: how many, and how often they come in all.
#[derive(Clone, Copy)]
struct Repeat {
    period: usize,
    times: usize,
}

impl Repeat {
    /// How many columns are folded.
    fn folded(self) -> usize {
        self.times.saturating_sub(1).saturating_mul(self.period)
    }
}

/// Writes what operations that are alike have in common, of so many from the first on.
fn push_operations(text: &mut String, layout: &Layout<'_>, slot: &Slot) -> Result<(), AllocError> {
    for column in layout.columns.iter().skip(slot.first).take(slot.count) {
        push_column(text, column)?;
    }
    Ok(())
}

/// Writes what is in a column. No two folds of groups that are like others are alike.
fn push_content(text: &mut String, layout: &Layout<'_>, slot: &Slot) -> Result<(), AllocError> {
    let (first, count, groups) = (slot.first, slot.count, slot.groups);
    match slot.fold {
        Fold::Plain | Fold::Pieces(_) => write!(text, "; {count} in {groups} ")?,
        Fold::Like(_) | Fold::LikeSeveral | Fold::Repeats(_, _) | Fold::Rest => {
            return write!(text, "; at {first}");
        }
    }
    match slot.split() {
        Some(operation) => text.push_str(layout.split_name(operation).unwrap_or("")),
        None => push_operations(text, layout, slot),
    }
}

/// Writes what columns that are alike have in common, of which these are the bars.
fn push_slot(
    text: &mut String,
    layout: &Layout<'_>,
    slot: &Slot,
    begins: bool,
    bars: &[Bar],
) -> Result<(), AllocError> {
    if begins && let Some(group) = layout.groups.get(slot.group) {
        text.push_str(&group.kind)?;
        if group.has_barrier {
            text.push_str(" barrier")?;
        }
    }
    push_content(text, layout, slot)?;
    for bar in bars {
        push_bar(text, bar, slot.first)?;
    }
    Ok(())
}

/// The columns as they are compared.
fn tokens_of(alloc: Global, layout: &Layout<'_>, slots: &[Slot]) -> Result<Vec<Token>, AllocError> {
    let mut kinds = BTreeMap::new(alloc);
    let mut tokens = Vec::new(alloc);
    let (mut bars, mut group) = (layout.bars.as_slice(), usize::MAX);
    for slot in slots {
        let (own, after) = bars_around(bars, slot.first.saturating_add(slot.count));
        let begins = slot.group != group;
        let mut text = String::new(alloc);
        push_slot(&mut text, layout, slot, begins, own)?;
        let next = kinds.len();
        let kind = first_with(&mut kinds, text, next)?;
        tokens.push(Token { kind, begins })?;
        (bars, group) = (after, slot.group);
    }
    Ok(tokens)
}

/// How many of these columns are in the group of the first, if that does not begin it; else all.
fn reach_of(tokens: &[Token]) -> usize {
    if tokens.first().is_some_and(|first| first.begins) {
        return tokens.len();
    }
    for (number, token) in tokens.iter().enumerate() {
        if token.begins {
            return number;
        }
    }
    tokens.len()
}

/// How often the first columns of this number come one after another.
fn times_of(tokens: &[Token], period: usize) -> usize {
    let (_, later) = tokens.split_at(period.min(tokens.len()));
    let mut same: usize = 0;
    for (token, other) in tokens.iter().zip(later.iter()) {
        if token.kind != other.kind {
            break;
        }
        same = same.saturating_add(1);
    }
    (same / period.max(1)).saturating_add(1)
}

/// The repeat at the first of these columns that folds most columns, if one folds two or more.
fn repeat_at(tokens: &[Token]) -> Option<Repeat> {
    let (own, _) = tokens.split_at(reach_of(tokens).min(tokens.len()));
    let mut best = Repeat {
        period: 1,
        times: 1,
    };
    for period in 1..MOST_PERIOD.saturating_add(1) {
        let repeat = Repeat {
            period,
            times: times_of(own, period),
        };
        if repeat.folded() > best.folded() {
            best = repeat;
        }
    }
    if best.folded() > 1 { Some(best) } else { None }
}

/// The column of these, which repeat those before.
fn folded_slot(slots: &[Slot], repeat: Repeat) -> Option<Slot> {
    let (first, last) = (slots.first()?, slots.last()?);
    let end = last.first.saturating_add(last.count);
    let groups = last.group.saturating_add(last.groups);
    Some(Slot {
        first: first.first,
        count: end.saturating_sub(first.first),
        group: first.group,
        groups: groups.saturating_sub(first.group),
        fold: Fold::Repeats(repeat.period, repeat.times),
    })
}

/// Adds the first of these columns, or those that are repeated and one for all that repeat them. Answers how many
/// columns these are.
fn push_next(kept: &mut Vec<Slot>, slots: &[Slot], tokens: &[Token]) -> Result<usize, AllocError> {
    let Some(repeat) = repeat_at(tokens) else {
        let (own, _) = slots.split_at(1.min(slots.len()));
        kept.extend_from_slice(own)?;
        return Ok(1);
    };
    let (own, rest) = slots.split_at(repeat.period.min(slots.len()));
    kept.extend_from_slice(own)?;
    let (folded, _) = rest.split_at(repeat.folded().min(rest.len()));
    if let Some(slot) = folded_slot(folded, repeat) {
        kept.push(slot)?;
    }
    Ok(repeat.period.saturating_add(repeat.folded()))
}

/// The columns, with one for all that repeat those before.
pub(crate) fn without_repeats(
    alloc: Global,
    layout: &Layout<'_>,
    slots: &[Slot],
) -> Result<Vec<Slot>, AllocError> {
    let tokens = tokens_of(alloc, layout, slots)?;
    let mut kept = Vec::new(alloc);
    let (mut rest, mut others) = (slots, tokens.as_slice());
    for _ in 0..slots.len() {
        if rest.is_empty() {
            break;
        }
        let count = push_next(&mut kept, rest, others)?.max(1);
        (_, rest) = rest.split_at(count.min(rest.len()));
        (_, others) = others.split_at(count.min(others.len()));
    }
    Ok(kept)
}
