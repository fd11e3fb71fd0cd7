//! Which operations have a column of their own, and which are folded.

use crate::layout::{Bar, Column, Group, Layout};
use crate::likeness::likes_of;
use crate::repeats::without_repeats;
use std::alloc::{AllocError, Global};

/// The most columns of a picture.
pub const MOST_COLUMNS: usize = 24;

/// What operations in one column have in common.
#[derive(Clone, Copy, PartialEq, Eq)]
pub(crate) enum Fold {
    /// No fence is about them.
    Plain,
    /// The same, and all are pieces of the operation of this number.
    Pieces(usize),
    /// Their groups are like the group of this number.
    Like(usize),
    /// Their groups are each like an earlier one.
    LikeSeveral,
    /// They repeat so many columns before, which come so often with these.
    Repeats(usize, usize),
    /// There is no room for them.
    Rest,
}

/// A column of a picture: of one operation, or of several that are folded; of an empty batch it has none.
#[derive(Clone, Copy)]
pub(crate) struct Slot {
    /// The first operation.
    pub(crate) first: usize,
    /// How many there are.
    pub(crate) count: usize,
    /// The group of the first.
    pub(crate) group: usize,
    /// How many groups they are of.
    pub(crate) groups: usize,
    /// What they have in common.
    pub(crate) fold: Fold,
}

impl Slot {
    /// The operation that has the column alone.
    pub(crate) fn operation(self) -> Option<usize> {
        if self.count == 1 && self.groups == 1 {
            Some(self.first)
        } else {
            None
        }
    }

    /// What is shown of that operation.
    pub(crate) fn column<'a>(self, layout: &'a Layout<'_>) -> Option<&'a Column> {
        layout.columns.get(self.operation()?)
    }

    /// Whether operations or empty batches are folded in it.
    pub(crate) fn is_folded(self) -> bool {
        self.count > 1 || self.groups > 1
    }

    /// The operation of which several pieces are folded in it.
    pub(crate) fn split(self) -> Option<usize> {
        match self.fold {
            Fold::Pieces(split) if self.is_folded() => Some(split),
            Fold::Pieces(_)
            | Fold::Plain
            | Fold::Like(_)
            | Fold::LikeSeveral
            | Fold::Repeats(_, _)
            | Fold::Rest => None,
        }
    }

    /// The operation that marks in it are of: the one that has the column, or the first of the pieces of one.
    pub(crate) fn marked(self) -> Option<usize> {
        if self.split().is_some() {
            Some(self.first)
        } else {
            self.operation()
        }
    }
}

/// How operations are folded.
#[derive(Clone, Copy)]
struct Rule<'a> {
    /// Whether groups are folded.
    folds_groups: bool,
    /// Whether the pieces of each operation are folded by themselves.
    parts_pieces: bool,
    /// For each group the first that it is like, if it is not that.
    likes: &'a [Option<usize>],
}

/// How many columns there are if none is folded.
fn unfolded(groups: &[Group]) -> usize {
    let mut columns: usize = 0;
    for group in groups {
        columns = columns.saturating_add(group.size.max(1));
    }
    columns
}

/// Sets the mark of an operation.
fn keep(kept: &mut [bool], operation: usize) {
    if operation < kept.len() {
        kept[operation] = true;
    }
}

/// The operations that have columns of their own if pieces of one operation are folded: all others, and these.
fn unsplit_or(alloc: Global, layout: &Layout<'_>, kept: &[bool]) -> Result<Vec<bool>, AllocError> {
    let mut unsplit = Vec::new(alloc);
    for (column, is_kept) in layout.columns.iter().zip(kept.iter()) {
        unsplit.push(*is_kept || column.split.is_none())?;
    }
    Ok(unsplit)
}

/// Sets the marks of the operations that a fence or a wait, or the conflict of one, is about.
fn keep_those_of(kept: &mut [bool], bar: &Bar) {
    keep(kept, bar.column);
    if let Some(separated) = &bar.separated {
        keep(kept, separated.earlier);
        keep(kept, separated.later);
    }
}

/// The operations that fences and waits are about; but not those of a wait that is no error.
fn kept_of(alloc: Global, layout: &Layout<'_>) -> Result<Vec<bool>, AllocError> {
    let mut kept = vec![in alloc; false; layout.columns.len()]?;
    for bar in &layout.bars {
        if !bar.is_accepted_wait() {
            keep_those_of(&mut kept, bar);
        }
    }
    Ok(kept)
}

/// What an operation is folded as.
fn fold_at(layout: &Layout<'_>, operation: usize) -> Fold {
    if let Some(column) = layout.columns.get(operation)
        && let Some(split) = column.split
    {
        return Fold::Pieces(split);
    }
    Fold::Plain
}

/// What two that are folded in one column have in common, if they can be.
fn joined(rule: Rule<'_>, one: Fold, other: Fold) -> Option<Fold> {
    if one == other {
        return Some(one);
    }
    let are_like = (is_like(one), is_like(other));
    match are_like {
        (true, true) => Some(Fold::LikeSeveral),
        (false, false) if !rule.parts_pieces => Some(Fold::Plain),
        (false, false) | (true, false) | (false, true) => None,
    }
}

/// Whether groups are folded since they are like others.
fn is_like(fold: Fold) -> bool {
    match fold {
        Fold::Like(_) | Fold::LikeSeveral => true,
        Fold::Plain | Fold::Pieces(_) | Fold::Repeats(_, _) | Fold::Rest => false,
    }
}

/// What so many operations from `first` on are folded as in one column, if they can be.
fn fold_of(layout: &Layout<'_>, rule: Rule<'_>, first: usize, count: usize) -> Option<Fold> {
    let mut fold = fold_at(layout, first);
    for operation in first..first.saturating_add(count) {
        fold = joined(rule, fold, fold_at(layout, operation))?;
    }
    Some(fold)
}

/// Adds a whole group to the folded groups before it, if it can be, or folds it as the first.
fn fold_group(
    slots: &mut Vec<Slot>,
    rule: Rule<'_>,
    folded: Slot,
    before: bool,
) -> Result<(), AllocError> {
    if before
        && let Some(last) = slots.last_mut()
        && let Some(fold) = joined(rule, last.fold, folded.fold)
    {
        last.count = last.count.saturating_add(folded.count);
        last.groups = last.groups.saturating_add(1);
        last.fold = fold;
        return Ok(());
    }
    slots.push(folded)?;
    Ok(())
}

/// Adds the columns of a group: those that are kept, and one for all others between.
fn push_group(
    slots: &mut Vec<Slot>,
    layout: &Layout<'_>,
    rule: Rule<'_>,
    kept: &[bool],
    first: usize,
    group: usize,
) -> Result<(), AllocError> {
    let mut folds = false;
    for (place, is_kept) in kept.iter().enumerate() {
        let operation = first.saturating_add(place);
        let single = Slot {
            first: operation,
            count: 1,
            group,
            groups: 1,
            fold: fold_at(layout, operation),
        };
        if !*is_kept
            && folds
            && let Some(last) = slots.last_mut()
            && let Some(fold) = joined(rule, last.fold, single.fold)
        {
            last.count = last.count.saturating_add(1);
            last.fold = fold;
        } else {
            slots.push(single)?;
        }
        folds = !*is_kept;
    }
    Ok(())
}

/// What a group from operation `first` on is folded as, if all of it is: none of it is kept, or it is like another.
fn group_fold(
    layout: &Layout<'_>,
    rule: Rule<'_>,
    number: usize,
    kept: &[bool],
    first: usize,
) -> Option<Fold> {
    if !kept.iter().any(|is_kept| *is_kept)
        && let Some(fold) = fold_of(layout, rule, first, kept.len())
    {
        return Some(fold);
    }
    if !rule.folds_groups {
        return None;
    }
    let like = rule.likes.get(number).copied().flatten()?;
    Some(Fold::Like(like))
}

/// The columns of a picture of which these operations are kept.
fn grouped(
    alloc: Global,
    layout: &Layout<'_>,
    kept: &[bool],
    rule: Rule<'_>,
) -> Result<Vec<Slot>, AllocError> {
    let mut slots = Vec::new(alloc);
    let (mut rest, mut first) = (kept, 0usize);
    let mut folds = false;
    for (number, group) in layout.groups.iter().enumerate() {
        let (own, after) = rest.split_at(group.size.min(rest.len()));
        if let Some(fold) = group_fold(layout, rule, number, own, first) {
            let folded = Slot {
                first,
                count: own.len(),
                group: number,
                groups: 1,
                fold,
            };
            let before = folds && rule.folds_groups && !group.has_barrier;
            fold_group(&mut slots, rule, folded, before)?;
            folds = true;
        } else {
            push_group(&mut slots, layout, rule, own, first, number)?;
            folds = false;
        }
        first = first.saturating_add(own.len());
        rest = after;
    }
    Ok(slots)
}

/// The columns of a picture of which these operations are kept, with one for those that repeat others.
fn unrepeated(
    alloc: Global,
    layout: &Layout<'_>,
    kept: &[bool],
    rule: Rule<'_>,
) -> Result<Vec<Slot>, AllocError> {
    without_repeats(alloc, layout, &grouped(alloc, layout, kept, rule)?)
}

/// The first columns, and one for all others.
fn cut(alloc: Global, slots: &[Slot]) -> Result<Vec<Slot>, AllocError> {
    let (own, rest) = slots.split_at(MOST_COLUMNS.saturating_sub(1).min(slots.len()));
    let mut cut = Vec::new(alloc);
    cut.extend_from_slice(own)?;
    if let Some(first) = rest.first()
        && let Some(last) = rest.last()
    {
        let end = last.first.saturating_add(last.count);
        let groups = last.group.saturating_add(last.groups);
        cut.push(Slot {
            count: end.saturating_sub(first.first),
            groups: groups.saturating_sub(first.group),
            fold: Fold::Rest,
            ..*first
        })?;
    }
    Ok(cut)
}

/// These columns, if they are not too many.
fn if_few(slots: Vec<Slot>) -> Option<Vec<Slot>> {
    if slots.len() <= MOST_COLUMNS {
        Some(slots)
    } else {
        None
    }
}

/// The columns of a picture of many operations, of which a fence or its conflict is about these.
fn of_many(
    alloc: Global,
    layout: &Layout<'_>,
    rule: Rule<'_>,
    kept: &[bool],
) -> Result<Vec<Slot>, AllocError> {
    let parting = Rule {
        parts_pieces: true,
        ..rule
    };
    let unsplit = unsplit_or(alloc, layout, kept)?;
    if let Some(few) = if_few(unrepeated(alloc, layout, &unsplit, parting)?) {
        return Ok(few);
    }
    if let Some(few) = if_few(grouped(alloc, layout, kept, parting)?) {
        return Ok(few);
    }
    let fewest = unrepeated(alloc, layout, kept, rule)?;
    if fewest.len() <= MOST_COLUMNS {
        Ok(fewest)
    } else {
        cut(alloc, &fewest)
    }
}

/// The columns of a picture: those of all operations if they are few; else of each group that is like others one; else
/// one for the pieces of each operation, and one for columns that repeat those before; else of operations that no fence
/// or conflict is about none; and if all that is too many, the first.
pub(crate) fn slots_of(alloc: Global, layout: &Layout<'_>) -> Result<Vec<Slot>, AllocError> {
    let all = vec![in alloc; true; layout.columns.len()]?;
    let likes = likes_of(alloc, layout)?;
    let all_groups = Rule {
        folds_groups: false,
        parts_pieces: false,
        likes: &likes,
    };
    if unfolded(&layout.groups) <= MOST_COLUMNS {
        return grouped(alloc, layout, &all, all_groups);
    }
    let rule = Rule {
        folds_groups: true,
        ..all_groups
    };
    if let Some(few) = if_few(grouped(alloc, layout, &all, rule)?) {
        return Ok(few);
    }
    of_many(alloc, layout, rule, &kept_of(alloc, layout)?)
}
