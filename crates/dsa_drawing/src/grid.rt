//! The rows of a picture, which are ranges of addresses, and what operations do in them.

use crate::layout::{Bar, Buffer, Column, Layout, Separated};
use crate::ranges::{Range, ranges_of};
use crate::slots::Slot;
use dsa_ranges::Span;
use std::alloc::{AllocError, Global};

/// The most rows of a picture that folds none.
pub(crate) const MOST_ROWS_SHOWN: usize = 48;

/// A range of addresses, or several that are folded.
#[derive(Clone, Copy)]
pub(crate) struct Row {
    pub(crate) first: u64,
    pub(crate) end: u128,
    /// How many ranges there are.
    pub(crate) ranges: usize,
    /// Whether an operation touches bytes right before it together with its own.
    pub(crate) is_joined: bool,
    /// Whether the conflict of a fence is in it.
    pub(crate) has_conflict: bool,
    /// Which of the names of buffers it has.
    pub(crate) name: Option<usize>,
}

impl Row {
    /// The row of a range.
    fn of(range: Range) -> Row {
        Row {
            first: range.first,
            end: range.end,
            ranges: 1,
            is_joined: range.is_joined,
            has_conflict: false,
            name: None,
        }
    }

    /// Whether the address is in it.
    fn has(&self, address: u64) -> bool {
        self.first <= address && u128::from(address) < self.end
    }
}

/// What an operation does in a row, and to which of its bytes.
#[derive(Clone, Copy)]
pub(crate) struct Mark {
    pub(crate) row: usize,
    pub(crate) column: usize,
    pub(crate) reads: bool,
    pub(crate) writes: bool,
    pub(crate) first: u64,
    pub(crate) end: u128,
    /// Whether it goes on in the next row.
    pub(crate) goes_on: bool,
}

impl Mark {
    /// Adds what the same operation does in the same row.
    fn add(&mut self, other: &Mark) {
        self.reads = self.reads || other.reads;
        self.writes = self.writes || other.writes;
        self.first = self.first.min(other.first);
        self.end = self.end.max(other.end);
        self.goes_on = self.goes_on || other.goes_on;
    }
}

/// The rows and what is in them.
#[derive(Drop)]
pub(crate) struct Grid {
    pub(crate) rows: Vec<Row>,
    pub(crate) marks: Vec<Mark>,
    /// The row of the conflict of each fence that is about one, with the number of the fence.
    pub(crate) conflicts: Vec<(usize, usize)>,
}

/// What has a place among the addresses, with the number of its column, fence or name.
#[derive(Clone, Copy)]
enum What {
    Reads(usize),
    Writes(usize),
    Conflict(usize),
    Name(usize),
}

/// It, and its addresses.
#[derive(Clone, Copy)]
struct Item {
    span: Span,
    what: What,
}

impl What {
    /// Whether an operation touches the addresses.
    fn is_touched(self) -> bool {
        match self {
            What::Reads(_) | What::Writes(_) => true,
            What::Conflict(_) | What::Name(_) => false,
        }
    }

    /// The number of its column, fence or name.
    fn number(self) -> usize {
        match self {
            What::Reads(number)
            | What::Writes(number)
            | What::Conflict(number)
            | What::Name(number) => number,
        }
    }
}

/// A span of one address.
fn single(address: u64) -> Span {
    Span {
        first: address,
        len: 1,
    }
}

/// Adds an item, unless it has no address.
fn push_item(items: &mut Vec<Item>, span: Span, what: What) -> Result<(), AllocError> {
    if span.len > 0 {
        items.push(Item { span, what })?;
    }
    Ok(())
}

/// The data that an operation writes.
fn written(column: &Column) -> &[Span] {
    let Some(touched) = &column.touched else {
        return [].as_slice();
    };
    match touched.writes.as_slice() {
        [_record, data @ ..] if column.has_record => data,
        all => all,
    }
}

/// Adds what an operation does to each of these spans.
fn push_spans(items: &mut Vec<Item>, spans: &[Span], what: What) -> Result<(), AllocError> {
    for span in spans {
        push_item(items, *span, what)?;
    }
    Ok(())
}

/// Adds the data that an operation reads and writes.
fn push_data(items: &mut Vec<Item>, column: &Column, number: usize) -> Result<(), AllocError> {
    if let Some(touched) = &column.touched {
        push_spans(items, &touched.reads, What::Reads(number))?;
    }
    push_spans(items, written(column), What::Writes(number))
}

/// Spans that meet or touch as one, in order.
fn joined(alloc: Global, mut spans: Vec<Span>) -> Result<Vec<Span>, AllocError> {
    spans.sort_unstable_by_key(|span| (span.first, span.len));
    let mut joined: Vec<Span> = Vec::new(alloc);
    for span in &spans {
        match joined.last_mut() {
            Some(last) if u128::from(span.first) <= last.end() => extend(last, *span),
            Some(_) | None => joined.push(*span)?,
        }
    }
    Ok(joined)
}

/// Extends a span to the end of one that begins in it or right after it.
fn extend(last: &mut Span, span: Span) {
    let end = last.end().max(span.end());
    let len = end.saturating_sub(u128::from(last.first));
    last.len = u64::try_from(len).unwrap_or(u64::MAX);
}

/// Adds all spans that these pieces read and write.
fn push_touched(
    reads: &mut Vec<Span>,
    writes: &mut Vec<Span>,
    pieces: &[Column],
) -> Result<(), AllocError> {
    for piece in pieces {
        if let Some(touched) = &piece.touched {
            reads.extend_from_slice(&touched.reads)?;
            writes.extend_from_slice(&touched.writes)?;
        }
    }
    Ok(())
}

/// Adds all that the pieces of an operation read and write, with their completion records, as one.
fn push_pieces(
    alloc: Global,
    items: &mut Vec<Item>,
    pieces: &[Column],
    number: usize,
) -> Result<(), AllocError> {
    let (mut reads, mut writes) = (Vec::new(alloc), Vec::new(alloc));
    push_touched(&mut reads, &mut writes, pieces)?;
    push_spans(items, &joined(alloc, reads)?, What::Reads(number))?;
    push_spans(items, &joined(alloc, writes)?, What::Writes(number))
}

/// Adds what the operations in a column read and write, unless several are folded in it.
fn push_slot(
    alloc: Global,
    items: &mut Vec<Item>,
    layout: &Layout<'_>,
    slot: &Slot,
) -> Result<(), AllocError> {
    if slot.split().is_some() {
        let columns = &layout.columns;
        let (_, rest) = columns.split_at(slot.first.min(columns.len()));
        let (pieces, _) = rest.split_at(slot.count.min(rest.len()));
        return push_pieces(alloc, items, pieces, slot.first);
    }
    match slot.column(layout) {
        Some(column) => push_data(items, column, slot.first),
        None => Ok(()),
    }
}

/// Adds the completion record of an operation, if it has the address.
fn push_record(
    items: &mut Vec<Item>,
    columns: &[Column],
    number: usize,
    address: u64,
) -> Result<(), AllocError> {
    let Some(column) = columns.get(number) else {
        return Ok(());
    };
    let Some(touched) = &column.touched else {
        return Ok(());
    };
    if let [record, ..] = touched.writes.as_slice() {
        let is_in = record.first <= address && u128::from(address) < record.end();
        if column.has_record && is_in {
            push_item(items, *record, What::Writes(number))?;
        }
    }
    Ok(())
}

/// Which of so many operations have a column of their own.
fn shown_in(alloc: Global, slots: &[Slot], operations: usize) -> Result<Vec<bool>, AllocError> {
    let mut shown = vec![in alloc; false; operations]?;
    for slot in slots {
        if let Some(operation) = slot.operation()
            && operation < shown.len()
        {
            shown[operation] = true;
        }
    }
    Ok(shown)
}

/// Whether a fence and both operations of its conflict are shown.
fn is_shown(shown: &[bool], bar: &Bar, separated: Separated) -> bool {
    [bar.column, separated.earlier, separated.later]
        .iter()
        .all(|column| shown.get(*column).copied().unwrap_or(false))
}

/// Adds the conflicts of fences that are shown, with the completion records that they are about.
fn push_conflicts(
    items: &mut Vec<Item>,
    layout: &Layout<'_>,
    shown: &[bool],
) -> Result<(), AllocError> {
    for (number, bar) in layout.bars.iter().enumerate() {
        if let Some(separated) = bar.separated
            && is_shown(shown, bar, separated)
        {
            push_record(items, &layout.columns, separated.earlier, separated.address)?;
            push_record(items, &layout.columns, separated.later, separated.address)?;
            push_item(items, single(separated.address), What::Conflict(number))?;
        }
    }
    Ok(())
}

/// Adds the names of buffers.
fn push_names(items: &mut Vec<Item>, buffers: &[Buffer]) -> Result<(), AllocError> {
    for (number, buffer) in buffers.iter().enumerate() {
        push_item(items, single(buffer.address), What::Name(number))?;
    }
    Ok(())
}

/// What has a place among the addresses, by these; of operations those in these columns.
fn items_of(alloc: Global, layout: &Layout<'_>, slots: &[Slot]) -> Result<Vec<Item>, AllocError> {
    let mut items = Vec::new(alloc);
    for slot in slots {
        push_slot(alloc, &mut items, layout, slot)?;
    }
    let shown = shown_in(alloc, slots, layout.columns.len())?;
    push_conflicts(&mut items, layout, &shown)?;
    push_names(&mut items, layout.buffers)?;
    items.sort_unstable_by_key(|item| (item.span.first, item.what.number()));
    Ok(items)
}

impl Grid {
    /// How many rows have one range.
    pub(crate) fn single_rows(&self) -> usize {
        self.rows.iter().filter(|row| row.ranges == 1).count()
    }

    /// How many ranges all rows have.
    pub(crate) fn ranges(&self) -> usize {
        let mut ranges: usize = 0;
        for row in &self.rows {
            ranges = ranges.saturating_add(row.ranges);
        }
        ranges
    }

    /// The row that has the address, or else the next one; none before `row` has it.
    fn row_from(&self, row: usize, address: u64) -> usize {
        for (number, it) in self.rows.iter().enumerate().skip(row) {
            if u128::from(address) < it.end {
                return number;
            }
        }
        self.rows.len()
    }

    /// Adds what an operation does to a span, of which the first byte is in this row, in each row of the span.
    fn add_marks(
        &mut self,
        row: usize,
        span: Span,
        column: usize,
        reads: bool,
        writes: bool,
    ) -> Result<(), AllocError> {
        let end = span.end();
        for (number, it) in self.rows.iter().enumerate().skip(row) {
            if end <= u128::from(it.first) {
                return Ok(());
            }
            self.marks.push(Mark {
                row: number,
                column,
                reads,
                writes,
                first: span.first.max(it.first),
                end: end.min(it.end),
                goes_on: it.end < end,
            })?;
        }
        Ok(())
    }

    /// Adds a conflict to the row, if that has the address.
    fn add_conflict(&mut self, row: usize, address: u64, bar: usize) -> Result<(), AllocError> {
        if let Some(it) = self.rows.get_mut(row)
            && it.has(address)
        {
            it.has_conflict = true;
            self.conflicts.push((row, bar))?;
        }
        Ok(())
    }

    /// Names the row, if that has the address and no name.
    fn add_name(&mut self, row: usize, address: u64, name: usize) {
        if let Some(it) = self.rows.get_mut(row)
            && it.has(address)
        {
            it.name = it.name.or(Some(name));
        }
    }

    /// Adds an item, of which the first byte is in this row or before it in none.
    fn add(&mut self, row: usize, item: Item) -> Result<(), AllocError> {
        let Item { span, what } = item;
        match what {
            What::Reads(column) => self.add_marks(row, span, column, true, false),
            What::Writes(column) => self.add_marks(row, span, column, false, true),
            What::Conflict(bar) => self.add_conflict(row, span.first, bar),
            What::Name(name) => {
                self.add_name(row, span.first, name);
                Ok(())
            }
        }
    }

    /// Gives rows without a name that of the row before, if an operation touches both together.
    fn share_names(&mut self) {
        let mut before = None;
        for row in self.rows.iter_mut() {
            if row.is_joined {
                row.name = row.name.or(before);
            }
            before = row.name;
        }
    }

    /// Moves what operations do to the rows that theirs are in now.
    fn move_marks(&mut self, places: &[usize], rows: &[Row]) {
        for mark in self.marks.iter_mut() {
            mark.row = places.get(mark.row).copied().unwrap_or(0);
            let is_single = rows.get(mark.row).is_some_and(|it| it.ranges == 1);
            mark.goes_on = mark.goes_on && is_single;
        }
    }

    /// Moves the conflicts to the rows that theirs are in now.
    fn move_conflicts(&mut self, places: &[usize]) {
        for (row, _bar) in self.conflicts.iter_mut() {
            *row = places.get(*row).copied().unwrap_or(0);
        }
    }

    /// Folds the rows that have no conflict.
    fn fold(&mut self, alloc: Global) -> Result<(), AllocError> {
        let (places, rows) = folded(alloc, &self.rows)?;
        self.move_marks(&places, &rows);
        self.move_conflicts(&places);
        self.rows = rows;
        Ok(())
    }
}

/// Of each row the row that it is in, if those between the conflicts are folded; and these rows.
fn folded(alloc: Global, rows: &[Row]) -> Result<(Vec<usize>, Vec<Row>), AllocError> {
    let mut places = Vec::new(alloc);
    let mut kept: Vec<Row> = Vec::new(alloc);
    for row in rows {
        push_folded(&mut kept, *row)?;
        places.push(kept.len().saturating_sub(1))?;
    }
    Ok((places, kept))
}

/// Adds a row, or adds it to the last if neither has a conflict.
fn push_folded(kept: &mut Vec<Row>, row: Row) -> Result<(), AllocError> {
    if !row.has_conflict
        && let Some(last) = kept.last_mut()
        && !last.has_conflict
    {
        last.end = row.end;
        last.ranges = last.ranges.saturating_add(1);
        return Ok(());
    }
    kept.push(row)?;
    Ok(())
}

/// What operations do in rows, one mark for each row and operation.
fn merged(alloc: Global, marks: &[Mark]) -> Result<Vec<Mark>, AllocError> {
    let mut merged: Vec<Mark> = Vec::new(alloc);
    for mark in marks {
        match merged.last_mut() {
            Some(last) if last.row == mark.row && last.column == mark.column => last.add(mark),
            Some(_) | None => merged.push(*mark)?,
        }
    }
    Ok(merged)
}

/// The rows of these items, of which none is folded.
fn rows_of(alloc: Global, items: &[Item]) -> Result<Vec<Row>, AllocError> {
    let mut spans = Vec::new(alloc);
    for item in items {
        if item.what.is_touched() {
            spans.push(item.span)?;
        }
    }
    let mut rows = Vec::new(alloc);
    for range in &ranges_of(alloc, spans)? {
        rows.push(Row::of(*range))?;
    }
    Ok(rows)
}

/// These items in their rows, of which none is folded.
fn unfolded(alloc: Global, items: &[Item]) -> Result<Grid, AllocError> {
    let mut grid = Grid {
        rows: rows_of(alloc, items)?,
        marks: Vec::new(alloc),
        conflicts: Vec::new(alloc),
    };
    let mut row = 0;
    for item in items {
        row = grid.row_from(row, item.span.first);
        grid.add(row, *item)?;
    }
    grid.share_names();
    Ok(grid)
}

/// The rows of the addresses of the operations in these columns: all, or if these are many those with a conflict, and
/// one for all others between.
pub(crate) fn grid_of(
    alloc: Global,
    layout: &Layout<'_>,
    slots: &[Slot],
) -> Result<Grid, AllocError> {
    let items = items_of(alloc, layout, slots)?;
    let mut grid = unfolded(alloc, &items)?;
    if grid.rows.len() > MOST_ROWS_SHOWN {
        grid.fold(alloc)?;
    }
    grid.marks
        .sort_unstable_by_key(|mark| (mark.row, mark.column));
    grid.marks = merged(alloc, &grid.marks)?;
    Ok(grid)
}
