//! A plan as a picture.

ghost use Rattle.std.specs.Prelude.{IfOk, string_bytes};
ghost use Rattle.dsa_drawing.specs.Pictures.{IsPicture};

use crate::explanation::Explanation;
use crate::labels::{Labels, Origin};
use crate::words::{cost_text, group_text, push_origin};
use dsa_drawing::{
    Bar, BarKind, Buffer, Column, Group, Layout, MOST_COLUMNS, Separated, Split, hazard_name,
    op_name,
};
use dsa_lines::operation_text;
use dsa_operations::{ChecksumOp, Operation};
use dsa_plan::{Costs, GroupCost, Settings, is_barrier};
use dsa_ranges::{Piece, Touching};
use dsa_reasons::{Fence, fence_text};
use std::alloc::{AllocError, Global};

/// What the marks, bars and lines mean.
const LEGEND: &str = "R: reads, W: writes; bar: fence; red: the conflict that it separates";

/// The kinds of conflicts.
const KINDS: &str = "RAW: read after write; WAR: write after read; WAW: write after write";

/// The units of sizes, from the largest on.
const UNITS: [(u64, &str); 3] = [(1 << 30, "GiB"), (1 << 20, "MiB"), (1 << 10, "KiB")];

/// Pieces by their numbers, of which the last is one too.
#[derive(Clone, Copy)]
pub struct PieceRange {
    /// The first.
    pub first: u64,
    /// The last.
    pub last: u64,
}

/// What a picture shows beside the plan: the names of buffers; and of the plan these pieces alone.
#[derive(Clone, Copy)]
pub struct View<'a> {
    /// The names.
    pub buffers: &'a [Buffer],
    /// The pieces.
    pub range: PieceRange,
}

impl PieceRange {
    /// Whether the piece is one of these.
    fn has(self, piece: usize) -> bool {
        self.first <= piece as u64 && piece as u64 <= self.last
    }

    /// How many of so many pieces from `first` on are of these.
    fn count_in(self, first: usize, count: usize) -> usize {
        let end = first.saturating_add(count) as u64;
        let (from, until) = (
            self.first.max(first as u64),
            self.last.saturating_add(1).min(end),
        );
        usize::try_from(until.saturating_sub(from)).unwrap_or(0)
    }

    /// The column of a piece, if it is one of these.
    fn column_of(self, piece: usize) -> Option<usize> {
        if self.has(piece) {
            usize::try_from((piece as u64).saturating_sub(self.first)).ok()
        } else {
            None
        }
    }
}

/// A group of this number, of which so many pieces are drawn.
fn drawn_group(
    alloc: Global,
    greatest: u64,
    number: usize,
    group: &GroupCost,
    drawn: usize,
    has_barrier: bool,
) -> Result<Group, AllocError> {
    let (size, cost) = (group.size, group.cost);
    let kind = if size == 1 {
        String::from_str(alloc, "lone")?
    } else {
        format!(in alloc; "batch of {size}")?
    };
    Ok(Group {
        number,
        title: group_text(alloc, greatest, number, group)?,
        name: format!(in alloc; "group {number}")?,
        kind,
        cost: format!(in alloc; "cost {cost}")?,
        size: drawn,
        has_barrier,
    })
}

/// The groups of a plan that have pieces in the range.
fn drawn_groups(
    alloc: Global,
    greatest: u64,
    explanation: &Explanation,
    range: PieceRange,
) -> Result<Vec<Group>, AllocError> {
    let mut groups = Vec::new(alloc);
    let mut start: usize = 0;
    for (number, group) in explanation.costs.groups.iter().enumerate() {
        let drawn = range.count_in(start, group.size);
        if drawn > 0 {
            let has_barrier = is_barrier(&explanation.barriers, start) && range.has(start);
            groups.push(drawn_group(alloc, greatest, number, group, drawn, has_barrier)?)?;
        }
        start = start.saturating_add(group.size);
    }
    Ok(groups)
}

/// The word of an operation.
fn operation_name(d: &Operation) -> &'static str {
    match d {
        Operation::Descriptor(descriptor) => op_name(&descriptor.op),
        Operation::Checksum(checksum) => match checksum.op {
            ChecksumOp::Crc { .. } => "crc",
            ChecksumOp::CopyCrc { .. } => "copy_crc",
        },
    }
}

/// The comment of a piece's operation, if it has one.
fn comment_of(names: &[String], origin: Option<Origin>) -> Option<&str> {
    let comment = names.get(origin?.operation)?;
    if comment.is_empty() {
        None
    } else {
        Some(comment.as_str())
    }
}

/// The name of a piece: the comment of its operation, or its word; and which of the pieces of its operation it is.
fn piece_name(
    alloc: Global,
    d: &Operation,
    comment: Option<&str>,
    origin: Option<Origin>,
) -> Result<String, AllocError> {
    let name = comment.unwrap_or(operation_name(d));
    match origin {
        Some(Origin { piece, pieces, .. }) if pieces > 1 => {
            format!(in alloc; "{name} {piece}/{pieces}")
        }
        Some(_) | None => String::from_str(alloc, name),
    }
}

/// What a browser shows of a piece under the pointer.
fn piece_title(
    alloc: Global,
    number: usize,
    d: &Operation,
    comment: Option<&str>,
    origin: Option<Origin>,
) -> Result<String, AllocError> {
    let mut words = operation_text(alloc, d)?;
    push_origin(alloc, &mut words, origin)?;
    match comment {
        Some(comment) => format!(in alloc; "{number}: {words} # {comment}"),
        None => format!(in alloc; "{number}: {words}"),
    }
}

/// The operation that a piece is of, if that has several.
fn split_of(origin: Option<Origin>) -> Option<usize> {
    match origin {
        Some(
            Origin {
                operation,
                pieces,
                ..
            },
        ) if pieces > 1 => Some(operation),
        Some(_) | None => None,
    }
}

/// So many bytes, in the largest unit that divides them.
fn bytes_text(alloc: Global, bytes: u64) -> Result<String, AllocError> {
    for (one, unit) in UNITS {
        if bytes >= one && bytes % one == 0 {
            let number = bytes / one;
            return format!(in alloc; "{number} {unit}");
        }
    }
    format!(in alloc; "{bytes} bytes")
}

/// The name of an operation of several pieces, from its first piece: its comment, or what it does with how many bytes.
fn split_name(
    alloc: Global,
    d: &Operation,
    comment: Option<&str>,
    bytes: u64,
) -> Result<String, AllocError> {
    match comment {
        Some(comment) => String::from_str(alloc, comment),
        None => {
            let (name, size) = (operation_name(d), bytes_text(alloc, bytes)?);
            format!(in alloc; "{name} {size}")
        }
    }
}

/// How many bytes so many pieces from the first on have.
fn bytes_of(pieces: &[Operation], first: usize, count: usize) -> u64 {
    let (_, rest) = pieces.split_at(first.min(pieces.len()));
    let (own, _) = rest.split_at(count.min(rest.len()));
    let mut bytes: u64 = 0;
    for d in own {
        bytes = bytes.saturating_add(u64::from(d.transfer_size()));
    }
    bytes
}

/// The operations of several pieces.
fn drawn_splits(
    alloc: Global,
    pieces: &[Operation],
    labels: &Labels<'_>,
) -> Result<Vec<Split>, AllocError> {
    let mut splits = Vec::new(alloc);
    for (number, origin) in labels.origins.iter().enumerate() {
        if origin.piece == 1
            && let Some(operation) = split_of(Some(*origin))
            && let Some(d) = pieces.get(number)
        {
            let bytes = bytes_of(pieces, number, origin.pieces);
            let comment = comment_of(labels.names, Some(*origin));
            let name = split_name(alloc, d, comment, bytes)?;
            splits.push(Split { operation, name })?;
        }
    }
    Ok(splits)
}

/// The pieces of a plan in the range.
fn drawn_pieces(
    alloc: Global,
    pieces: &[Operation],
    labels: &Labels<'_>,
    range: PieceRange,
) -> Result<Vec<Column>, AllocError> {
    let mut columns = Vec::new(alloc);
    for (number, d) in pieces.iter().enumerate() {
        if !range.has(number) {
            continue;
        }
        let origin = labels.origins.get(number).copied();
        let comment = comment_of(labels.names, origin);
        columns.push(Column {
            number,
            name: piece_name(alloc, d, comment, origin)?,
            title: piece_title(alloc, number, d, comment, origin)?,
            size: d.transfer_size(),
            touched: Some(d.touched_spans()),
            has_record: true,
            split: split_of(origin),
        })?;
    }
    Ok(columns)
}

/// What is below a fence: the kind of its first conflict, how many more only this fence separates, and whether a
/// barrier needs it.
fn fence_label(alloc: Global, fence: &Fence) -> Result<String, AllocError> {
    let Some(reason) = fence.named.first() else {
        let words = if fence.barrier {
            "barrier"
        } else {
            "none alone"
        };
        return String::from_str(alloc, words);
    };
    let mut text = String::from_str(alloc, hazard_name(reason.hazard.kind))?;
    let others = fence.named.len().saturating_sub(1);
    let more = others.saturating_add(fence.more);
    if more > 0 {
        text.push_str(&format!(in alloc; " +{more}")?)?;
    }
    if fence.barrier {
        text.push_str(" barrier")?;
    }
    Ok(text)
}

/// The first conflict of a fence, if both pieces are drawn.
fn drawn_conflict(fence: &Fence, range: PieceRange) -> Option<Separated> {
    let reason = fence.named.first()?;
    Some(Separated {
        earlier: range.column_of(reason.earlier)?,
        later: range.column_of(reason.later)?,
        address: reason.hazard.address,
    })
}

/// A fence of a plan, before this column.
fn drawn_fence(
    alloc: Global,
    pieces: &[Operation],
    fence: &Fence,
    column: usize,
    range: PieceRange,
) -> Result<Bar, AllocError> {
    let words = fence_text(alloc, pieces, fence)?;
    Ok(Bar {
        column,
        kind: BarKind::Needed,
        title: format!(in alloc; "fence: {words}")?,
        words: fence_label(alloc, fence)?,
        separated: drawn_conflict(fence, range),
    })
}

/// The fences of a plan before pieces in the range.
fn drawn_fences(
    alloc: Global,
    pieces: &[Operation],
    fences: &[Fence],
    range: PieceRange,
) -> Result<Vec<Bar>, AllocError> {
    let mut bars = Vec::new(alloc);
    for fence in fences {
        if let Some(column) = range.column_of(fence.piece) {
            bars.push(drawn_fence(alloc, pieces, fence, column, range)?)?;
        }
    }
    Ok(bars)
}

/// The words of the costs in a picture, and of the least cost if that is below the plan's.
fn costs_drawn(
    alloc: Global,
    costs: &Costs,
    pieces: usize,
    least: Option<u64>,
) -> Result<String, AllocError> {
    let mut words = cost_text(alloc, costs, pieces)?;
    if let Some(least) = least {
        if least < costs.cost {
            words.push_str(&format!(in alloc; "; least {least}")?)?;
        }
    }
    Ok(words)
}

/// Which of so many pieces are drawn, if not all; or how a part of many is.
fn range_note(
    alloc: Global,
    pieces: usize,
    range: PieceRange,
) -> Result<Option<String>, AllocError> {
    if pieces == 0 {
        return Ok(None);
    }
    let drawn = range.count_in(0, pieces);
    let PieceRange { first, last } = range;
    if drawn == 0 {
        return Ok(Some(format!(in alloc; "nothing from {first} on: {pieces} pieces")?));
    }
    if drawn < pieces {
        let last = last.min(pieces.saturating_sub(1) as u64);
        return Ok(Some(format!(in alloc; "pieces {first} to {last} of {pieces}")?));
    }
    if pieces > MOST_COLUMNS {
        return Ok(Some(format!(in alloc;
            "{pieces} pieces: explain --svg --from N --to M draws some"
        )?));
    }
    Ok(None)
}

/// The lines at the end: the costs, which pieces are drawn, and what the parts of the picture mean.
fn notes_of(
    alloc: Global,
    costs: &str,
    range: Option<String>,
    has_fences: bool,
) -> Result<Vec<String>, AllocError> {
    let mut notes = Vec::new(alloc);
    notes.push(format!(in alloc; "total {costs}")?)?;
    if let Some(range) = range {
        notes.push(range)?;
    }
    if has_fences {
        notes.push(String::from_str(alloc, LEGEND)?)?;
        notes.push(String::from_str(alloc, KINDS)?)?;
    }
    Ok(notes)
}

/// The picture of a plan as SVG, in black, white, grey and red and without scripts: its pieces in columns by their
/// groups, with the names that comments give them, buffers in rows, and its fences with the first of their conflicts;
/// or such pieces alone as the view has. The costs are at the end, with the least cost if that is given and below the
/// plan's.
pub fn draw(
    alloc: Global,
    explanation: &Explanation,
    pieces: &[Operation],
    labels: &Labels<'_>,
    view: View<'_>,
    settings: &Settings,
    least: Option<u64>,
) -> Result<String, AllocError>
    ensures { IfOk result (λ s. IsPicture (string_bytes s)) }
{
    let costs = costs_drawn(alloc, &explanation.costs, pieces.len(), least)?;
    let View { buffers, range } = view;
    let note = range_note(alloc, pieces.len(), range)?;
    let layout = Layout {
        groups: drawn_groups(alloc, settings.greatest_batch(), explanation, range)?,
        columns: drawn_pieces(alloc, pieces, labels, range)?,
        splits: drawn_splits(alloc, pieces, labels)?,
        bars: drawn_fences(alloc, pieces, &explanation.fences, range)?,
        buffers,
        notes: notes_of(alloc, &costs, note, !explanation.fences.is_empty())?,
        title: costs,
    };
    dsa_drawing::draw(alloc, &layout)
}
