//! The lines of an explanation.

ghost use Rattle.std.specs.Prelude.{◌≡◌, ◌+◌, ◌<◌, ◌^◌, ◌++◌, IfOk, OnOk, Some, codes, decimal, drop, length, map, slice_get, string_bytes, if◌then◌else◌};
ghost use Rattle.dsa_operations.specs.Operations.{writes_of};
ghost use Rattle.dsa_reasons.specs.Sentences.{reason_words};
ghost use Rattle.dsa_explain.specs.Runs.{labelling, listed, run_length};
ghost use Rattle.dsa_explain.specs.Words.{cell_lines, explanation_words, fence_line, fences_left, further_lines, group_line, groups_words, is_lower, last_row, line_of_fence, line_of_run, lines_at, name_of, origins_words, parts_words, piece_line, pieces_line, record_at, run_line, run_lines, run_words, step_words};

use crate::cells::Cell;
use crate::explanation::Explanation;
use crate::labels::{Labels, Origin};
use crate::runs::{Listing, continues, run_length};
use crate::words::{cost_text, groups_text, name_of, piece_text, push_name};
use dsa_lines::line_of;
use dsa_operations::Operation;
use dsa_plan::{GroupCost, Settings};
use dsa_ranges::Piece;
use dsa_reasons::{Detail, Fence, Reason, fence_text, reason_text};
use std::alloc::{AllocError, Global};

/// Writes a line.
pub(crate) fn push_line(text: &mut String, line: &str) -> Result<(), AllocError>
    ensures { OnOk result (string_bytes text.new ≡ string_bytes text.old ++
        (line.now ++ codes "\n")) }
{
    text.push_str(line)?;
    text.push_str("\n")
}

/// Writes the line of the groups of these numbers.
fn push_groups_line(
    alloc: Global,
    text: &mut String,
    greatest: u64,
    first: usize,
    last: usize,
    group: &GroupCost,
) -> Result<(), AllocError>
    ensures { OnOk result (string_bytes text.new ≡ string_bytes text.old ++
        (groups_words greatest first last group.now ++ codes "\n")) }
{
    let words = groups_text(alloc, greatest, first, last, group)?;
    push_line(text, &words)
}

/// Writes the line of the groups that a run has until the group `last`, if its first piece begins a group.
fn push_groups(
    alloc: Global,
    text: &mut String,
    greatest: u64,
    groups: &[GroupCost],
    first: &Cell,
    last: usize,
) -> Result<(), AllocError>
    ensures { OnOk result (string_bytes text.new ≡ string_bytes text.old ++
        group_line greatest groups.now first.now last) }
{
    if first.column != 0 {
        return Ok(());
    }
    match groups.get(first.row) {
        Some(group) => push_groups_line(alloc, text, greatest, first.row, last, group),
        None => Ok(()),
    }
}

/// The line of a fence up to its conflict.
fn fence_front(alloc: Global, price: u64) -> Result<String, AllocError>
    ensures { IfOk result (λ s. string_bytes s ≡ codes "  -- fence, cost " ++
        (decimal price ++ codes ": ")) }
{
    format!(in alloc; "  -- fence, cost {price}: ")
}

/// Writes the line of a further conflict of a fence.
fn push_further(
    alloc: Global,
    text: &mut String,
    pieces: &[Operation],
    reason: &Reason,
) -> Result<(), AllocError>
    ensures { OnOk result (string_bytes text.new ≡ string_bytes text.old ++
        (codes "     and " ++ (reason_words writes_of pieces.now reason.now ++ codes "\n"))) }
{
    let words = reason_text(alloc, pieces, reason)?;
    text.push_str("     and ")?;
    push_line(text, &words)
}

/// Writes the lines of further conflicts of a fence.
fn push_all_further(
    alloc: Global,
    text: &mut String,
    pieces: &[Operation],
    reasons: &[Reason],
) -> Result<(), AllocError>
    ensures { OnOk result (string_bytes text.new ≡ string_bytes text.old ++
        further_lines pieces.now reasons.now) }
{
    for reason in reasons {
        push_further(alloc, text, pieces, reason)?;
    }
    Ok(())
}

/// The conflicts after the first one.
fn after_first(named: &[Reason]) -> &[Reason]
    ensures { result.now ≡ drop 1 named.now }
{
    match named {
        [_, after @ ..] => after,
        [] => named,
    }
}

/// Writes the lines of a fence.
fn push_fence_line(
    alloc: Global,
    text: &mut String,
    pieces: &[Operation],
    fence: &Fence,
    price: u64,
) -> Result<(), AllocError>
    ensures { OnOk result (string_bytes text.new ≡ string_bytes text.old ++
        line_of_fence price pieces.now (Some fence.now)) }
{
    let front = fence_front(alloc, price)?;
    let words = fence_text(alloc, pieces, fence)?;
    text.push_str(&front)?;
    push_line(text, &words)?;
    push_all_further(alloc, text, pieces, after_first(&fence.named))
}

/// Writes the lines of the first of these fences before a fenced piece.
fn push_fence(
    alloc: Global,
    text: &mut String,
    pieces: &[Operation],
    fences: &[Fence],
    cell: &Cell,
    price: u64,
) -> Result<(), AllocError>
    ensures { OnOk result (string_bytes text.new ≡ string_bytes text.old ++
        fence_line price pieces.now fences.now cell.now) }
{
    if !cell.fenced {
        return Ok(());
    }
    match fences.get(0) {
        Some(fence) => push_fence_line(alloc, text, pieces, fence, price),
        None => Ok(()),
    }
}

/// The fences that are left after the piece.
fn fences_left<'a>(fences: &'a [Fence], cell: &Cell) -> &'a [Fence]
    ensures { result.now ≡ fences_left fences.now cell.now }
{
    if !cell.fenced {
        return fences;
    }
    match fences {
        [_, left @ ..] => left,
        [] => fences,
    }
}

/// The line of a piece that shares its line with no other, up to its operation.
fn piece_front(alloc: Global, index: usize) -> Result<String, AllocError>
    ensures { IfOk result (λ s. string_bytes s ≡ codes "  " ++ (decimal index ++ codes ": ")) }
{
    format!(in alloc; "  {index}: ")
}

/// Writes the line of a piece that shares its line with no other.
fn push_piece_line(
    alloc: Global,
    text: &mut String,
    index: usize,
    d: &Operation,
    origin: Option<Origin>,
    name: &str,
) -> Result<(), AllocError>
    ensures { OnOk result (string_bytes text.new ≡ string_bytes text.old ++
        piece_line index d.now origin name.now) }
{
    let front = piece_front(alloc, index)?;
    let words = piece_text(alloc, d, origin, name)?;
    text.push_str(&front)?;
    push_line(text, &words)
}

/// The address of an operation's completion record.
fn record_at(d: &Operation) -> u64
    ensures { result ≡ record_at d.now }
{
    match d {
        Operation::Descriptor(descriptor) => descriptor.record_at,
        Operation::Checksum(checksum) => checksum.record_at,
    }
}

/// Whether the pieces run down: the record of the next one is lower.
fn is_lower(pieces: &[Operation], index: usize) -> bool
    requires { index + 1 < 2 ^ 64 }
    ensures { result ≡ is_lower (slice_get pieces.now index) (slice_get pieces.now (index + 1)) }
{
    match (pieces.get(index), pieces.get(index + 1)) {
        (Some(d), Some(next)) => record_at(next) < record_at(d),
        (Some(_), None) | (None, _) => false,
    }
}

/// The group that a run ends in.
fn last_row(first: &Cell, cells: &[Cell], more: usize) -> usize
    ensures { result ≡ last_row first.now cells.now more }
{
    if more == 0 {
        return first.row;
    }
    match cells.get(more - 1) {
        Some(last) => last.row,
        None => first.row,
    }
}

/// Pieces that share a line.
#[derive(Clone, Copy)]
struct Run<'a> {
    /// The index of the first one.
    index: usize,
    /// How many more there are.
    more: usize,
    /// Whether each is lower than the one before it.
    is_down: bool,
    /// Which piece of its operation the first one is.
    origin: Option<Origin>,
    /// The name of the operation.
    name: &'a str,
}

/// The line of a run up to its operation.
fn run_front(alloc: Global, index: usize, more: usize) -> Result<String, AllocError>
    ensures { IfOk result (λ s. string_bytes s ≡ codes "  " ++
        (decimal index ++ (codes " to " ++ (decimal (index + more) ++ codes ": ")))) }
{
    let last = index as u128 + more as u128;
    format!(in alloc; "  {index} to {last}: ")
}

/// Where the next piece of a run is.
fn way_text(is_down: bool) -> &'static str
    ensures { result.now ≡
        if is_down then codes " bytes lower)" else codes " bytes further)" }
{
    if is_down {
        " bytes lower)"
    } else {
        " bytes further)"
    }
}

/// How far each piece of a run is from the one before.
fn step_text(alloc: Global, size: u32, is_down: bool) -> Result<String, AllocError>
    ensures { IfOk result (λ s. string_bytes s ≡ step_words size is_down) }
{
    let way = way_text(is_down);
    format!(in alloc; ", each {size}{way}")
}

/// Which pieces of their operation the pieces of a run are.
fn parts_text(alloc: Global, more: usize, origin: Origin) -> Result<String, AllocError>
    ensures { IfOk result (λ s. string_bytes s ≡ parts_words more origin) }
{
    let (first, pieces) = (origin.piece, origin.pieces);
    let last = first as u128 + more as u128;
    format!(in alloc; ", pieces {first} to {last} of {pieces}")
}

/// The operation that the pieces of a run are of, and how far apart they are.
fn origins_text(
    alloc: Global,
    more: usize,
    size: u32,
    is_down: bool,
    origin: Origin,
) -> Result<String, AllocError>
    ensures { IfOk result
        (λ s. string_bytes s ≡ origins_words more size is_down (Some origin)) }
{
    let parts = parts_text(alloc, more, origin)?;
    let step = step_text(alloc, size, is_down)?;
    let (operation, parts, step) = (origin.operation, parts.as_str(), step.as_str());
    format!(in alloc; " (operation {operation}{parts}{step}")
}

/// Writes the operation that the pieces of a run are of, and how far apart they are.
fn push_origins(
    alloc: Global,
    text: &mut String,
    run: &Run<'_>,
    size: u32,
) -> Result<(), AllocError>
    ensures { OnOk result (string_bytes text.new ≡ string_bytes text.old ++
        origins_words run.now.more size run.now.is_down run.now.origin) }
{
    let Some(origin) = run.origin else {
        return Ok(());
    };
    let words = origins_text(alloc, run.more, size, run.is_down, origin)?;
    text.push_str(&words)
}

/// The words of a run of several pieces.
fn run_text(alloc: Global, run: &Run<'_>, d: &Operation) -> Result<String, AllocError>
    ensures { IfOk result (λ s. string_bytes s ≡
        run_words run.now.more run.now.is_down d.now run.now.origin run.now.name.now) }
{
    let mut text = line_of(alloc, d)?;
    push_origins(alloc, &mut text, run, d.transfer_size())?;
    push_name(&mut text, run.name)?;
    Ok(text)
}

/// Writes the line of a run of several pieces.
fn push_run_line(
    alloc: Global,
    text: &mut String,
    run: &Run<'_>,
    d: &Operation,
) -> Result<(), AllocError>
    ensures { OnOk result (string_bytes text.new ≡ string_bytes text.old ++
        run_line run.now.index run.now.more run.now.is_down d.now run.now.origin
        run.now.name.now) }
{
    let front = run_front(alloc, run.index, run.more)?;
    let words = run_text(alloc, run, d)?;
    text.push_str(&front)?;
    push_line(text, &words)
}

/// Writes the line of a run, whose first piece is given.
fn push_pieces_line(
    alloc: Global,
    text: &mut String,
    run: &Run<'_>,
    d: &Operation,
) -> Result<(), AllocError>
    ensures { OnOk result (string_bytes text.new ≡ string_bytes text.old ++
        pieces_line run.now.index run.now.more run.now.is_down (Some d.now) run.now.origin
        run.now.name.now) }
{
    if run.more == 0 {
        push_piece_line(alloc, text, run.index, d, run.origin, run.name)
    } else {
        push_run_line(alloc, text, run, d)
    }
}

/// The run that begins with the piece of this index.
fn run_at<'a>(listing: &Listing<'a>, index: usize, more: usize) -> Run<'a>
    requires { index + 1 < 2 ^ 64 }
    ensures index { result.index ≡ index }
    ensures more { result.more ≡ more }
    ensures is_down { result.is_down ≡ is_lower (slice_get listing.now.pieces.now index)
        (slice_get listing.now.pieces.now (index + 1)) }
    ensures origin { result.origin ≡ slice_get listing.now.labels.origins.now index }
    ensures name { result.name.now ≡
        name_of (map string_bytes listing.now.labels.names.now) result.origin }
{
    let origin = listing.labels.origins.get(index).copied();
    Run {
        index,
        more,
        is_down: is_lower(listing.pieces, index),
        origin,
        name: name_of(listing.labels.names, origin),
    }
}

/// Writes the line of the run that begins with the piece of this index.
fn push_line_of_run(
    alloc: Global,
    text: &mut String,
    listing: &Listing<'_>,
    index: usize,
    more: usize,
) -> Result<(), AllocError>
    requires { index + 1 < 2 ^ 64 }
    ensures { OnOk result (string_bytes text.new ≡ string_bytes text.old ++
        line_of_run (listed listing.now) index more) }
{
    let run = run_at(listing, index, more);
    match listing.pieces.get(index) {
        Some(d) => push_pieces_line(alloc, text, &run, d),
        None => Ok(()),
    }
}

/// Writes the lines of a run that begins with a piece, before these cells: of its groups, of the fence before it, and
/// of its pieces.
fn push_run_lines(
    alloc: Global,
    text: &mut String,
    listing: &Listing<'_>,
    index: usize,
    cell: &Cell,
    cells: &[Cell],
    fences: &[Fence],
) -> Result<(), AllocError>
    requires { index + 1 + length cells.now < 2 ^ 64 }
    ensures { OnOk result (string_bytes text.new ≡ string_bytes text.old ++
        run_lines (listed listing.now) index fences.now cell.now cells.now
        (run_length (listed listing.now) (index + 1) cells.now)) }
{
    let more = run_length(listing, index + 1, cells);
    let (groups, pieces, settings) = (listing.groups, listing.pieces, listing.settings);
    let last = last_row(cell, cells, more);
    push_groups(alloc, text, settings.greatest_batch(), groups, cell, last)?;
    push_fence(alloc, text, pieces, fences, cell, settings.fence())?;
    push_line_of_run(alloc, text, listing, index, more)
}

/// Writes the lines that begin with a piece, before these cells: none if it shares the line of the piece before it.
fn push_run(
    alloc: Global,
    text: &mut String,
    listing: &Listing<'_>,
    index: usize,
    cell: &Cell,
    cells: &[Cell],
    fences: &[Fence],
) -> Result<(), AllocError>
    requires { index + 1 + length cells.now < 2 ^ 64 }
    ensures { OnOk result (string_bytes text.new ≡ string_bytes text.old ++
        lines_at (listed listing.now) index fences.now cell.now cells.now) }
{
    if continues(listing, index, cell) {
        return Ok(());
    }
    push_run_lines(alloc, text, listing, index, cell, cells, fences)
}

/// Writes the lines of the pieces, of their groups and of their fences.
fn push_cells(
    alloc: Global,
    text: &mut String,
    listing: &Listing<'_>,
    cells: &[Cell],
    fences: &[Fence],
) -> Result<(), AllocError>
    requires { length cells.now < 2 ^ 63 }
    ensures { OnOk result (string_bytes text.new ≡ string_bytes text.old ++
        cell_lines (listed listing.now) 0 fences.now cells.now) }
{
    let (mut rest, mut left) = (cells, fences);
    let mut index: usize = 0;
    while let [cell, after @ ..] = rest {
        push_run(alloc, text, listing, index, cell, after, left)?;
        left = fences_left(left, cell);
        rest = after;
        index += 1;
    }
    Ok(())
}

/// The explanation of a plan in words: a line for each group, fence and piece, and one for the costs. Pieces of one
/// operation that follow each other without a fence share a line, and so do groups of them that are alike, unless the
/// detail is [`Detail::All`].
pub fn explanation_text(
    alloc: Global,
    explanation: &Explanation,
    pieces: &[Operation],
    labels: &Labels<'_>,
    settings: &Settings,
    detail: Detail,
) -> Result<String, AllocError>
    ensures { IfOk result (λ s. string_bytes s ≡
        explanation_words settings.now detail explanation.now pieces.now (labelling labels.now)) }
{
    let listing = Listing {
        settings,
        detail,
        groups: explanation.costs.groups.as_slice(),
        pieces,
        labels: *labels,
    };
    let mut text = String::new(alloc);
    push_cells(
        alloc,
        &mut text,
        &listing,
        &explanation.cells,
        &explanation.fences,
    )?;
    let costs = cost_text(alloc, &explanation.costs, pieces.len())?;
    push_line(&mut text, &costs)?;
    Ok(text)
}
