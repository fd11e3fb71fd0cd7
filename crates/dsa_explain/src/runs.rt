//! Runs: pieces of one operation that share a line of an explanation.

ghost use Rattle.std.specs.Prelude.{◌≡◌, ◌+◌, ◌-◌, ◌<◌, ◌≤◌, ◌^◌, length, slice_get};
ghost use Rattle.dsa_explain.specs.Runs.{are_alike, are_as_large, continues, goes_on, has_from, is_so_far_after, keeps_group, listed, repeats, repeats_group, run_length};

use crate::cells::Cell;
use crate::labels::{Labels, Origin};
use dsa_operations::Operation;
use dsa_plan::{GroupCost, Settings};
use dsa_ranges::Piece;
use dsa_reasons::Detail;

/// What is listed: the pieces of a plan, the operation that each is of, what the groups cost under settings, and the
/// detail.
#[derive(Clone, Copy)]
pub(crate) struct Listing<'a> {
    pub(crate) settings: &'a Settings,
    pub(crate) detail: Detail,
    pub(crate) groups: &'a [GroupCost],
    pub(crate) pieces: &'a [Operation],
    pub(crate) labels: Labels<'a>,
}

/// Whether the later piece is of the same operation, so many of the operation's pieces after the other.
fn is_so_far_after(count: usize, origin: Option<Origin>, later: Option<Origin>) -> bool
    ensures { result ≡ is_so_far_after count origin later }
{
    match (origin, later) {
        (Some(origin), Some(later)) => {
            later.operation == origin.operation
                && later.piece as u128 == origin.piece as u128 + count as u128
        }
        (Some(_), None) | (None, _) => false,
    }
}

/// Whether both pieces have one size.
fn are_as_large(pieces: &[Operation], before: usize, index: usize) -> bool
    ensures { result ≡
        are_as_large (slice_get pieces.now before) (slice_get pieces.now index) }
{
    match (pieces.get(before), pieces.get(index)) {
        (Some(d), Some(later)) => later.transfer_size() == d.transfer_size(),
        (Some(_), None) | (None, _) => false,
    }
}

/// Whether the piece at this index and the one so many before it are of the same operation, as many of its pieces
/// apart, and of the same size.
fn repeats(listing: &Listing<'_>, count: usize, index: usize) -> bool
    ensures { result ≡ repeats (listed listing.now) count index }
{
    let (before, origins) = (index.saturating_sub(count), listing.labels.origins);
    let (origin, later) = (origins.get(before).copied(), origins.get(index).copied());
    is_so_far_after(count, origin, later) && are_as_large(listing.pieces, before, index)
}

/// Whether from this piece on, its operation has exactly so many pieces left.
fn has_from(count: usize, origin: Option<Origin>) -> bool
    ensures { result ≡ has_from count origin }
{
    match origin {
        Some(origin) => origin.piece as u128 + count as u128 <= origin.pieces as u128 + 1,
        None => false,
    }
}

/// Whether both groups have the same number of pieces, no fences and the same cost.
fn are_alike(before: &GroupCost, group: &GroupCost) -> bool
    ensures { result ≡ are_alike before.now group.now }
{
    group.size == before.size
        && group.cost == before.cost
        && before.fences == 0
        && group.fences == 0
}

/// Whether the group of this number, which begins with the piece at this index, is like the one before it, and all
/// pieces of both are of its operation.
fn repeats_group(listing: &Listing<'_>, index: usize, number: usize) -> bool
    ensures { result ≡ repeats_group (listed listing.now) index
        (slice_get listing.now.groups.now (number - 1))
        (slice_get listing.now.groups.now number) }
{
    let (groups, origins) = (listing.groups, listing.labels.origins);
    match (groups.get(number.saturating_sub(1)), groups.get(number)) {
        (Some(before), Some(group)) => {
            are_alike(before, group)
                && repeats(listing, group.size, index)
                && has_from(group.size, origins.get(index).copied())
        }
        (Some(_), None) | (None, _) => false,
    }
}

/// Whether the cell is in the group of the one before it, or begins a group that repeats the one before.
fn keeps_group(listing: &Listing<'_>, index: usize, cell: &Cell) -> bool
    ensures { result ≡ keeps_group (listed listing.now) index cell.now }
{
    if cell.column == 0 {
        repeats_group(listing, index, cell.row)
    } else {
        true
    }
}

/// Whether the piece at this index goes on with the one before it.
fn goes_on(listing: &Listing<'_>, index: usize, cell: &Cell) -> bool
    ensures { result ≡ goes_on (listed listing.now) index cell.now }
{
    !cell.fenced && repeats(listing, 1, index) && keeps_group(listing, index, cell)
}

/// Whether the piece at this index shares the line of the one before it.
pub(crate) fn continues(listing: &Listing<'_>, index: usize, cell: &Cell) -> bool
    ensures { result ≡ continues (listed listing.now) listing.now.detail index cell.now }
{
    match listing.detail {
        Detail::First => goes_on(listing, index, cell),
        Detail::All => false,
    }
}

/// How many of these pieces, the first of which has this index, share the line of the piece before them.
pub(crate) fn run_length(listing: &Listing<'_>, index: usize, cells: &[Cell]) -> usize
    requires { index + length cells.now < 2 ^ 64 }
    ensures value { result ≡ run_length (listed listing.now) index cells.now }
    ensures bound { result ≤ length cells.now }
{
    let mut count: usize = 0;
    let mut rest = cells;
    while let [cell, after @ ..] = rest {
        if !continues(listing, index + count, cell) {
            return count;
        }
        count += 1;
        rest = after;
    }
    count
}
