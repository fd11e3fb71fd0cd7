//! The fences of a plan, each with the conflicts that only this fence separates.

ghost use Rattle.std.specs.Prelude.{◌≡◌, ◌+◌, ◌≤◌, ◌++◌, ◌↔◌, IfOk, IsTrue, OnOk, length};
ghost use Rattle.dsa_descriptor.specs.Pieces.{most_pieces};
ghost use Rattle.dsa_settings.specs.Barriers.{IsBarrier};
ghost use Rattle.dsa_settings.specs.Legal.{IsFenced};
ghost use Rattle.dsa_settings.specs.Plan.{piece_count};
ghost use Rattle.dsa_reasons.specs.Fences.{AddsExplained, AreFencesOf, HasReasons, fence_places, fenced_in, named_of};

use crate::reason::{Reason, reasons_of};
use dsa_plan::{Group, Plan, is_barrier};
use dsa_ranges::Touching;
use std::alloc::{AllocError, Global};

/// Which of the conflicts that a fence separates an explanation names.
#[derive(Clone, Copy)]
pub enum Detail {
    /// The first one.
    First,
    /// All of them.
    All,
}

/// A fence.
#[derive(Drop)]
pub struct Fence {
    /// The piece that it is before.
    pub piece: usize,
    /// Whether a barrier is before that piece, and so needs the fence.
    pub barrier: bool,
    /// The first of the conflicts that only this fence separates, or all; empty if there is no such conflict.
    pub named: Vec<Reason>,
    /// How many more conflicts only this fence separates.
    pub more: usize,
}

/// The reasons that are named.
fn named_of(alloc: Global, detail: Detail, reasons: Vec<Reason>) -> Result<Vec<Reason>, AllocError>
    ensures { IfOk result (λ named. named.items ≡ named_of detail reasons.items) }
{
    match detail {
        // A copy, so that the memory of a long list is freed.
        Detail::First => {
            let (first, _) = reasons.split_at(reasons.len().min(1));
            Vec::from_slice(alloc, first)
        }
        Detail::All => Ok(reasons),
    }
}

/// The fence at a piece of a group that begins with piece `start`.
fn fence_of<P: Touching>(
    alloc: Global,
    flags: &[bool],
    pieces: &[P],
    barriers: &[bool],
    start: usize,
    piece: usize,
    detail: Detail,
) -> Result<Fence, AllocError>
    requires known { start + length flags.now ≤ length pieces.now }
    requires few { length pieces.now ≤ most_pieces }
    requires fenced { IsFenced start flags.now piece }
    ensures piece { IfOk result (λ fence. fence.piece ≡ piece) }
    ensures barrier { IfOk result (λ fence. IsTrue fence.barrier ↔ IsBarrier barriers.now piece) }
    ensures reasons { IfOk result (HasReasons detail P.reads P.writes pieces.now start flags.now) }
{
    let reasons = reasons_of(alloc, flags, pieces, start, piece)?;
    let count = reasons.len();
    let named = named_of(alloc, detail, reasons)?;
    let more = count.saturating_sub(named.len());
    let barrier = is_barrier(barriers, piece);
    Ok(Fence {
        piece,
        barrier,
        named,
        more,
    })
}

/// Writes the fences of a group at the end.
fn push_fences<P: Touching>(
    alloc: Global,
    fences: &mut Vec<Fence>,
    group: &Group,
    pieces: &[P],
    barriers: &[bool],
    start: usize,
    detail: Detail,
) -> Result<(), AllocError>
    requires known { start + length group.now ≤ length pieces.now }
    requires few { length pieces.now ≤ most_pieces }
    ensures places { OnOk result (fence_places fences.new.items ≡
        fence_places fences.old.items ++ fenced_in start group.now) }
    ensures explained { OnOk result (AddsExplained detail P.reads P.writes pieces.now
        barriers.now start group.now fences.old.items fences.new.items) }
{
    let flags = group.fences();
    for (column, fenced) in flags.iter().enumerate() {
        if *fenced {
            let piece = start + column;
            fences.push(fence_of(alloc, flags, pieces, barriers, start, piece, detail)?)?;
        }
    }
    Ok(())
}

/// The fences of a plan of pieces and their barriers, in order. The mark of a piece says whether it
/// begins after a barrier.
pub fn fences_of<P: Touching>(
    alloc: Global,
    plan: &Plan,
    pieces: &[P],
    barriers: &[bool],
    detail: Detail,
) -> Result<Vec<Fence>, AllocError>
    requires all { piece_count plan.now ≡ length pieces.now }
    requires few { length pieces.now ≤ most_pieces }
    ensures { IfOk result (λ fences.
        AreFencesOf detail P.reads P.writes pieces.now barriers.now plan.now fences.items) }
{
    let mut fences = Vec::new(alloc);
    let mut start: usize = 0;
    for group in plan.groups() {
        push_fences(alloc, &mut fences, group, pieces, barriers, start, detail)?;
        start += group.len();
    }
    Ok(fences)
}
