//! Which conflicts a fence separates.

ghost use Rattle.std.specs.Prelude.{◌≡◌, suc, ◌+◌, ◌^◌, ◌<◌, ◌≤◌, length, IfOk, OnOk};
ghost use Rattle.dsa_descriptor.specs.Pieces.{most_pieces};
ghost use Rattle.dsa_settings.specs.Legal.{IsFenced};
ghost use Rattle.dsa_reasons.specs.Reasons.{AreReasonsFor, HasReasonsSoFar, IsOpen};

use dsa_ranges::{Hazard, Touching, find_hazard};
use std::alloc::{AllocError, Global};

/// A conflict that a fence separates. Pieces are numbered from 0.
#[derive(Clone, Copy, PartialEq, Eq)]
pub struct Reason {
    /// The piece before the fence.
    pub earlier: usize,
    /// The piece at the fence, or after it.
    pub later: usize,
    /// Where the two conflict, and why the later waits.
    pub hazard: Hazard,
}

/// In a group that begins with piece `start`, the first fenced piece after `at`, or the group's end.
fn next_fence(fences: &[bool], start: usize, at: usize) -> usize
    requires begun { start ≤ at }
    requires within { at < start + length fences.now }
    requires known { start + length fences.now < 2 ^ 63 }
    ensures after { at < result }
    ensures within { result ≤ start + length fences.now }
    ensures open { IsOpen start fences.now at result }
    ensures closed { result < start + length fences.now → IsFenced start fences.now result }
{
    for k in at + 1..start + fences.len() {
        if fences[k - start] {
            return k;
        }
    }
    start + fences.len()
}

/// Adds a reason for each piece from the fence before `at` to before `at` that conflicts with the piece `later`, from
/// the last one down.
fn push_conflicts<P: Touching>(
    reasons: &mut Vec<Reason>,
    fences: &[bool],
    pieces: &[P],
    start: usize,
    at: usize,
    later: usize,
) -> Result<(), AllocError>
    requires begun { start ≤ at }
    requires after { at ≤ later }
    requires within { later < start + length fences.now }
    requires known { start + length fences.now ≤ length pieces.now }
    requires few { length pieces.now ≤ most_pieces }
    requires so_far { HasReasonsSoFar P.reads P.writes pieces.now
        start fences.now at later at reasons.old.items }
    ensures { OnOk result (HasReasonsSoFar P.reads P.writes pieces.now
        start fences.now at (suc later) at reasons.new.items) }
{
    let waiting = pieces[later].touched_spans();
    let mut i = at;
    while i > start {
        i -= 1;
        if let Some(hazard) = find_hazard(&pieces[i].touched_spans(), &waiting) {
            reasons.push(Reason {
                earlier: i,
                later,
                hazard,
            })?;
        }
        if fences[i - start] {
            return Ok(());
        }
    }
    Ok(())
}

/// In a group that begins with piece `start`, all conflicts that only the fence at piece `at` separates, one for each
/// pair of pieces: by the later piece, and for the same later piece from the greatest earlier one down.
///
/// # Errors
/// [`AllocError`] at the first allocation that fails.
pub(crate) fn reasons_of<P: Touching>(
    alloc: Global,
    fences: &[bool],
    pieces: &[P],
    start: usize,
    at: usize,
) -> Result<Vec<Reason>, AllocError>
    requires known { start + length fences.now ≤ length pieces.now }
    requires few { length pieces.now ≤ most_pieces }
    requires fenced { IsFenced start fences.now at }
    ensures { IfOk result (λ reasons.
        AreReasonsFor P.reads P.writes pieces.now start fences.now at reasons.items) }
{
    let mut reasons = Vec::new(alloc);
    let end = next_fence(fences, start, at);
    for later in at..end {
        push_conflicts(&mut reasons, fences, pieces, start, at, later)?;
    }
    Ok(reasons)
}
