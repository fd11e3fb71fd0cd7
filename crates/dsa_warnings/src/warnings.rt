//! What is worth a warning about the pieces of a plan, in their order.

ghost use Rattle.std.specs.Prelude.{◌≡◌, ◌≤◌, ◌++◌, IfOk, None, OnOk, length, slice_index_or};
ghost use Rattle.dsa_descriptor.specs.Pieces.{most_pieces};
ghost use Rattle.dsa_settings.specs.Plan.{piece_count};
ghost use Rattle.dsa_warnings.specs.Warnings.{AreWarnings, goes_on, last_barrier, shared_concern, warnings_at, warnings_from, with_piece};

use crate::concerned::Concerned;
use crate::concerns::{Concern, check_concern, overlap_concern};
use dsa_plan::Plan;
use dsa_resume::last_shared;
use dsa_settings::epoch_numbers;
use std::alloc::{AllocError, Global};

/// What is worth a warning about one piece.
#[derive(Clone, Copy)]
pub struct Warning {
    /// The piece, from 0 on.
    pub piece: usize,
    /// What it is.
    pub concern: Concern,
}

/// The last piece after a barrier that begins there; 0 if there is no barrier.
fn last_barrier(barriers: &[bool]) -> usize
    ensures { result ≡ last_barrier 0 0 barriers.now }
{
    let mut last: usize = 0;
    for (piece, mark) in barriers.iter().enumerate() {
        if *mark {
            last = piece;
        }
    }
    last
}

/// Whether the next piece is in the same epoch, by the epochs of the pieces.
fn goes_on(epochs: &[u32], piece: usize) -> bool
    ensures { result ≡ goes_on epochs.now piece }
{
    if epochs.len() <= 1 || epochs.len() - 1 <= piece {
        return false;
    }
    epochs[piece + 1] == epochs[piece]
}

/// That one of a piece and this earlier one writes into the record of the other.
fn shared_concern(last: Option<u32>) -> Option<Concern>
    ensures { result ≡ shared_concern last }
{
    match last {
        Some(earlier) => Some(Concern::SharedRecord(earlier as usize)),
        None => None,
    }
}

/// The last earlier piece at a place, if there is one.
fn last_at(lasts: &[Option<u32>], piece: usize) -> Option<u32>
    ensures { result ≡ slice_index_or lasts.now piece None }
{
    if piece < lasts.len() {
        lasts[piece]
    } else {
        None
    }
}

/// Adds what is worth a warning about a piece, if there is something.
fn push_concern(
    warnings: &mut Vec<Warning>,
    piece: usize,
    concern: Option<Concern>,
) -> Result<(), AllocError>
    ensures { OnOk result (warnings.new.items ≡ warnings.old.items ++ with_piece piece concern) }
{
    if let Some(concern) = concern {
        warnings.push(Warning { piece, concern })?;
    }
    Ok(())
}

/// Adds all that is worth a warning about a piece.
fn push_piece<P: Concerned>(
    warnings: &mut Vec<Warning>,
    piece: usize,
    last: Option<u32>,
    is_before_barrier: bool,
    goes_on: bool,
    subject: &P,
) -> Result<(), AllocError>
    ensures { OnOk result (warnings.new.items ≡ warnings.old.items
        ++ warnings_at piece last is_before_barrier goes_on (P.descriptor subject.now)) }
{
    push_concern(warnings, piece, shared_concern(last))?;
    let Some(d) = subject.descriptor() else {
        return Ok(());
    };
    push_concern(
        warnings,
        piece,
        check_concern(d, is_before_barrier, goes_on),
    )?;
    push_concern(warnings, piece, overlap_concern(d))
}

/// What is worth a warning about pieces, by the last earlier piece with which each shares a record, the last barrier,
/// and their epochs.
fn all_warnings<P: Concerned>(
    alloc: Global,
    pieces: &[P],
    lasts: &[Option<u32>],
    barrier: usize,
    epochs: &[u32],
) -> Result<Vec<Warning>, AllocError>
    ensures { IfOk result (λ warnings. warnings.items ≡
        warnings_from P.descriptor lasts.now barrier epochs.now 0 pieces.now) }
{
    let mut warnings = Vec::new(alloc);
    for (piece, subject) in pieces.iter().enumerate() {
        let (last, goes) = (last_at(lasts, piece), goes_on(epochs, piece));
        push_piece(&mut warnings, piece, last, piece < barrier, goes, subject)?;
    }
    Ok(warnings)
}

/// What is worth a warning about the pieces of a plan and their barriers, in the order of the pieces: that one writes
/// into the completion record of another, that the result of a compare does not stop all that comes after it, and that
/// a move's source and destination overlap. About a checksum it is only the first.
///
/// # Errors
/// [`AllocError`] at the first allocation that fails.
pub fn warnings_of<P: Concerned>(
    alloc: Global,
    plan: &Plan,
    pieces: &[P],
    barriers: &[bool],
) -> Result<Vec<Warning>, AllocError>
    requires all { piece_count plan.now ≡ length pieces.now }
    requires few { length pieces.now ≤ most_pieces }
    ensures { IfOk result (λ warnings. AreWarnings P.writes P.descriptor
        pieces.now barriers.now plan.now warnings.items) }
{
    let lasts = last_shared(alloc, pieces)?;
    let epochs = epoch_numbers(alloc, plan)?;
    all_warnings(alloc, pieces, &lasts, last_barrier(barriers), &epochs)
}
