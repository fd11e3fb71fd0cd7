//! Judging a plan for listed pieces.

ghost use Rattle.std.specs.Prelude.{ℕ, Result, map};
ghost use Rattle.dsa_calls.specs.declared.fault.PlanFault.{PlanFault};
ghost use Rattle.dsa_settings.specs.Barriers.{WithBarriers};
ghost use Rattle.dsa_calls.specs.Fenced.{JudgesFenced};
ghost use Rattle.dsa_calls.specs.Judge.{Judges, JudgesPiecesBy, FindsOver};
ghost use Rattle.dsa_calls.specs.Lists.{OrMemory, IsOrMemory};

use crate::fault::PlanFault;
use dsa_descriptor::{MOST_PIECES, read_descriptor_list, read_list};
use dsa_plan::{Plan, Settings, cost, is_legal_with};
use dsa_ranges::Piece;
use dsa_splitter::SplitFault;
use std::alloc::Global;

/// The cost of the plan for the pieces that the bytes spell, or the first cause to refuse it: that of the list, then
/// more than 65,536 pieces, then the first piece longer than the greatest transfer, then that of the plan. There is a
/// single allocation, for the pieces.
pub fn judge_bytes(
    alloc: Global,
    list: &[u8],
    plan: &Plan,
    settings: &Settings,
) -> Result<u64, PlanFault>
    ensures answer { OrMemory (λ cost. cost) (Judges list.now plan.now settings.now) result }
    // What it answers is the one outcome, but for an allocation failure.
    ensures only { (outcome : Result ℕ PlanFault) →
        Judges list.now plan.now settings.now outcome → IsOrMemory (λ cost. cost) outcome result }
{
    let pieces = read_list(alloc, list)?;
    judge_pieces(&pieces, &[], plan, settings)
}

/// The cost of the plan for the pieces that the bytes spell, as [`judge_bytes`] judges them. A
/// piece with the flag 0x0001, fence, begins after a barrier, which the plan has to keep. A fence on the first piece
/// says nothing.
///
/// # Errors
/// The first fault of the bytes without their fences as a list; else the first cause to refuse the plan for the pieces
/// and their barriers, as [`judge_pieces`] reports it; [`PlanFault::Memory`] if an allocation fails.
pub fn judge_fenced_list(
    alloc: Global,
    list: &[u8],
    plan: &Plan,
    settings: &Settings,
) -> Result<u64, PlanFault>
    ensures answer { OrMemory (λ cost. cost)
        (JudgesFenced list.now plan.now settings.now) result }
    // What it answers is the one outcome, but for an allocation failure.
    ensures only { (outcome : Result ℕ PlanFault) →
        JudgesFenced list.now plan.now settings.now outcome →
        IsOrMemory (λ cost. cost) outcome result }
{
    let read = read_descriptor_list(alloc, list)?;
    judge_pieces(&read.descriptors, &read.barriers, plan, settings)
}

/// The cost of the plan for the pieces and their barriers, or the first cause to refuse it, as [`judge_bytes`] judges
/// those that bytes spell: for callers that have read a list already, and know that its pieces have one owner. The mark
/// of a piece says whether it begins after a barrier; without marks there are none.
pub fn judge_pieces<P: Piece>(
    pieces: &[P],
    barriers: &[bool],
    plan: &Plan,
    settings: &Settings,
) -> Result<u64, PlanFault>
    ensures { JudgesPiecesBy (WithBarriers (P.conflict pieces.now) barriers.now)
        (map P.size pieces.now) plan.now settings.now result }
{
    if pieces.len() > MOST_PIECES {
        return Err(PlanFault::Split(SplitFault::TooManyPieces));
    }
    if let Some(index) = first_over(pieces, settings.greatest_transfer()) {
        return Err(PlanFault::OverTransfer(index));
    }
    is_legal_with(plan, pieces, barriers, settings)?;
    Ok(cost(plan, settings))
}

/// The index of the first piece longer than the greatest transfer.
pub fn first_over<P: Piece>(pieces: &[P], greatest: u64) -> Option<usize>
    ensures { FindsOver greatest (map P.size pieces.now) result }
{
    for (index, piece) in pieces.iter().enumerate() {
        if u64::from(piece.transfer_size()) > greatest {
            return Some(index);
        }
    }
    None
}
