//! What is left of a list that was submitted and has stopped.

ghost use Rattle.std.specs.Prelude.{◌≡◌, ◌≢◌, ◌≤◌, ◌⊎◌, [], ℕ, IfOk, MatchResult, length};
ghost use Rattle.dsa_descriptor.specs.Pieces.{most_pieces};
ghost use Rattle.dsa_calls.specs.declared.fault.PlanFault.TheVariants.{Memory};
ghost use Rattle.dsa_resume.specs.declared.fault.ResumeFault.TheVariants.{PassedBarrier, Plan};
ghost use Rattle.dsa_resume.specs.Barriers.{IsFirstPassed};
ghost use Rattle.dsa_resume.specs.Ended.{ends_of};
ghost use Rattle.dsa_resume.specs.Rest.{IsLeftOver, remainder_of};
ghost use Rattle.dsa_resume.specs.Resumed.{CanBePlannedAgain, IsAnswer, Resumes, ResumesPieces};

use crate::barriers::{first_passed, front_of};
use crate::ends::{ends_of, first_idle};
use crate::fault::ResumeFault;
use crate::left::LeftOrder;
use crate::rest::{Rest, rest_of};
use crate::shared::first_shared;
use dsa_calls::{PlanFault, fenced_pieces};
use dsa_descriptor::Descriptor;
use dsa_ranges::Piece;
use dsa_settings::Settings;
use std::alloc::Global;

/// What is left of the list whose pieces have the completion records: the pieces that have not finished, in this order,
/// with their barriers. A piece that has failed and that `given_up` marks, by a byte other than 0, is not done again;
/// no bytes give up none.
///
/// A flag 0x0001, fence, of the list is a barrier: what is after it is done only if all before it has succeeded. If a
/// piece before it has ended with status 2, or is given up, all pieces after it are left out.
///
/// # Errors
/// What planning refuses of the list before it has pieces; else [`ResumeFault::Records`]; else
/// [`ResumeFault::SharedRecord`] for the first two pieces of which one writes into the record of the other; else
/// [`ResumeFault::NotFailed`] for the first piece that is given up though it has not failed; else
/// [`ResumeFault::PassedBarrier`] for the first piece that has begun though another has not succeeded and a barrier is
/// between them; [`PlanFault::Memory`] at the first allocation that fails.
pub fn resume_list(
    alloc: Global,
    list: &[u8],
    settings: &Settings,
    records: &[u8],
    given_up: &[u8],
    order: LeftOrder,
) -> Result<Rest<Descriptor>, ResumeFault>
    ensures answer { IsAnswer
        (Resumes settings.now list.now records.now given_up.now order) result }
    ensures again { IfOk result (λ rest. CanBePlannedAgain settings.now (remainder_of rest)) }
{
    let pieces = match fenced_pieces(alloc, list, settings) {
        Ok(pieces) => pieces,
        Err(fault) => return Err(ResumeFault::Plan(fault)),
    };
    let (descriptors, barriers) = (&pieces.descriptors, &pieces.barriers);
    resume_pieces(alloc, descriptors, barriers, records, given_up, order)
}

/// What is left of pieces of any kind with these barriers, as [`resume_list`] finds it of those of a list: for callers
/// who know the pieces that were planned. There may be at most 65,536 pieces, and there is a barrier's mark for each or
/// for none.
///
/// # Errors
/// [`ResumeFault::Records`]; else [`ResumeFault::SharedRecord`]; else [`ResumeFault::NotFailed`]; else
/// [`ResumeFault::PassedBarrier`], each as [`resume_list`] reports it; [`PlanFault::Memory`] at the first allocation
/// that fails.
pub fn resume_pieces<P: Piece>(
    alloc: Global,
    pieces: &[P],
    barriers: &[bool],
    records: &[u8],
    given_up: &[u8],
    order: LeftOrder,
) -> Result<Rest<P>, ResumeFault>
    requires few { length pieces.now ≤ most_pieces }
    requires marked { barriers.now ≢ [] → length barriers.now ≡ length pieces.now }
    ensures { IsAnswer (ResumesPieces P.writes order (record {
      pieces = pieces.now;
      barriers = barriers.now;
      records = records.now;
      given_up = given_up.now;
    })) result }
{
    if records.len() != 32 * pieces.len() {
        return Err(ResumeFault::Records);
    }
    match first_shared(alloc, pieces) {
        Ok(Some((i, j))) => return Err(ResumeFault::SharedRecord(i, j)),
        Ok(None) => {}
        Err(_) => return Err(ResumeFault::Plan(PlanFault::Memory)),
    }
    let (completions, _) = records.as_chunks::<32>();
    if let Some(i) = first_idle(completions, given_up) {
        return Err(ResumeFault::NotFailed(i));
    }
    left_over(alloc, pieces, barriers, completions, given_up, order)
}

// What is left of pieces whose records say how they have ended.
fn left_over<P: Piece>(
    alloc: Global,
    pieces: &[P],
    barriers: &[bool],
    completions: &[[u8; 32]],
    given_up: &[u8],
    order: LeftOrder,
) -> Result<Rest<P>, ResumeFault>
    requires count { length completions.now ≡ length pieces.now }
    requires marked { barriers.now ≢ [] → length barriers.now ≡ length pieces.now }
    ensures { let ends = ends_of completions.now given_up.now in MatchResult result
        (λ rest. IsLeftOver order pieces.now barriers.now ends (remainder_of rest))
        (λ fault. (fault ≡ Plan Memory) ⊎ ((i : ℕ) × (j : ℕ) × (fault ≡ PassedBarrier i j)
        × IsFirstPassed barriers.now ends i j)) }
{
    let ends = match ends_of(alloc, completions, given_up) {
        Ok(ends) => ends,
        Err(_) => return Err(ResumeFault::Plan(PlanFault::Memory)),
    };
    let front = front_of(barriers, &ends);
    if let Some((i, j)) = first_passed(barriers, &ends, front) {
        return Err(ResumeFault::PassedBarrier(i, j));
    }
    match rest_of(alloc, pieces, barriers, &ends, front.end, order) {
        Ok(rest) => Ok(rest),
        Err(_) => Err(ResumeFault::Plan(PlanFault::Memory)),
    }
}
