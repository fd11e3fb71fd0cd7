//! Checking the bytes that submit a plan.

ghost use Rattle.std.specs.Prelude.{◌≡◌, ◌⊎◌, ◌≤◌, length, map, ℕ, Err, IfOk, IsOk, List, MatchOption, Result};
ghost use Rattle.dsa_descriptor.specs.declared.descriptor.Descriptor.{Descriptor};
ghost use Rattle.dsa_descriptor.specs.Descriptors.{fields};
ghost use Rattle.dsa_descriptor.specs.Pieces.{most_pieces};
ghost use Rattle.dsa_ranges.specs.Pieces.{kind_of};
ghost use Rattle.dsa_ranges.specs.Ranges.{ConflictAt};
ghost use Rattle.dsa_emission.specs.EmissionFaults.{IsEmission, IsEmissionAs};
ghost use Rattle.dsa_settings.specs.Barriers.{WithBarriers};
ghost use Rattle.dsa_settings.specs.Legal.{IsLeast};
ghost use Rattle.dsa_settings.specs.Plan.{Plan};
ghost use Rattle.dsa_settings.specs.Settings.{tariff_of};
ghost use Rattle.dsa_plan.specs.Certificate.{contents};
ghost use Rattle.dsa_calls.specs.declared.fault.PlanFault.{PlanFault};
ghost use Rattle.dsa_calls.specs.declared.fault.PlanFault.TheVariants.{Memory};
ghost use Rattle.dsa_calls.specs.declared.checking.FencedFault.{FencedFault};
ghost use Rattle.dsa_calls.specs.declared.checking.FencedFault.TheVariants.{Call};
ghost use Rattle.dsa_calls.specs.Lists.{OrMemory, IsOrMemory};
ghost use Rattle.dsa_calls.specs.Checked.{Checks, ChecksPlanBy, ChecksSubmitted};
ghost use Rattle.dsa_calls.specs.FencedChecked.{ChecksFenced, ChecksPieces, IsFirstOther, IsLeastEmission};

use crate::fault::PlanFault;
use crate::planning::fenced_pieces;
use dsa_checker::check_with;
use dsa_descriptor::Descriptor;
use dsa_plan::{Certificate, Plan, Settings, read_submitted};
use dsa_ranges::Piece;
use std::alloc::Global;

/// The cost of the plan that the bytes of a portal and a staging area submit, as [`check_submitted`] checks it, if they
/// submit descriptors.
///
/// # Errors
/// Those of [`check_submitted`].
pub fn check_bytes(
    alloc: Global,
    portal: &[u8],
    staging: &[u8],
    settings: &Settings,
    certificate: &Certificate,
) -> Result<u64, PlanFault>
    ensures answer { OrMemory (λ cost. cost)
        (Checks portal.now staging.now settings.now (contents certificate.now)) result }
    // What it answers is the one outcome, but for an allocation failure.
    ensures only { (outcome : Result ℕ PlanFault) →
        Checks portal.now staging.now settings.now (contents certificate.now) outcome →
        IsOrMemory (λ cost. cost) outcome result }
    // If it answers, no legal plan of these pieces costs less, whoever wrote the certificate.
    ensures least { (plan : Plan) (ds : List Descriptor) →
        IsEmission settings.now portal.now staging.now plan ds → IsOk result →
        IsLeast (ConflictAt (map fields ds))
        settings.now.greatest_batch (tariff_of settings.now) (length ds) plan }
{
    check_submitted::<Descriptor>(alloc, portal, staging, settings, certificate)
}

/// The cost of the plan that the bytes of a portal and a staging area submit, if they submit pieces of that kind, the
/// plan is legal, and the certificate proves that no legal plan of its pieces costs less.
///
/// # Errors
/// The first fault of the bytes as an emission, as [`read_submitted`] reports it; else the first fault of the plan or
/// the certificate, as [`check_with`] reports it; [`PlanFault::Memory`] if an allocation fails.
pub fn check_submitted<P: Piece>(
    alloc: Global,
    portal: &[u8],
    staging: &[u8],
    settings: &Settings,
    certificate: &Certificate,
) -> Result<u64, PlanFault>
    ensures answer { OrMemory (λ cost. cost)
        (ChecksSubmitted (kind_of P.spelling P.keeps P.size P.reads P.writes) P.conflict
        portal.now staging.now settings.now (contents certificate.now)) result }
    // What it answers is the one outcome, but for an allocation failure.
    ensures only { (outcome : Result ℕ PlanFault) →
        ChecksSubmitted (kind_of P.spelling P.keeps P.size P.reads P.writes) P.conflict
        portal.now staging.now settings.now (contents certificate.now) outcome →
        IsOrMemory (λ cost. cost) outcome result }
    // If it answers, no legal plan of these pieces costs less, whoever wrote the certificate.
    ensures least { let kind = kind_of P.spelling P.keeps P.size P.reads P.writes in
        (plan : Plan) (ps : List P) →
        IsEmissionAs kind settings.now portal.now staging.now plan ps → IsOk result →
        IsLeast (P.conflict ps)
        settings.now.greatest_batch (tariff_of settings.now) (length ps) plan }
{
    P::are_entries();
    let (plan, pieces) = read_submitted::<P>(alloc, portal, staging, settings)?;
    check_plan(&pieces, &[], settings, &plan, certificate)
}

/// The cost of the plan of these pieces and their barriers, if it is legal and keeps the barriers, and the certificate
/// proves that no such plan costs less, as [`check_bytes`] checks the plan that bytes submit: for callers that have
/// read them already. The mark of a piece says whether it begins after a barrier; without marks there are none. Reading
/// them tests what is not tested here: that the pieces have one owner, fit the greatest transfer, and do not meet the
/// staging area.
///
/// # Errors
/// The first fault of the plan or the certificate, as [`check_with`] reports it.
pub fn check_plan<P: Piece>(
    pieces: &[P],
    barriers: &[bool],
    settings: &Settings,
    plan: &Plan,
    certificate: &Certificate,
) -> Result<u64, PlanFault>
    requires { length pieces.now ≤ most_pieces }
    ensures { ChecksPlanBy (WithBarriers (P.conflict pieces.now) barriers.now)
        settings.now (length pieces.now) plan.now (contents certificate.now) result }
{
    match check_with(pieces, barriers, settings, plan, certificate) {
        Ok(cost) => Ok(cost),
        Err(fault) => Err(PlanFault::Check(fault)),
    }
}

/// Why bytes are refused as an emission of least cost for a list in which a fence is a barrier.
#[derive(Clone, Copy)]
pub enum FencedFault {
    /// What planning the list, reading the emission, or checking its plan refuses.
    Call(PlanFault),
    /// The submitted piece of this index is not the list's, or one of the two has no piece there.
    OtherPiece(usize),
}

/// The index of the first piece that is not the same in both lists.
fn first_other<P: Piece>(submitted: &[P], listed: &[P]) -> Option<usize>
    ensures { MatchOption result (submitted.now ≡ listed.now)
        (IsFirstOther submitted.now listed.now) }
{
    let both = submitted.len().min(listed.len());
    for index in 0..both {
        if !submitted[index].is_same(&listed[index]) {
            return Some(index);
        }
    }
    if submitted.len() == listed.len() {
        None
    } else {
        Some(both)
    }
}

/// The cost of the plan that the bytes of a portal and a staging area submit for these pieces and their barriers, as
/// [`check_fenced_list`] checks those of a list: for callers that have read it already.
///
/// # Errors
/// The first fault of the bytes as an emission, as [`read_submitted`] reports it; else [`FencedFault::OtherPiece`] with
/// the least index; else the first fault of the plan or the certificate, as [`check_plan`] does; [`PlanFault::Memory`]
/// if an allocation fails.
pub fn check_pieces<P: Piece>(
    alloc: Global,
    pieces: &[P],
    barriers: &[bool],
    portal: &[u8],
    staging: &[u8],
    settings: &Settings,
    certificate: &Certificate,
) -> Result<u64, FencedFault>
    requires { length pieces.now ≤ most_pieces }
    ensures { (result ≡ Err (Call Memory)) ⊎
        ChecksPieces (kind_of P.spelling P.keeps P.size P.reads P.writes)
        (WithBarriers (P.conflict pieces.now) barriers.now) settings.now pieces.now
        portal.now staging.now (contents certificate.now) result }
{
    let (plan, submitted) = match read_submitted(alloc, portal, staging, settings) {
        Ok(read) => read,
        Err(fault) => return Err(FencedFault::Call(PlanFault::from(fault))),
    };
    if let Some(index) = first_other(&submitted, pieces) {
        return Err(FencedFault::OtherPiece(index));
    }
    match check_plan(pieces, barriers, settings, &plan, certificate) {
        Ok(total) => Ok(total),
        Err(fault) => Err(FencedFault::Call(fault)),
    }
}

/// The cost of the plan that the bytes of a portal and a staging area submit for a list, as
/// [`plan_fenced_list`](crate::plan_fenced_list) reads it: the plan is legal for the pieces of the list and keeps its
/// barriers, and the certificate proves that no such plan costs less. The list says where barriers are: a submitted
/// fence need not be one.
///
/// # Errors
/// What planning the list refuses, as [`plan_fenced_list`](crate::plan_fenced_list) reports it; else the first fault of
/// the bytes as an emission, as [`read_submitted`] does; else [`FencedFault::OtherPiece`] with the least index; else
/// the first fault of the plan or certificate, as [`check_plan`] does; [`PlanFault::Memory`] if an allocation fails.
pub fn check_fenced_list(
    alloc: Global,
    list: &[u8],
    portal: &[u8],
    staging: &[u8],
    settings: &Settings,
    certificate: &Certificate,
) -> Result<u64, FencedFault>
    ensures answer { (result ≡ Err (Call Memory)) ⊎
        ChecksFenced list.now portal.now staging.now settings.now
        (contents certificate.now) result }
    // What it answers is the one outcome, but for an allocation failure.
    ensures only { (outcome : Result ℕ FencedFault) →
        ChecksFenced list.now portal.now staging.now settings.now
        (contents certificate.now) outcome → (result ≡ Err (Call Memory)) ⊎ (result ≡ outcome) }
    // The bytes submit the list's pieces, by a plan that keeps the barriers; no such plan costs less, whoever wrote the
    // certificate.
    ensures least { IfOk result (IsLeastEmission list.now portal.now staging.now settings.now) }
{
    let marked = match fenced_pieces(alloc, list, settings) {
        Ok(marked) => marked,
        Err(fault) => return Err(FencedFault::Call(fault)),
    };
    check_pieces(
        alloc,
        &marked.descriptors,
        &marked.barriers,
        portal,
        staging,
        settings,
        certificate,
    )
}
