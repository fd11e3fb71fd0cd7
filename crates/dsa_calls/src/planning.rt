//! Planning the operations of a list.

ghost use Rattle.std.specs.Prelude.{◌≡◌, ◌≢◌, ◌⊎◌, [], Bool, List, length, map, IfErr, IfOk, IfSome, Ok, Err, Result};
ghost use Rattle.dsa_descriptor.specs.declared.descriptor.Descriptor.{Descriptor};
ghost use Rattle.dsa_descriptor.specs.Descriptors.{fields};
ghost use Rattle.dsa_ranges.specs.Ranges.{ConflictAt};
ghost use Rattle.dsa_settings.specs.Barriers.{WithBarriers};
ghost use Rattle.dsa_settings.specs.Legal.{IsLeast};
ghost use Rattle.dsa_plan.specs.Certificate.{IsGood, contents};
ghost use Rattle.dsa_settings.specs.Settings.{Limits, tariff_of};
ghost use Rattle.dsa_splitter.specs.Pieces.{piece_barriers};
ghost use Rattle.dsa_calls.specs.declared.fault.PlanFault.{PlanFault};
ghost use Rattle.dsa_calls.specs.declared.fault.PlanFault.TheVariants.{Memory};
ghost use Rattle.dsa_calls.specs.Lists.{OrMemory, IsOrMemory};
ghost use Rattle.dsa_calls.specs.Planned.{CanBePlanned, IsSubmissionOfPiecesBy, Plans, SplitsList, Submission, submission_of};
ghost use Rattle.dsa_calls.specs.Fenced.{AreFencedPieces, IsFencedLeast, PlansFenced, PlansWith};
ghost use Rattle.dsa_calls.specs.Checked.{Checks};

use crate::fault::PlanFault;
use dsa_descriptor::{Descriptor, DescriptorList, ListFault, read_descriptor_list, read_list};
use dsa_plan::{Certificate, Emission, Plan, Settings, emit};
use dsa_search::{Found, search_with};
use dsa_splitter::{are_own_pieces, into_pieces, split};
use std::alloc::{AllocError, Global};

/// A planned list.
#[derive(Drop)]
pub struct Planned {
    /// The pieces of the listed operations, in the order in which they are submitted.
    pub pieces: Vec<Descriptor>,
    /// The plan of these pieces. No legal plan costs less.
    pub plan: Plan,
    /// The certificate that none does, for a checker.
    pub certificate: Certificate,
    /// What the plan costs, in the unit of the settings' prices.
    pub cost: u64,
    /// The bytes to submit.
    pub emission: Emission,
    /// Whether each piece begins after a barrier; empty if the list has none.
    pub barriers: Vec<bool>,
}

/// The pieces of the operations that the bytes spell.
///
/// # Errors
/// As [`plan_list`].
pub fn pieces_of(
    alloc: Global,
    list: &[u8],
    settings: &Settings,
) -> Result<DescriptorList, PlanFault>
    ensures split { OrMemory (λ pieces. pieces.descriptors.items)
        (SplitsList settings.now list.now) result }
    ensures can { IfOk result
        (λ pieces. CanBePlanned settings.now (map fields pieces.descriptors.items)) }
    ensures none { IfOk result (λ pieces. pieces.barriers.items ≡ []) }
{
    let read = read_list(alloc, list)?;
    let operations = DescriptorList::without_barriers(alloc, read);
    let pieces = into_pieces(alloc, operations, settings)?;
    Ok(pieces)
}

/// The plan of the pieces that keeps their barriers, with its certificate, its cost and its emission.
pub(crate) fn plan_pieces(
    alloc: Global,
    pieces: DescriptorList,
    settings: &Settings,
) -> Result<Planned, AllocError>
    requires { CanBePlanned settings.now (map fields pieces.descriptors.items) }
    ensures same { IfOk result (λ p. p.pieces.items ≡ pieces.descriptors.items) }
    ensures barriers { IfOk result (λ p. p.barriers.items ≡ pieces.barriers.items) }
    ensures planned { IfOk result (λ p. IsSubmissionOfPiecesBy
        (WithBarriers (ConflictAt (map fields p.pieces.items)) pieces.barriers.items)
        settings.now (submission_of p)) }
{
    let DescriptorList {
        descriptors: pieces,
        barriers,
    } = pieces;
    let Found {
        plan,
        prices,
        pairs,
    } = search_with(alloc, &pieces, &barriers, settings)?;
    let emission = emit(alloc, &plan, &pieces, settings)?;
    // The last price is what the plan costs.
    let cost = prices[pieces.len()];
    let certificate = Certificate {
        version: settings.version(),
        prices,
        pairs,
    };
    Ok(Planned {
        pieces,
        plan,
        certificate,
        cost,
        emission,
        barriers,
    })
}

/// Plans operations, as [`plan_list`] plans those that bytes spell: for callers that have read a list already. If they
/// have barriers, the plan is of least cost among those that keep them; the barrier before an operation that is split
/// is before its first piece.
///
/// # Errors
/// The first fault of splitting the operations, as [`pieces`](dsa_splitter::pieces()) reports it; [`PlanFault::Memory`]
/// at the first allocation that fails.
pub fn plan_operations(
    alloc: Global,
    operations: &DescriptorList,
    settings: &Settings,
) -> Result<Planned, PlanFault>
    ensures answer { OrMemory submission_of (PlansWith operations.now.barriers.items
        settings.now (map fields operations.now.descriptors.items)) result }
    ensures barriers { IfOk result (λ p. p.barriers.items ≡
        piece_barriers settings.now.greatest_transfer
        (map fields operations.now.descriptors.items) operations.now.barriers.items) }
    ensures marked { IfOk result
        (λ p. p.barriers.items ≢ [] → length p.barriers.items ≡ length p.pieces.items) }
{
    let pieces = split(alloc, operations, settings)?;
    let submission = plan_pieces(alloc, pieces, settings)?;
    Ok(submission)
}

/// Plans the operations that the bytes spell: splits them into pieces, finds the plan of least cost and its
/// certificate, and writes the bytes that submit it. If several plans are least, it is the one whose last group begins
/// as late as it can, and so back to the first.
///
/// # Errors
/// The first fault of the bytes as a list, as [`read_list`] reports it; else the first fault of splitting the
/// operations, as [`pieces`](dsa_splitter::pieces()) reports it; [`PlanFault::Memory`] at the first allocation that
/// fails.
pub fn plan_list(alloc: Global, list: &[u8], settings: &Settings) -> Result<Planned, PlanFault>
    ensures answer { OrMemory submission_of (Plans list.now settings.now) result }
    // What it answers is the one outcome, but for an allocation failure.
    ensures only { (outcome : Result Submission PlanFault) →
        Plans list.now settings.now outcome → IsOrMemory submission_of outcome result }
    // The plan is legal, and no legal plan of the pieces costs less.
    ensures least { IfOk result (λ p. IsLeast (ConflictAt (map fields p.pieces.items))
        settings.now.greatest_batch (tariff_of settings.now) (length p.pieces.items) p.plan) }
    // The certificate is good for the cost.
    ensures certificate_good { IfOk result
        (λ p. IsGood (ConflictAt (map fields p.pieces.items))
        settings.now.greatest_batch (tariff_of settings.now) (length p.pieces.items)
        p.certificate.prices.items p.certificate.pairs.items p.cost) }
    // Checking the emission with the certificate answers the cost.
    ensures certificate_checks { IfOk result (λ p. Checks p.emission.portal.items
        p.emission.staging.items settings.now (contents p.certificate) (Ok p.cost)) }
    ensures none { IfOk result (λ p. p.barriers.items ≡ []) }
{
    let pieces = pieces_of(alloc, list, settings)?;
    let planned = plan_pieces(alloc, pieces, settings)?;
    Ok(planned)
}

/// The pieces of a list, by a look that most lists pass and that needs no settings: some only if no operation has a
/// fence, and each is its own only piece, clear of a staging area at this address.
///
/// # Errors
/// An allocation failed.
pub fn own_pieces(
    alloc: Global,
    list: &[u8],
    greatest: u64,
    staging: u64,
) -> Result<Option<Vec<Descriptor>>, AllocError>
    ensures { (s : Limits) → s.greatest_transfer ≡ greatest → s.staging ≡ staging →
        IfOk result (λ found. IfSome found (λ pieces. (barriers : List Bool) ×
        AreFencedPieces list.now s pieces.items barriers)) }
{
    let operations = match read_list(alloc, list) {
        Ok(operations) => operations,
        Err(ListFault::Memory) => return Err(AllocError),
        Err(ListFault::Length | ListFault::Field(_, _) | ListFault::MixedPasid(_)) => {
            return Ok(None);
        }
    };
    if are_own_pieces(&operations, greatest, staging) {
        Ok(Some(operations))
    } else {
        Ok(None)
    }
}

/// The pieces of the operations that the bytes spell, fenced or not, and their barriers.
///
/// # Errors
/// As [`plan_fenced_list`].
pub fn fenced_pieces(
    alloc: Global,
    list: &[u8],
    settings: &Settings,
) -> Result<DescriptorList, PlanFault>
    ensures found { IfOk result (λ found. AreFencedPieces
        list.now settings.now found.descriptors.items found.barriers.items) }
    ensures can { IfOk result (λ found.
        CanBePlanned settings.now (map fields found.descriptors.items)) }
    ensures fault { IfErr result (λ fault. (fault ≡ Memory) ⊎
        PlansFenced list.now settings.now (Err fault)) }
{
    let operations = read_descriptor_list(alloc, list)?;
    let found = into_pieces(alloc, operations, settings)?;
    Ok(found)
}

/// Plans the operations that the bytes spell, as [`plan_list`] does. An operation with the flag 0x0001, fence, begins
/// after a barrier; if it is split, its first piece does. The plan is of least cost among those that keep each barrier,
/// and has the fences that it needs. A fence on the first operation says nothing.
///
/// # Errors
/// The first fault of the bytes without their fences as a list, as [`read_list`] reports it; else the first fault of
/// splitting the operations, as [`pieces`](dsa_splitter::pieces()) reports it; [`PlanFault::Memory`] at the first
/// allocation that fails.
pub fn plan_fenced_list(
    alloc: Global,
    list: &[u8],
    settings: &Settings,
) -> Result<Planned, PlanFault>
    ensures answer { OrMemory submission_of (PlansFenced list.now settings.now) result }
    // What it answers is the one outcome, but for an allocation failure.
    ensures only { (outcome : Result Submission PlanFault) →
        PlansFenced list.now settings.now outcome → IsOrMemory submission_of outcome result }
    // The plan keeps the barriers, no legal plan that does costs less, and its certificate checks.
    ensures least { IfOk result (λ p. IsFencedLeast list.now settings.now (submission_of p)) }
    // The barriers are those of the pieces.
    ensures barriers { IfOk result
        (λ p. AreFencedPieces list.now settings.now p.pieces.items p.barriers.items) }
{
    let marked = fenced_pieces(alloc, list, settings)?;
    let planned = plan_pieces(alloc, marked, settings)?;
    Ok(planned)
}
