//! The explanation of a plan.

ghost use Rattle.std.specs.Prelude.{◌≡◌, IfOk};
ghost use Rattle.dsa_explain.specs.declared.explanation.ExplainFault.TheVariants.{Memory};
ghost use Rattle.dsa_explain.specs.Explained.{CanBeExplained, Explains, IsExplanationOf};

use crate::cells::{Cell, lay_out};
use dsa_descriptor::MOST_PIECES;
use dsa_operations::Operation;
use dsa_plan::{Costs, LegalFault, Plan, Settings, is_legal_with, plan_costs};
use dsa_reasons::{Detail, Fence, fences_of};
use std::alloc::{AllocError, Global};
use std::fmt;

/// What a plan costs, why it has its fences, and the places of its pieces in a picture.
#[derive(Drop)]
pub struct Explanation {
    /// What its groups cost, and what its pieces cost one by one.
    pub costs: Costs,
    /// Its fences, in order, each with what needs it.
    pub fences: Vec<Fence>,
    /// The places of its pieces and fences in a picture.
    pub cells: Vec<Cell>,
    /// Whether each piece begins after a barrier; empty if none does.
    pub barriers: Vec<bool>,
}

/// Why a plan is not explained.
#[derive(Clone, Copy, PartialEq, Eq)]
pub enum ExplainFault {
    /// There are more than [`MOST_PIECES`] pieces.
    TooManyPieces,
    /// The plan is not legal for the pieces.
    Legal(LegalFault),
    /// An allocation failed.
    Memory,
}

/// Its name, without what it has.
impl fmt::Debug for ExplainFault {
    fn fmt<W: fmt::Write>(&self, f: &mut fmt::Formatter<W>) -> fmt::Result {
        f.write_str(match self {
            ExplainFault::TooManyPieces => "TooManyPieces",
            ExplainFault::Legal(_) => "Legal",
            ExplainFault::Memory => "Memory",
        })
    }
}

impl From<AllocError> for ExplainFault {
    ghost from_gives = { λ _ fault. fault ≡ Memory };

    fn from(_error: AllocError) -> ExplainFault {
        ExplainFault::Memory
    }
}

/// The explanation of a plan that is known to be legal for the pieces and their barriers; each fence names the first of
/// its conflicts, or all. The mark of a piece says whether it begins after a barrier.
///
/// # Errors
/// At the first allocation that fails.
pub fn explain_legal(
    alloc: Global,
    plan: &Plan,
    pieces: &[Operation],
    barriers: &[bool],
    settings: &Settings,
    detail: Detail,
) -> Result<Explanation, AllocError>
    requires { CanBeExplained settings.now pieces.now barriers.now plan.now }
    ensures { IfOk result
        (IsExplanationOf settings.now detail pieces.now barriers.now plan.now) }
{
    let costs = plan_costs(alloc, plan, pieces.len(), settings)?;
    let fences = fences_of(alloc, plan, pieces, barriers, detail)?;
    let cells = lay_out(alloc, plan)?;
    Ok(Explanation {
        costs,
        fences,
        cells,
        barriers: Vec::from_slice(alloc, barriers)?,
    })
}

/// The same, if the plan is legal: for callers that have neither planned nor judged it.
///
/// # Errors
/// [`ExplainFault::TooManyPieces`] if there are more than [`MOST_PIECES`]; else
/// [`ExplainFault::Legal`] with the first fault of the plan, as [`is_legal_with`] reports it;
/// [`ExplainFault::Memory`] at the first allocation that fails.
pub fn explain(
    alloc: Global,
    plan: &Plan,
    pieces: &[Operation],
    barriers: &[bool],
    settings: &Settings,
    detail: Detail,
) -> Result<Explanation, ExplainFault>
    ensures { Explains settings.now detail pieces.now barriers.now plan.now result }
{
    if pieces.len() > MOST_PIECES {
        return Err(ExplainFault::TooManyPieces);
    }
    if let Err(fault) = is_legal_with(plan, pieces, barriers, settings) {
        return Err(ExplainFault::Legal(fault));
    }
    Ok(explain_legal(alloc, plan, pieces, barriers, settings, detail)?)
}
