//! Why a plan has its fences and its groups: the plan as one group, in which each group's beginning after the first is
//! a fence, too.

ghost use Rattle.std.specs.Prelude.{◌≡◌, ◌≤◌, IfOk, length};
ghost use Rattle.dsa_descriptor.specs.Fences.{after_first};
ghost use Rattle.dsa_descriptor.specs.Pieces.{most_pieces};
ghost use Rattle.dsa_settings.specs.Plan.{piece_count};
ghost use Rattle.dsa_reasons.specs.OneGroup.{AreCutReasons, one_group};

use crate::fences::{Detail, Fence, fences_of};
use dsa_plan::{Group, Plan};
use dsa_ranges::Touching;
use dsa_settings::cuts_of;
use std::alloc::{AllocError, Global};

/// Clears the flag of the first piece, before which there is nothing to wait for.
fn clear_first(flags: &mut Vec<bool>)
    ensures { flags.new.items ≡ after_first flags.old.items }
{
    if !flags.is_empty() {
        flags[0] = false;
    }
}

/// The plan as one group: each group's beginning after the first is a fence, too.
fn one_group(alloc: Global, plan: &Plan) -> Result<Plan, AllocError>
    ensures { IfOk result (λ p. p ≡ one_group plan.now) }
{
    let mut flags = cuts_of(alloc, plan)?;
    clear_first(&mut flags);
    let mut groups = Vec::new(alloc);
    groups.push(Group::new(flags))?;
    Ok(Plan::new(groups))
}

/// Why a plan of pieces and their barriers has its fences and its groups, in order: for each fenced piece, and for each
/// that a group after the first begins with, what a fence there would be for. It names the first of the conflicts that
/// this one alone separates. The mark of a piece says whether it begins after a barrier.
///
/// # Errors
/// [`AllocError`] at the first allocation that fails.
pub fn cut_reasons<P: Touching>(
    alloc: Global,
    plan: &Plan,
    pieces: &[P],
    barriers: &[bool],
) -> Result<Vec<Fence>, AllocError>
    requires all { piece_count plan.now ≡ length pieces.now }
    requires few { length pieces.now ≤ most_pieces }
    ensures { IfOk result
        (λ fences. AreCutReasons P.reads P.writes pieces.now barriers.now plan.now fences.items) }
{
    let whole = one_group(alloc, plan)?;
    fences_of(alloc, &whole, pieces, barriers, Detail::First)
}
