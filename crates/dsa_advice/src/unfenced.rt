//! The fences that a given plan lacks.

ghost use Rattle.std.specs.Prelude.{IfOk, string_bytes};
ghost use Rattle.dsa_advice.specs.Refusals.{NamesCause};

use crate::messages::message_of;
use dsa_audit::{FencePlace, Member, hazard_between, missing_fences};
use dsa_calls::PlanFault;
use dsa_descriptor::Descriptor;
use dsa_explain::kind_text;
use dsa_plan::{Group, Plan};
use dsa_ranges::touched;
use std::alloc::{AllocError, Global};

/// What the pieces of a group read and write.
fn members_of(alloc: Global, pieces: &[Descriptor]) -> Result<Vec<Member>, AllocError> {
    let mut members = Vec::new(alloc);
    for piece in pieces {
        members.push(Member::Known(touched(piece)))?;
    }
    Ok(members)
}

/// Writes a line for the conflict of two members of a group whose first piece is `start`.
fn push_conflict(
    alloc: Global,
    text: &mut String,
    members: &[Member],
    (earlier, later): (usize, usize),
    start: usize,
) -> Result<(), AllocError> {
    if earlier >= later || later >= members.len() {
        return Ok(());
    }
    if let Some(hazard) = hazard_between(members, earlier, later) {
        let (first, second) = (start.saturating_add(earlier), start.saturating_add(later));
        let (kind, address) = (kind_text(hazard.kind), hazard.address);
        text.push_str(&format!(in alloc; "  {second} after {first}, {kind} ")?)?;
        text.push_str(&format!(in alloc; "at 0x{address:x}, no fence between\n")?)?;
    }
    Ok(())
}

/// Writes a line for each fence that a group lacks.
fn push_missing(
    alloc: Global,
    text: &mut String,
    group: &Group,
    pieces: &[Descriptor],
    start: usize,
) -> Result<(), AllocError> {
    let members = members_of(alloc, pieces)?;
    if group.fences().len() != members.len() {
        return Ok(());
    }
    let corrected = missing_fences(alloc, group.fences(), &members)?;
    for (at, place) in corrected.places.iter().enumerate() {
        if let FencePlace::Missing(earlier) = *place {
            push_conflict(alloc, text, &members, (earlier, at), start)?;
        }
    }
    Ok(())
}

/// A line for each fence that a plan lacks.
fn missing_lines(alloc: Global, plan: &Plan, pieces: &[Descriptor]) -> Result<String, AllocError> {
    let mut text = String::new(alloc);
    let mut rest = pieces;
    for group in plan.groups() {
        let start = pieces.len().saturating_sub(rest.len());
        let (own, after) = rest.split_at(rest.len().min(group.fences().len()));
        push_missing(alloc, &mut text, group, own, start)?;
        rest = after;
    }
    Ok(text)
}

/// The message of a plan that lacks fences: the refusal, and a line for each of the fewest fences that mend the plan.
pub(crate) fn missing_message(
    alloc: Global,
    fault: PlanFault,
    plan: &Plan,
    pieces: &[Descriptor],
) -> Result<String, AllocError>
    ensures { IfOk result (λ s. NamesCause fault (string_bytes s)) }
{
    let mut text = message_of(alloc, fault)?;
    text.push_str(&missing_lines(alloc, plan, pieces)?)?;
    Ok(text)
}
