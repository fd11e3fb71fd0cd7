//! Conflicts that are accepted.

ghost use Rattle.std.specs.Prelude.{◌≡◌, ◌↔◌, ◌<◌, ℕ, IfOk, IsTrue, MatchOption, length};
ghost use Rattle.dsa_conflicts.specs.Access.{IsGreatest};
ghost use Rattle.dsa_audit.specs.Accepted.{AreAccepted, AreHeld, IsAcceptedAt};
ghost use Rattle.dsa_audit.specs.Repeats.{OrderMatters};
ghost use Rattle.dsa_audit.specs.Steps.{AreLasts, AreLooks, IsLastFrom, IsLeftWithin, IsUnlisted, NoneFrom};

use crate::lasts::FEW;
use crate::looks::{Look, Wanted, known_before, looks_of};
use crate::missing::FencePlace;
use crate::outer::epoch_of;
use crate::repeats::{OrderedConflicts, is_repeated};
use std::alloc::{AllocError, Global};

/// Which pairs of members are accepted, unless a recorded fence separates them.
pub trait Acceptance {
    /// The pair is listed.
    ghost lists: { Self → ℕ → ℕ → Type 0 };

    /// Whether the pair is listed.
    fn is_listed(&self, alloc: Global, earlier: usize, later: usize) -> Result<bool, AllocError>
        ensures { IfOk result (λ yes. IsTrue yes ↔ lists self.now earlier later) };

    /// The earlier members of all listed pairs with this later one, and maybe others. No answer rests on these, but one
    /// that is left out is searched for one by one.
    fn listed_with(&self, alloc: Global, later: usize) -> Result<Vec<usize>, AllocError>;
}

/// The last member before `before` with which the order of `later` matters; `lasts` has that of each member before
/// itself.
fn matters_before(
    relation: OrderedConflicts<'_>,
    looks: &[Look],
    lasts: &[Option<usize>],
    before: usize,
    later: usize,
) -> Option<usize>
    requires ordered { before < later }
    requires within { later < length relation.members.now }
    requires looks { AreLooks relation.members.now looks.now }
    requires count { length lasts.now ≡ length relation.members.now }
    requires lasts { AreLasts (OrderMatters relation.actions.now relation.members.now) lasts.now }
    ensures { IsGreatest (λ a. (a < before)
        × OrderMatters relation.entry.actions.now relation.entry.members.now a later) result }
{
    let Some(earlier) = known_before(relation.members, looks, before, later) else {
        return None;
    };
    if is_repeated(relation.actions, relation.members, earlier, later) {
        return lasts[earlier];
    }
    Some(earlier)
}

/// Of the members from `epoch` on, the last before `later` with which its order matters so that the pair is not listed.
fn last_left<A: Acceptance>(
    alloc: Global,
    relation: OrderedConflicts<'_>,
    acceptance: &A,
    looks: &[Look],
    lasts: &[Option<usize>],
    epoch: usize,
    later: usize,
) -> Result<Option<usize>, AllocError>
    requires within { later < length relation.members.now }
    requires looks { AreLooks relation.members.now looks.now }
    requires count { length lasts.now ≡ length relation.members.now }
    requires lasts { AreLasts (OrderMatters relation.actions.now relation.members.now) lasts.now }
    ensures { IfOk result (λ left. MatchOption left
        (NoneFrom (IsUnlisted (OrderMatters relation.entry.actions.now relation.entry.members.now)
        (A.lists acceptance.now)) epoch later later)
        (λ i. IsLastFrom
        (IsUnlisted (OrderMatters relation.entry.actions.now relation.entry.members.now)
        (A.lists acceptance.now)) epoch later later i)) }
{
    let Some(last) = lasts[later] else {
        return Ok(None);
    };
    let mut i = last;
    while i >= epoch {
        if !acceptance.is_listed(alloc, i, later)? {
            return Ok(Some(i));
        }
        match matters_before(relation, looks, lasts, i, later) {
            Some(next) => i = next,
            None => return Ok(None),
        }
    }
    Ok(None)
}

/// Adds what is looked for of a member that is listed with the last member of its epoch with which its order matters:
/// its conflicts before each that it is listed with.
fn want_more<A: Acceptance>(
    alloc: Global,
    wanted: &mut Vec<Wanted>,
    acceptance: &A,
    last: usize,
    later: usize,
) -> Result<(), AllocError> {
    if !acceptance.is_listed(alloc, last, later)? {
        return Ok(());
    }
    for before in &acceptance.listed_with(alloc, later)? {
        wanted.push(Wanted {
            before: *before,
            later,
        })?;
    }
    Ok(())
}

/// What is looked for: conflicts before those that are listed. Of few members each is searched for one by one.
fn wanted_within<A: Acceptance>(
    alloc: Global,
    fences: &[bool],
    acceptance: &A,
    lasts: &[Option<usize>],
) -> Result<Vec<Wanted>, AllocError> {
    let mut wanted = Vec::new(alloc);
    if fences.len() <= FEW {
        return Ok(wanted);
    }
    let mut epoch = 0;
    for (later, (is_fenced, last)) in fences.iter().zip(lasts).enumerate() {
        epoch = epoch_of(*is_fenced, epoch, later);
        if let Some(last) = *last
            && epoch <= last
        {
            want_more(alloc, &mut wanted, acceptance, last, later)?;
        }
    }
    wanted.sort_unstable_by_key(|one| (one.before, one.later));
    Ok(wanted)
}

/// For each member the last one before it, of its epoch as recorded, with which its order matters so that the pair is
/// not listed. `lasts` has the last ones, listed or not.
pub(crate) fn left_lasts<A: Acceptance>(
    alloc: Global,
    fences: &[bool],
    relation: OrderedConflicts<'_>,
    acceptance: &A,
    lasts: &[Option<usize>],
) -> Result<Vec<Option<usize>>, AllocError>
    requires known { length fences.now ≡ length relation.members.now }
    requires count { length lasts.now ≡ length fences.now }
    requires lasts { AreLasts (OrderMatters relation.actions.now relation.members.now) lasts.now }
    ensures count { IfOk result (λ left. length left.items ≡ length fences.now) }
    ensures left { IfOk result (λ left. AreLasts
        (IsLeftWithin (OrderMatters relation.entry.actions.now relation.entry.members.now)
        (A.lists acceptance.now) fences.now) left.items) }
{
    let wanted = wanted_within(alloc, fences, acceptance, lasts)?;
    let looks = looks_of(alloc, relation.members, &wanted)?;
    let mut left = Vec::with_capacity(alloc, fences.len())?;
    let mut epoch = 0;
    for at in 0..fences.len() {
        epoch = epoch_of(fences[at], epoch, at);
        let last = last_left(alloc, relation, acceptance, &looks, lasts, epoch, at)?;
        left.push(last)?;
    }
    Ok(left)
}

/// Of a member that lacks a fence if nothing is accepted, the earlier one of the pair that is named there, if it is
/// listed.
fn accepted_at<A: Acceptance>(
    alloc: Global,
    acceptance: &A,
    place: FencePlace,
    at: usize,
) -> Result<Option<usize>, AllocError>
    ensures { IfOk result (IsAcceptedAt (A.lists acceptance.now) at place) }
{
    match place {
        FencePlace::NoFence | FencePlace::Given => Ok(None),
        FencePlace::Missing(earlier) => {
            if acceptance.is_listed(alloc, earlier, at)? {
                Ok(Some(earlier))
            } else {
                Ok(None)
            }
        }
    }
}

/// The same of each member.
pub(crate) fn accepted_of<A: Acceptance>(
    alloc: Global,
    acceptance: &A,
    places: &[FencePlace],
) -> Result<Vec<Option<usize>>, AllocError>
    ensures { IfOk result
        (λ accepted. AreAccepted (A.lists acceptance.now) places.now accepted.items) }
{
    let mut accepted = Vec::with_capacity(alloc, places.len())?;
    for at in 0..places.len() {
        accepted.push(accepted_at(alloc, acceptance, places[at], at)?)?;
    }
    Ok(accepted)
}

/// The recorded fences that stay.
pub(crate) fn held_of(
    alloc: Global,
    fences: &[bool],
    stay: &[bool],
) -> Result<Vec<bool>, AllocError>
    requires { length stay.now ≡ length fences.now }
    ensures { IfOk result (λ held. AreHeld fences.now stay.now held.items) }
{
    let mut held = Vec::with_capacity(alloc, fences.len())?;
    for k in 0..fences.len() {
        held.push(fences[k] && stay[k])?;
    }
    Ok(held)
}
