//! The last conflict of each member with one of an earlier epoch.

ghost use Rattle.std.specs.Prelude.{◌≡◌, ◌<◌, ◌≤◌, ℕ, Option, IfOk, if◌then◌else◌, length};
ghost use Rattle.dsa_conflicts.specs.Access.{IsGreatest};
ghost use Rattle.dsa_audit.specs.Members.{IsUnknownAt, PossibleConflict};
ghost use Rattle.dsa_audit.specs.Steps.{AreLasts, AreLooks, IsOuterConflict};

use crate::lasts::{last_unknown, possible_last};
use crate::looks::{Look, Wanted, known_before, looks_of};
use crate::member::Member;
use std::alloc::{AllocError, Global};

/// The first member of the epoch of a member, by that of the one before it.
pub(crate) fn epoch_of(is_fenced: bool, epoch: usize, at: usize) -> usize
    ensures { result ≡ (if is_fenced then at else epoch) }
{
    if is_fenced { at } else { epoch }
}

/// The last member before an epoch of which nothing is known, by that of the epoch of the member before.
fn outside_of(is_fenced: bool, outside: Option<usize>, unknown: Option<usize>) -> Option<usize>
    ensures { result ≡ (if is_fenced then unknown else outside) }
{
    if is_fenced { unknown } else { outside }
}

/// What is looked for: conflicts of members with earlier epochs, if their last conflict is in their own.
fn wanted_outside(
    alloc: Global,
    fences: &[bool],
    lasts: &[Option<usize>],
) -> Result<Vec<Wanted>, AllocError> {
    let mut wanted = Vec::new(alloc);
    let mut epoch = 0;
    for (later, (is_fenced, last)) in fences.iter().zip(lasts).enumerate() {
        epoch = epoch_of(*is_fenced, epoch, later);
        if let Some(last) = *last
            && 0 < epoch
            && epoch <= last
        {
            wanted.push(Wanted {
                before: epoch,
                later,
            })?;
        }
    }
    Ok(wanted)
}

/// The last member before an epoch that can conflict with a later one. `lasts` has the last conflicts of the first
/// members, and `unknown` is the last before the epoch of which nothing is known.
fn outer_last(
    members: &[Member],
    looks: &[Look],
    lasts: &[Option<usize>],
    unknown: Option<usize>,
    epoch: usize,
    later: usize,
) -> Option<usize>
    requires ordered { epoch ≤ later }
    requires within { later < length members.now }
    requires looks { AreLooks members.now looks.now }
    requires lasts { AreLasts (PossibleConflict members.now) lasts.now }
    requires unknown { IsGreatest (λ a. (a < epoch) × IsUnknownAt members.now a) unknown }
    ensures { IsGreatest (λ a. (a < epoch) × PossibleConflict members.now a later) result }
{
    if later < lasts.len() {
        let Some(last) = lasts[later] else {
            return None;
        };
        if last < epoch {
            return Some(last);
        }
    }
    let known = known_before(members, looks, epoch, later);
    possible_last(members, epoch, later, unknown, known)
}

/// For each member the last one before it that can conflict with it and from which a fence separates it. `lasts` has
/// the last conflicts of the first members, as [`possible_lasts`](crate::lasts::possible_lasts) finds them.
pub(crate) fn outer_lasts(
    alloc: Global,
    fences: &[bool],
    members: &[Member],
    lasts: &[Option<usize>],
) -> Result<Vec<Option<usize>>, AllocError>
    requires count { length fences.now ≡ length members.now }
    requires lasts { AreLasts (PossibleConflict members.now) lasts.now }
    ensures count { IfOk result (λ outers. length outers.items ≡ length fences.now) }
    ensures outers { IfOk result (λ outers. AreLasts
        (IsOuterConflict (PossibleConflict members.now) fences.now) outers.items) }
{
    let wanted = wanted_outside(alloc, fences, lasts)?;
    let looks = looks_of(alloc, members, &wanted)?;
    let mut outers = Vec::with_capacity(alloc, fences.len())?;
    let (mut epoch, mut outside, mut unknown) = (0, None, None);
    for at in 0..fences.len() {
        outside = outside_of(fences[at], outside, unknown);
        epoch = epoch_of(fences[at], epoch, at);
        outers.push(outer_last(members, &looks, lasts, outside, epoch, at))?;
        unknown = last_unknown(members, at, unknown);
    }
    Ok(outers)
}
