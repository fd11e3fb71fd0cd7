//! The last conflicts of members before other ones than themselves.

ghost use Rattle.std.specs.Prelude.{◌≡◌, ◌<◌, ◌≤◌, List, IfOk, IfSome, length};
ghost use Rattle.dsa_descriptor.specs.Spans.{IsAddressable};
ghost use Rattle.std.specs.List.{AllByRecursion};
ghost use Rattle.dsa_conflicts.specs.Access.{IsGreatest};
ghost use Rattle.dsa_conflicts.specs.Sweep.{SpansStandAgainst};
ghost use Rattle.dsa_audit.specs.declared.member.Member.{Member};
ghost use Rattle.dsa_audit.specs.Members.{KnownConflict, reads_of, writes_of};
ghost use Rattle.dsa_audit.specs.Steps.{AreLooks};

use crate::lasts::{TOO_MANY, add_member, is_addressable, widened};
use crate::member::Member;
use crate::relation::{KnownConflicts, search_back};
use dsa_conflicts::Sweep;
use std::alloc::{AllocError, Global};

/// A conflict to look for: the last member before `before` that is known to conflict with `later`.
#[derive(Clone, Copy)]
pub(crate) struct Wanted {
    /// The member up to which is looked.
    pub before: usize,
    /// The member whose conflict it is.
    pub later: usize,
}

/// What was found.
#[derive(Clone, Copy)]
pub(crate) struct Look {
    /// The member up to which was looked.
    pub before: usize,
    /// The member whose conflict it is.
    pub later: usize,
    /// The last member before `before` that is known to conflict with `later`.
    pub last: Option<usize>,
}

/// The last member of a sweep that is known to conflict with this one.
fn last_in(sweep: &Sweep, member: &Member) -> Option<u32>
    requires reads { AllByRecursion IsAddressable (reads_of member.now) }
    requires writes { AllByRecursion IsAddressable (writes_of member.now) }
    ensures { IsGreatest
        (SpansStandAgainst (reads_of member.now) (writes_of member.now) sweep.now.segments) result }
{
    match member {
        Member::Known(touched) => sweep.last_against(touched),
        Member::Unknown(_) => None,
    }
}

/// The first of the conflicts that are wanted, in order: all, if those are in the order of `before`, of so few members
/// that a sweep takes them, and no member goes past 2^64. The time is that of a sweep over the members, which meets
/// each that is wanted as one more.
pub(crate) fn looks_of(
    alloc: Global,
    members: &[Member],
    wanted: &[Wanted],
) -> Result<Vec<Look>, AllocError>
    ensures { IfOk result (λ looks. AreLooks members.now looks.items) }
{
    let mut looks = Vec::with_capacity(alloc, wanted.len())?;
    if members.len() >= TOO_MANY {
        return Ok(looks);
    }
    let mut sweep = Sweep::new(alloc);
    let mut at = 0;
    while looks.len() < wanted.len() {
        let Wanted { before, later } = wanted[looks.len()];
        if before == at {
            if later >= members.len() {
                return Ok(looks);
            }
            if !is_addressable(&members[later]) {
                return Ok(looks);
            }
            let last = widened(last_in(&sweep, &members[later]));
            looks.push(Look {
                before,
                later,
                last,
            })?;
        } else {
            if at >= members.len() {
                return Ok(looks);
            }
            if !is_addressable(&members[at]) {
                return Ok(looks);
            }
            let (next, _) = add_member(sweep, &members[at])?;
            sweep = next;
            at += 1;
        }
    }
    Ok(looks)
}

/// Whether the look comes before that of these members.
fn is_earlier(look: Look, before: usize, later: usize) -> bool {
    look.before < before || (look.before == before && look.later < later)
}

/// What was found of these members, if it is among the looks, which are in the order of both.
fn found_in(looks: &[Look], before: usize, later: usize) -> Option<Option<usize>>
    ensures { (ms : List Member) → AreLooks ms looks.now →
        IfSome result (IsGreatest (λ a. (a < before) × KnownConflict ms a later)) }
{
    let place = looks.partition_point(|look| is_earlier(*look, before, later));
    if place >= looks.len() {
        return None;
    }
    let look = looks[place];
    if look.before != before {
        return None;
    }
    if look.later != later {
        return None;
    }
    Some(look.last)
}

/// The last member before `before` that is known to conflict with `later`. Where it is not among the looks, it is
/// searched for one by one.
pub(crate) fn known_before(
    members: &[Member],
    looks: &[Look],
    before: usize,
    later: usize,
) -> Option<usize>
    requires ordered { before ≤ later }
    requires within { later < length members.now }
    requires looks { AreLooks members.now looks.now }
    ensures { IsGreatest (λ a. (a < before) × KnownConflict members.now a later) result }
{
    match found_in(looks, before, later) {
        Some(last) => last,
        None => search_back(&KnownConflicts { members }, before, later),
    }
}
