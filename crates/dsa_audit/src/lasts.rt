//! The last conflict of each member of a batch.

ghost use Rattle.std.specs.Prelude.{◌≡◌, ◌+◌, ◌-◌, ◌^◌, ◌<◌, ◌≤◌, ◌↔◌, All, IfOk, IfSome, IsTrue, length};
ghost use Rattle.std.specs.List.{AllByRecursion};
ghost use Rattle.dsa_descriptor.specs.Spans.{InSome, IsAddressable};
ghost use Rattle.dsa_conflicts.specs.Access.{IsGreatest, later};
ghost use Rattle.dsa_conflicts.specs.Sweep.{BecomesLast, SpansStandAgainst, last_reader, last_writer};
ghost use Rattle.dsa_audit.specs.Members.{FitsMemory, IsUnknownAt, KnownConflict, PossibleConflict, reads_of, writes_of};
ghost use Rattle.dsa_audit.specs.Repeats.{IsLastKnown};
ghost use Rattle.dsa_audit.specs.Steps.{AreLasts};

use crate::member::Member;
use crate::relation::{KnownConflicts, search_back};
use arrayvec::ArrayVec;
use dsa_conflicts::Sweep;
use dsa_descriptor::are_addressable;
use dsa_ranges::Touched;
use std::alloc::{AllocError, Global};

/// Comparing each two of so many members takes less than a sweep over them.
pub(crate) const FEW: usize = 64;

/// More members than a sweep takes.
pub(crate) const TOO_MANY: usize = 0xffff_ffff;

/// Whether all that is known of the member lies below 2^64.
pub(crate) fn is_addressable(member: &Member) -> bool
    ensures { IsTrue result ↔ FitsMemory member.now }
{
    match member {
        Member::Known(touched) => {
            are_addressable(&touched.reads) && are_addressable(&touched.writes)
        }
        Member::Unknown(_) => true,
    }
}

/// A sweep that goes on to one more member, and the last member before it that is known to conflict with it. One of
/// which nothing is known counts, and touches nothing.
pub(crate) fn add_member(sweep: Sweep, member: &Member) -> Result<(Sweep, Option<u32>), AllocError>
    requires few { sweep.count + 1 < 2 ^ 32 }
    requires reads { AllByRecursion IsAddressable (reads_of member.now) }
    requires writes { AllByRecursion IsAddressable (writes_of member.now) }
    ensures count { IfOk result (λ r. r.0.count ≡ sweep.count + 1) }
    ensures readers { IfOk result (λ r. BecomesLast (InSome (reads_of member.now)) sweep.count
        (last_reader sweep.segments) (last_reader r.0.segments)) }
    ensures writers { IfOk result (λ r. BecomesLast (InSome (writes_of member.now)) sweep.count
        (last_writer sweep.segments) (last_writer r.0.segments)) }
    ensures found { IfOk result (λ r. IsGreatest
        (SpansStandAgainst (reads_of member.now) (writes_of member.now) sweep.segments) r.1) }
{
    match member {
        Member::Known(touched) => sweep.add_touched(touched),
        Member::Unknown(_) => sweep.add_touched(&Touched {
            reads: ArrayVec::new(),
            writes: ArrayVec::new(),
        }),
    }
}

/// The index as one of a list in memory.
pub(crate) fn widened(index: Option<u32>) -> Option<usize>
    ensures { result ≡ index }
{
    match index {
        Some(index) => Some(index as usize),
        None => None,
    }
}

/// For each of the first members the last one before it that is known to conflict with it. They are all members, but
/// none where there are at most 64, or 2^32 - 1 or more, and those before the first that goes past 2^64. The time grows
/// with n log n, and with the number of ranges of others that each member covers.
pub(crate) fn known_lasts(
    alloc: Global,
    members: &[Member],
) -> Result<Vec<Option<usize>>, AllocError>
    ensures lasts { IfOk result (λ lasts. AreLasts (KnownConflict members.now) lasts.items) }
    ensures count { IfOk result (λ lasts. length lasts.items ≤ length members.now) }
    ensures all { IfOk result (λ lasts. 64 < length members.now → length members.now < 2 ^ 32 - 1 →
        All FitsMemory members.now → length lasts.items ≡ length members.now) }
{
    let mut lasts = Vec::new(alloc);
    if members.len() <= FEW || members.len() >= TOO_MANY {
        return Ok(lasts);
    }
    let mut sweep = Sweep::new(alloc);
    for k in 0..members.len() {
        if !is_addressable(&members[k]) {
            return Ok(lasts);
        }
        let (next, last) = add_member(sweep, &members[k])?;
        lasts.push(widened(last))?;
        sweep = next;
    }
    Ok(lasts)
}

/// The later of the two members, where there are any.
fn later_of(first: Option<usize>, second: Option<usize>) -> Option<usize>
    ensures { result ≡ later first second }
{
    match (first, second) {
        (Some(a), Some(b)) => Some(a.max(b)),
        (Some(a), None) => Some(a),
        (None, other) => other,
    }
}

/// The index before this one.
fn before(k: usize) -> Option<usize>
    ensures { IsGreatest (λ a. a < k) result }
{
    k.checked_sub(1)
}

/// The last member before `end` that can conflict with `later`, where these are the last of which nothing is known, and
/// the last that is known to conflict with it.
pub(crate) fn possible_last(
    members: &[Member],
    end: usize,
    later: usize,
    unknown: Option<usize>,
    known: Option<usize>,
) -> Option<usize>
    requires ordered { end ≤ later }
    requires within { later < length members.now }
    requires unknown { IsGreatest (λ a. (a < end) × IsUnknownAt members.now a) unknown }
    requires known { IsGreatest (λ a. (a < end) × KnownConflict members.now a later) known }
    ensures { IsGreatest (λ a. (a < end) × PossibleConflict members.now a later) result }
{
    match &members[later] {
        Member::Known(_) => later_of(unknown, known),
        Member::Unknown(_) => before(end),
    }
}

/// The last member up to this one of which nothing is known, where this is the last before it.
pub(crate) fn last_unknown(members: &[Member], k: usize, unknown: Option<usize>) -> Option<usize>
    requires within { k < length members.now }
    requires unknown { IsGreatest (λ a. (a < k) × IsUnknownAt members.now a) unknown }
    ensures { IsGreatest (λ a. (a < k + 1) × IsUnknownAt members.now a) result }
{
    match &members[k] {
        Member::Known(_) => unknown,
        Member::Unknown(_) => Some(k),
    }
}

/// The last conflicts that are not ruled out, from those that are known: a member of which nothing is known can
/// conflict with each other.
fn lasts_with_unknown(
    alloc: Global,
    members: &[Member],
    known: &[Option<usize>],
) -> Result<Vec<Option<usize>>, AllocError>
    requires lasts { AreLasts (KnownConflict members.now) known.now }
    requires count { length known.now ≤ length members.now }
    ensures lasts { IfOk result (λ lasts. AreLasts (PossibleConflict members.now) lasts.items) }
    ensures count { IfOk result (λ lasts. length lasts.items ≡ length known.now) }
{
    let mut lasts = Vec::with_capacity(alloc, known.len())?;
    let mut unknown = None;
    for k in 0..known.len() {
        lasts.push(possible_last(members, k, k, unknown, known[k]))?;
        unknown = last_unknown(members, k, unknown);
    }
    Ok(lasts)
}

/// The same as [`known_lasts`] of conflicts that are not ruled out, of as many members.
pub(crate) fn possible_lasts(
    alloc: Global,
    members: &[Member],
) -> Result<Vec<Option<usize>>, AllocError>
    ensures lasts { IfOk result (λ lasts. AreLasts (PossibleConflict members.now) lasts.items) }
    ensures count { IfOk result (λ lasts. length lasts.items ≤ length members.now) }
    ensures all { IfOk result (λ lasts. 64 < length members.now → length members.now < 2 ^ 32 - 1 →
        All FitsMemory members.now → length lasts.items ≡ length members.now) }
{
    let known = known_lasts(alloc, members)?;
    lasts_with_unknown(alloc, members, &known)
}

/// The last member before this one that is known to conflict with it, where `known` has those of the first members.
fn known_last(members: &[Member], known: &[Option<usize>], k: usize) -> Option<usize>
    requires within { k < length members.now }
    requires lasts { AreLasts (KnownConflict members.now) known.now }
    ensures { IsLastKnown members.now k result }
{
    if k < known.len() {
        return known[k];
    }
    search_back(&KnownConflicts { members }, k, k)
}

/// For each member the last one before it that is known to conflict with it.
pub fn all_lasts(alloc: Global, members: &[Member]) -> Result<Vec<Option<usize>>, AllocError>
    ensures count { IfOk result (λ lasts. length lasts.items ≡ length members.now) }
    ensures lasts { IfOk result (λ lasts. AreLasts (KnownConflict members.now) lasts.items) }
{
    let known = known_lasts(alloc, members)?;
    let mut lasts = Vec::with_capacity(alloc, members.len())?;
    for k in 0..members.len() {
        lasts.push(known_last(members, &known, k))?;
    }
    Ok(lasts)
}
