//! Members of a batch that do what an earlier one does.

ghost use Rattle.std.specs.Prelude.{◌≡◌, ◌↔◌, ◌<◌, IfOk, IsTrue, length, slice_get};
ghost use Rattle.dsa_conflicts.specs.Access.{IsGreatest};
ghost use Rattle.dsa_audit.specs.Members.{KnownConflict};
ghost use Rattle.dsa_audit.specs.Repeats.{AreRepeats, IsLastKnown, IsRepeated, OrderMatters, RepeatsLast, may_repeat_at};
ghost use Rattle.dsa_audit.specs.Steps.{AreLasts};

use crate::member::{Member, are_known_to_conflict};
use crate::relation::Relation;
use dsa_ranges::some_meet;
use std::alloc::{AllocError, Global};

/// What a member says of what it does.
#[derive(Clone, Copy, PartialEq, Eq)]
pub struct Action {
    /// Whether its operation is one of the six of a descriptor: no other is reported as a repeat.
    pub may_repeat: bool,
    /// All that two members which do the same have in common, as numbers of 8 bytes.
    pub words: [u64; 7],
}

/// What the member of this number does, if there is one.
fn action_at(actions: &[Action], k: usize) -> Option<Action>
    ensures { result ≡ slice_get actions.now k }
{
    actions.get(k).copied()
}

/// Whether the members of these numbers do the same, or neither is there.
fn act_alike(actions: &[Action], first: usize, second: usize) -> bool
    ensures { IsTrue result ↔ (slice_get actions.now first ≡ slice_get actions.now second) }
{
    action_at(actions, first) == action_at(actions, second)
}

/// Whether the operation of this member may be reported as a repeat.
fn may_repeat_at(actions: &[Action], k: usize) -> bool
    ensures { result ≡ may_repeat_at (slice_get actions.now k) }
{
    match action_at(actions, k) {
        Some(action) => action.may_repeat,
        None => false,
    }
}

/// Whether the later member does what the earlier one does, and neither reads what the other writes.
pub(crate) fn is_repeated(
    actions: &[Action],
    members: &[Member],
    earlier: usize,
    later: usize,
) -> bool
    requires ordered { earlier < later }
    requires within { later < length members.now }
    ensures { IsTrue result ↔ IsRepeated actions.now members.now earlier later }
{
    let (Member::Known(first), Member::Known(second)) = (&members[earlier], &members[later]) else {
        return false;
    };
    if !act_alike(actions, earlier, later) {
        return false;
    }
    if !may_repeat_at(actions, earlier) {
        return false;
    }
    if first.reads.as_slice() != second.reads.as_slice() {
        return false;
    }
    if first.writes.as_slice() != second.writes.as_slice() {
        return false;
    }
    !some_meet(&first.reads, &second.writes)
}

/// The last member before this one that it is known to conflict with, if it repeats that one.
fn repeated_last(
    actions: &[Action],
    members: &[Member],
    k: usize,
    last: Option<usize>,
) -> Option<usize>
    requires within { k < length members.now }
    requires last { IsLastKnown members.now k last }
    ensures { RepeatsLast actions.now members.now k result }
{
    let Some(earlier) = last else {
        return None;
    };
    if is_repeated(actions, members, earlier, k) {
        Some(earlier)
    } else {
        None
    }
}

/// For each member the last one before it that it is known to conflict with, as `lasts` has it, if it repeats that one.
pub(crate) fn repeats_of(
    alloc: Global,
    actions: &[Action],
    members: &[Member],
    lasts: &[Option<usize>],
) -> Result<Vec<Option<usize>>, AllocError>
    requires count { length lasts.now ≡ length members.now }
    requires lasts { AreLasts (KnownConflict members.now) lasts.now }
    ensures { IfOk result (λ repeated. AreRepeats actions.now members.now repeated.items) }
{
    let mut repeated = Vec::with_capacity(alloc, lasts.len())?;
    for k in 0..lasts.len() {
        repeated.push(repeated_last(actions, members, k, lasts[k]))?;
    }
    Ok(repeated)
}

/// The last member before this one with which its order matters: `known` is the last that it is known to conflict
/// with, and `repeated` the same, if it repeats that one. `ordered` has those of the members before it.
fn ordered_last(
    actions: &[Action],
    members: &[Member],
    k: usize,
    known: Option<usize>,
    repeated: Option<usize>,
    ordered: &[Option<usize>],
) -> Option<usize>
    requires known { IsLastKnown members.now k known }
    requires repeated { RepeatsLast actions.now members.now k repeated }
    requires ordered { AreLasts (OrderMatters actions.now members.now) ordered.now }
    requires count { length ordered.now ≡ k }
    ensures { IsGreatest (λ a. (a < k) × OrderMatters actions.now members.now a k) result }
{
    match repeated {
        Some(earlier) => ordered[earlier],
        None => known,
    }
}

/// For each member the last one before it with which its order matters. What a member repeats has the same conflicts,
/// so nothing is searched again.
pub(crate) fn ordered_lasts(
    alloc: Global,
    actions: &[Action],
    members: &[Member],
    lasts: &[Option<usize>],
    repeated: &[Option<usize>],
) -> Result<Vec<Option<usize>>, AllocError>
    requires count { length lasts.now ≡ length members.now }
    requires lasts { AreLasts (KnownConflict members.now) lasts.now }
    requires repeated { AreRepeats actions.now members.now repeated.now }
    ensures count { IfOk result (λ ordered. length ordered.items ≡ length lasts.now) }
    ensures lasts { IfOk result
        (λ ordered. AreLasts (OrderMatters actions.now members.now) ordered.items) }
{
    let mut ordered: Vec<Option<usize>> = Vec::with_capacity(alloc, lasts.len())?;
    for k in 0..lasts.len() {
        let last = ordered_last(actions, members, k, lasts[k], repeated[k], &ordered);
        ordered.push(last)?;
    }
    Ok(ordered)
}

/// Members whose order matters: they conflict by what is known of both, and neither repeats the other.
#[derive(Clone, Copy)]
pub struct OrderedConflicts<'a> {
    /// What each does.
    pub actions: &'a [Action],
    /// The members.
    pub members: &'a [Member],
}

impl<'a> Relation for OrderedConflicts<'a> {
    ghost count = { λ r. length r.members.now };

    ghost conflict = { λ r. OrderMatters r.actions.now r.members.now };

    fn conflicts(&self, earlier: usize, later: usize) -> bool {
        if !are_known_to_conflict(&self.members[earlier], &self.members[later]) {
            return false;
        }
        !is_repeated(self.actions, self.members, earlier, later)
    }
}
