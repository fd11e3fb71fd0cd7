//! The fences that a batch does not need.

ghost use Rattle.std.specs.Prelude.{◌≡◌, ◌<◌, ◌≤◌, ℕ, length, IfOk, MatchOption};
ghost use Rattle.dsa_audit.specs.Audits.{HasFence, IsReduced};
ghost use Rattle.dsa_conflicts.specs.Last.{IsLastOf};
ghost use Rattle.dsa_audit.specs.Steps.{IsLastFrom, IsNextUse, IsIdleUse, IsSpareUse, NoneAcross, NoneFrom, IsAcross, NoneSet, IsFirstSet, IsNextFence, IsUnfencedUpTo, is_kept, epoch_kept, given_after};

use std::alloc::{AllocError, Global};

/// What a fence is for.
#[derive(Clone, Copy)]
pub enum FenceUse {
    /// There is no fence.
    NoFence,
    /// It is needed: of all fences that stay it alone separates these two members, which conflict.
    Needed(usize, usize),
    /// No conflict needs it by itself, but it is the first after this member, which can fail: it then stops the rest.
    /// Of more such members this is the first.
    Guarding(usize),
    /// No conflict needs it by itself, but this member waits for it, and software can see that the member has ended. Of
    /// more such members up to the next fence this is the first.
    Signalling(usize),
    /// Both: the first member that it guards against, and the first that waits for it and can be seen to have ended.
    GuardingAndSignalling(usize, usize),
    /// Nothing needs it, but it is held.
    Held,
    /// It may go.
    Needless,
}

/// Why fences stay that no conflict needs.
#[derive(Clone, Copy)]
pub(crate) struct Reasons<'a> {
    /// Whether each member can fail, so that the next fence stops the rest of its batch.
    pub fallible: &'a [bool],
    /// Whether software can see of each member that it has ended.
    pub visible: &'a [bool],
    /// Whether the fence before each member is held: it stays in any case.
    pub held: &'a [bool],
}

impl FenceUse {
    /// Whether a fence stays.
    pub fn is_kept(self) -> bool
        ensures { result ≡ is_kept self }
    {
        match self {
            FenceUse::Needed(_, _)
            | FenceUse::Guarding(_)
            | FenceUse::Signalling(_)
            | FenceUse::GuardingAndSignalling(_, _)
            | FenceUse::Held => true,
            FenceUse::NoFence | FenceUse::Needless => false,
        }
    }

    /// The member that the epoch begins with that goes on after this one.
    fn epoch(self, epoch: usize, at: usize) -> usize
        ensures { result ≡ epoch_kept self epoch at }
    {
        if self.is_kept() { at } else { epoch }
    }

    /// The member that has the last fence of the batch, up to this one.
    fn given(self, given: usize, at: usize) -> usize
        ensures { result ≡ given_after self given at }
    {
        match self {
            FenceUse::NoFence => given,
            FenceUse::Needed(_, _)
            | FenceUse::Guarding(_)
            | FenceUse::Signalling(_)
            | FenceUse::GuardingAndSignalling(_, _)
            | FenceUse::Held
            | FenceUse::Needless => at,
        }
    }
}

/// The fences of a batch that are needed.
#[derive(Drop)]
pub struct Reduced {
    /// What the fence before each member is for.
    pub uses: Vec<FenceUse>,
    /// Whether a fence stays before each member.
    pub fences: Vec<bool>,
}

/// The first fenced member after `at`, or the end.
fn next_fence(fences: &[bool], at: usize) -> usize
    requires { at < length fences.now }
    ensures { IsNextFence fences.now at result }
{
    for k in at + 1..fences.len() {
        if fences[k] {
            return k;
        }
    }
    fences.len()
}

/// The member that this one has in `lasts`, if that is from `epoch` on and before `at`.
fn last_within(lasts: &[Option<usize>], epoch: usize, at: usize, later: usize) -> Option<usize>
    requires within { later < length lasts.now }
    ensures { MatchOption result (NoneFrom (IsLastOf lasts.now) epoch at later)
        (λ i. IsLastFrom (IsLastOf lasts.now) epoch at later i) }
{
    let Some(last) = lasts[later] else {
        return None;
    };
    if last < epoch {
        return None;
    }
    if last >= at {
        return None;
    }
    Some(last)
}

/// Two members that conflict, the earlier from `epoch` on and before `at`, the later from there on and before `end`, if
/// a member has in `lasts` the one that it conflicts with.
fn across(lasts: &[Option<usize>], epoch: usize, at: usize, end: usize) -> Option<(usize, usize)>
    requires within { end ≤ length lasts.now }
    ensures { MatchOption result (NoneAcross (IsLastOf lasts.now) epoch at end)
        (λ p. IsAcross (IsLastOf lasts.now) epoch at end p.0 p.1) }
{
    for later in at..end {
        if let Some(earlier) = last_within(lasts, epoch, at, later) {
            return Some((earlier, later));
        }
    }
    None
}

/// The first member of which the flag is set, from `from` on and before `before`.
fn first_set(flags: &[bool], from: usize, before: usize) -> Option<usize>
    ensures { MatchOption result (NoneSet flags.now from before)
        (IsFirstSet flags.now from before) }
{
    for m in from..before.min(flags.len()) {
        if flags[m] {
            return Some(m);
        }
    }
    None
}

/// What a fence before the member is for, if it is for nothing else.
fn idle_use(held: &[bool], at: usize) -> FenceUse
    ensures { IsIdleUse held.now at result }
{
    if at < held.len() && held[at] {
        FenceUse::Held
    } else {
        FenceUse::Needless
    }
}

/// What a fence before the member is for that no conflict needs, between the fences of the batch at `given` and `end`.
/// One before the first member orders nothing.
fn spare_use(reasons: Reasons, given: usize, at: usize, end: usize) -> FenceUse
    requires { given ≤ at }
    ensures { IsSpareUse reasons.entry.fallible.now reasons.entry.visible.now
        reasons.entry.held.now given at end result }
{
    if at == 0 {
        return idle_use(reasons.held, at);
    }
    let guarded = first_set(reasons.fallible, given, at);
    let shown = first_set(reasons.visible, at, end);
    match (guarded, shown) {
        (Some(m), Some(j)) => FenceUse::GuardingAndSignalling(m, j),
        (Some(m), None) => FenceUse::Guarding(m),
        (None, Some(j)) => FenceUse::Signalling(j),
        (None, None) => idle_use(reasons.held, at),
    }
}

/// What the fence before the member is for, where the last fence of the batch is at `given`, and the last that stays at
/// `epoch`.
fn use_of(
    fences: &[bool],
    lasts: &[Option<usize>],
    reasons: Reasons,
    given: usize,
    epoch: usize,
    at: usize,
) -> FenceUse
    requires count { length lasts.now ≡ length fences.now }
    requires within { at < length fences.now }
    requires given { given ≤ at }
    ensures { IsNextUse (IsLastOf lasts.now)
        reasons.entry.fallible.now reasons.entry.visible.now reasons.entry.held.now
        fences.now given epoch at result }
{
    if !fences[at] {
        return FenceUse::NoFence;
    }
    let end = next_fence(fences, at);
    match across(lasts, epoch, at, end) {
        Some((earlier, later)) => FenceUse::Needed(earlier, later),
        None => spare_use(reasons, given, at, end),
    }
}

/// The fewest fences of a batch that separate each member from the one that it has in `lasts`, where its fences do,
/// that stop the same members, whichever fail of those that can, that each member which can be seen to have ended waits
/// for as before, and those that are held: each with a conflict that needs it, or with the first member that can fail
/// of the epoch before it, the first that can be seen of the epoch after it, or both. The others may go, all at once.
pub(crate) fn drop_needless(
    alloc: Global,
    fences: &[bool],
    lasts: &[Option<usize>],
    reasons: Reasons,
) -> Result<Reduced, AllocError>
    requires { length lasts.now ≡ length fences.now }
    ensures { IfOk result
        (λ t. IsReduced (IsLastOf lasts.now)
        reasons.entry.fallible.now reasons.entry.visible.now reasons.entry.held.now
        fences.now t.uses.items t.fences.items) }
{
    let mut uses = Vec::with_capacity(alloc, fences.len())?;
    let mut kept = Vec::with_capacity(alloc, fences.len())?;
    let mut epoch = 0;
    let mut given = 0;
    for at in 0..fences.len() {
        let fence = use_of(fences, lasts, reasons, given, epoch, at);
        uses.push(fence)?;
        kept.push(fence.is_kept())?;
        epoch = fence.epoch(epoch, at);
        given = fence.given(given, at);
    }
    Ok(Reduced { uses, fences: kept })
}
