//! Whether a plan is legal.

ghost use Rattle.std.specs.Prelude.{◌≡◌, ◌+◌, ◌<◌, ◌≤◌, ◌↔◌, map, length, IsOk, IfOk, IsTrue, Err, MatchOption};
ghost use Rattle.dsa_descriptor.specs.Descriptors.{fields};
ghost use Rattle.dsa_descriptor.specs.Pieces.{most_pieces};
ghost use Rattle.dsa_ranges.specs.Ranges.{ConflictAt};
ghost use Rattle.dsa_settings.specs.declared.legal.LegalFault.{LegalFault};
ghost use Rattle.dsa_settings.specs.Barriers.{WithBarriers};
ghost use Rattle.dsa_settings.specs.Legal.{IsLegal, HasGroupSize, BeginsUnfenced};
ghost use Rattle.dsa_settings.specs.Shapes.{HasGroupShapes};
ghost use Rattle.dsa_settings.specs.LegalFaults.{IsShapeFault, HasNoUnfenced, IsLastUnfenced, IsFencedWithin, IsFirstUnfencedWithin, IsFencedThroughout, IsFirstUnfenced, IsFirstLegalFault};
ghost use Rattle.dsa_settings.specs.Causes.{legal_number, legal_name, legal_indices};
ghost use Rattle.dsa_settings.specs.Plan.{piece_count};

use crate::keeping::first_unkept;
use crate::plan::{Group, Plan};
use crate::settings::Settings;
use crate::sweep::{Access, ROOM, is_seen_fenced};
use arrayvec::ArrayVec;
use dsa_descriptor::{Descriptor, Indices};
use dsa_ranges::{Piece, in_conflict};

/// The most pieces without a fence between them whose pairs are compared one by one.
const FEW_PIECES: usize = 16;

/// Why a plan is not legal. Groups and pieces are numbered from 0.
#[derive(Clone, Copy, PartialEq, Eq)]
pub enum LegalFault {
    /// The groups together have more or fewer pieces than there are.
    Count,
    /// The group has no piece, or more than `greatest_batch`.
    GroupSize(usize),
    /// The first piece of the group is fenced.
    FirstFence(usize),
    /// The two pieces conflict, or a barrier is between them, and they are in one group, and no piece after the first
    /// and up to the second is fenced.
    Unfenced(usize, usize),
}

impl LegalFault {
    /// The number of the refusal.
    pub fn number(self) -> u8
        ensures { result ≡ legal_number self }
    {
        match self {
            LegalFault::Count => 40,
            LegalFault::GroupSize(_) => 41,
            LegalFault::FirstFence(_) => 42,
            LegalFault::Unfenced(_, _) => 43,
        }
    }

    /// The name of the refusal.
    pub fn name(self) -> &'static str
        ensures value { result.now ≡ legal_name self }
        ensures short { length result.now ≤ 16 }
    {
        match self {
            LegalFault::Count => "Count",
            LegalFault::GroupSize(_) => "GroupSize",
            LegalFault::FirstFence(_) => "FirstFence",
            LegalFault::Unfenced(_, _) => "Unfenced",
        }
    }

    /// The indices that the refusal names.
    pub fn indices(self) -> Indices
        ensures { result ≡ legal_indices self }
    {
        match self {
            LegalFault::Count => Indices::Empty,
            LegalFault::GroupSize(group) | LegalFault::FirstFence(group) => {
                Indices::One(group as u64)
            }
            LegalFault::Unfenced(first, second) => Indices::Two(first as u64, second as u64),
        }
    }
}

/// Whether the groups have so many pieces together.
fn has_piece_count(groups: &[Group], pieces: usize) -> bool
    ensures { IsTrue result ↔ (piece_count groups.now ≡ pieces) }
{
    let mut left = pieces;
    for group in groups {
        if group.len() > left {
            return false;
        }
        left -= group.len();
    }
    left == 0
}

/// Whether the group has a size that it may have.
fn has_group_size(group: &Group, settings: &Settings) -> bool
    ensures { IsTrue result ↔ HasGroupSize settings.now.greatest_batch group.now }
{
    0 < group.len() && group.len() as u64 <= settings.greatest_batch()
}

/// Whether the first piece of the group is unfenced.
fn begins_unfenced(group: &Group) -> bool
    requires { 0 < length group.now }
    ensures { IsTrue result ↔ BeginsUnfenced group.now }
{
    !group.fences()[0]
}

/// The fault of the first group that is empty, too large or begins with a fence.
fn shape_fault(groups: &[Group], settings: &Settings) -> Option<LegalFault>
    ensures { MatchOption result (HasGroupShapes settings.now.greatest_batch groups.now)
        (IsShapeFault settings.now.greatest_batch groups.now) }
{
    for (number, group) in groups.iter().enumerate() {
        if !has_group_size(group, settings) {
            return Some(LegalFault::GroupSize(number));
        }
        if !begins_unfenced(group) {
            return Some(LegalFault::FirstFence(number));
        }
    }
    None
}

/// In a group that begins with piece `start`: the greatest piece before `at` that conflicts with it, if no piece after
/// it and up to `at` is fenced.
fn unfenced_before<P: Piece>(
    fences: &[bool],
    pieces: &[P],
    start: usize,
    at: usize,
) -> Option<usize>
    requires begun { start ≤ at }
    requires within { at < start + length fences.now }
    requires known { start + length fences.now ≤ length pieces.now }
    ensures { MatchOption result
        (HasNoUnfenced (P.conflict pieces.now) start fences.now at)
        (λ i. IsLastUnfenced (P.conflict pieces.now) start fences.now i at) }
{
    P::conflict_as_touched();
    let later = pieces[at].touched_spans();
    let mut i = at;
    while i > start {
        if fences[i - start] {
            return None;
        }
        i -= 1;
        if in_conflict(&pieces[i].touched_spans(), &later) {
            return Some(i);
        }
    }
    None
}

/// In a group that begins with piece `start`: the first pair of conflicting pieces with no fence between.
fn first_unfenced_within<P: Piece>(
    group: &Group,
    pieces: &[P],
    start: usize,
) -> Option<(usize, usize)>
    requires { start + length group.now ≤ length pieces.now }
    ensures { MatchOption result
        (IsFencedWithin (P.conflict pieces.now) start group.now)
        (λ p. IsFirstUnfencedWithin (P.conflict pieces.now) start group.now p.0 p.1) }
{
    for at in start..start + group.len() {
        if let Some(i) = unfenced_before(group.fences(), pieces, start, at) {
            return Some((i, at));
        }
    }
    None
}

/// Whether the group has more than `FEW_PIECES` pieces in a row with no fence between. This decides how the group is
/// judged, and never the answer.
fn is_long(group: &Group) -> bool {
    let mut row = 0;
    for fenced in group.fences() {
        if *fenced {
            row = 0;
        }
        if row >= FEW_PIECES {
            return true;
        }
        row += 1;
    }
    false
}

/// The first unfenced conflict; long groups are swept first, to skip the comparison of pairs.
fn first_unfenced_of<P: Piece>(
    group: &Group,
    pieces: &[P],
    start: usize,
    accesses: &mut ArrayVec<Access, ROOM>,
) -> Option<(usize, usize)>
    requires known { start + length group.now ≤ length pieces.now }
    requires few { length pieces.now ≤ most_pieces }
    ensures { MatchOption result
        (IsFencedWithin (P.conflict pieces.now) start group.now)
        (λ p. IsFirstUnfencedWithin (P.conflict pieces.now) start group.now p.0 p.1) }
{
    if is_long(group) && is_seen_fenced(group, pieces, start, accesses) {
        return None;
    }
    first_unfenced_within(group, pieces, start)
}

/// The first pair of conflicting pieces of one group with no fence between.
#[inline(never)]
fn first_unfenced<P: Piece>(groups: &[Group], pieces: &[P]) -> Option<(usize, usize)>
    requires all { piece_count groups.now ≡ length pieces.now }
    requires few { length pieces.now ≤ most_pieces }
    ensures { MatchOption result
        (IsFencedThroughout (P.conflict pieces.now) groups.now)
        (λ p. IsFirstUnfenced (P.conflict pieces.now) groups.now p.0 p.1) }
{
    let mut accesses = ArrayVec::new();
    let mut start = 0;
    for group in groups {
        if let Some(pair) = first_unfenced_of(group, pieces, start, &mut accesses) {
            return Some(pair);
        }
        start += group.len();
    }
    None
}

/// The first pair of pieces of one group with no fence between that conflict, or have a barrier between.
fn first_unfenced_with<P: Piece>(
    groups: &[Group],
    pieces: &[P],
    barriers: &[bool],
) -> Option<(usize, usize)>
    requires all { piece_count groups.now ≡ length pieces.now }
    requires few { length pieces.now ≤ most_pieces }
    ensures { MatchOption result
        (IsFencedThroughout (WithBarriers (P.conflict pieces.now) barriers.now) groups.now)
        (λ p. IsFirstUnfenced (WithBarriers (P.conflict pieces.now) barriers.now)
        groups.now p.0 p.1) }
{
    let found = first_unfenced(groups, pieces);
    let Some(piece) = first_unkept(groups, barriers) else {
        return found;
    };
    match found {
        Some((first, second)) if second < piece => Some((first, second)),
        _ => Some((piece - 1, piece)),
    }
}

/// Whether the plan is legal for the pieces: its groups have as many pieces as there are, each group from 1 to
/// `greatest_batch`, the first piece of each group is unfenced, and for any two conflicting pieces of a group the
/// second, or a piece between them, is fenced. Else its first fault: `Count`; then for the least group `GroupSize`
/// before `FirstFence`; then `Unfenced` with the least second piece, and for it the greatest first.
pub fn is_legal(plan: &Plan, pieces: &[Descriptor], settings: &Settings) -> Result<(), LegalFault>
    requires { length pieces.now ≤ most_pieces }
    ensures legal { IsOk result ↔ IsLegal (ConflictAt (map fields pieces.now))
        settings.now.greatest_batch (length pieces.now) plan.now }
    ensures fault { (f : LegalFault) → (result ≡ Err f) ↔
        IsFirstLegalFault (ConflictAt (map fields pieces.now)) settings.now.greatest_batch
        (length pieces.now) plan.now f }
    // what `cost` requires
    ensures shapes { IfOk result (λ _. (piece_count plan.now ≡ length pieces.now) ×
        HasGroupShapes settings.now.greatest_batch plan.now) }
{
    is_legal_with(plan, pieces, &[], settings)
}

/// Whether the plan is legal for pieces of any kind, as [`is_legal`] says, and keeps their barriers: each piece whose
/// mark is set is fenced, or its group begins with it. Else its first fault; a barrier that is not kept is `Unfenced`,
/// with the pieces just before and just after it.
pub fn is_legal_with<P: Piece>(
    plan: &Plan,
    pieces: &[P],
    barriers: &[bool],
    settings: &Settings,
) -> Result<(), LegalFault>
    requires { length pieces.now ≤ most_pieces }
    ensures legal { IsOk result ↔ IsLegal (WithBarriers (P.conflict pieces.now) barriers.now)
        settings.now.greatest_batch (length pieces.now) plan.now }
    ensures fault { (f : LegalFault) → (result ≡ Err f) ↔
        IsFirstLegalFault (WithBarriers (P.conflict pieces.now) barriers.now)
        settings.now.greatest_batch (length pieces.now) plan.now f }
    ensures shapes { IfOk result (λ _. (piece_count plan.now ≡ length pieces.now) ×
        HasGroupShapes settings.now.greatest_batch plan.now) }
{
    let groups = plan.groups();
    if !has_piece_count(groups, pieces.len()) {
        return Err(LegalFault::Count);
    }
    if let Some(fault) = shape_fault(groups, settings) {
        return Err(fault);
    }
    if let Some((i, j)) = first_unfenced_with(groups, pieces, barriers) {
        return Err(LegalFault::Unfenced(i, j));
    }
    Ok(())
}
