//! Whether a plan keeps the barriers of its list.

ghost use Rattle.std.specs.Prelude.{◌+◌, ◌-◌, ◌≤◌, ◌↔◌, length, IsTrue, MatchOption};
ghost use Rattle.dsa_descriptor.specs.Pieces.{most_pieces};
ghost use Rattle.dsa_settings.specs.Barriers.{IsBarrier, IsBarrierPair};
ghost use Rattle.dsa_settings.specs.LegalFaults.{IsFencedWithin, IsFirstUnfencedWithin, IsFencedThroughout, IsFirstUnfenced};
ghost use Rattle.dsa_settings.specs.Plan.{piece_count};

use crate::plan::Group;

/// Whether a piece begins after a barrier.
pub fn is_barrier(barriers: &[bool], piece: usize) -> bool
    ensures { IsTrue result ↔ IsBarrier barriers.now piece }
{
    piece < barriers.len() && barriers[piece]
}

/// In a group that begins with piece `start`: the first piece that begins after a barrier, but is neither the first of
/// the group nor fenced.
fn first_unkept_within(group: &Group, barriers: &[bool], start: usize) -> Option<usize>
    requires { start + length group.now ≤ most_pieces }
    ensures { MatchOption result
        (IsFencedWithin (IsBarrierPair barriers.now) start group.now)
        (λ k. IsFirstUnfencedWithin (IsBarrierPair barriers.now) start group.now (k - 1) k) }
{
    for at in start + 1..start + group.len() {
        if !group.fences()[at - start] && is_barrier(barriers, at) {
            return Some(at);
        }
    }
    None
}

/// The first piece that begins after a barrier which the plan does not keep. A list without marks is skipped.
pub(crate) fn first_unkept(groups: &[Group], barriers: &[bool]) -> Option<usize>
    requires { piece_count groups.now ≤ most_pieces }
    ensures { MatchOption result
        (IsFencedThroughout (IsBarrierPair barriers.now) groups.now)
        (λ k. IsFirstUnfenced (IsBarrierPair barriers.now) groups.now (k - 1) k) }
{
    if barriers.is_empty() {
        return None;
    }
    let mut start = 0;
    for group in groups {
        if let Some(piece) = first_unkept_within(group, barriers, start) {
            return Some(piece);
        }
        start += group.len();
    }
    None
}
