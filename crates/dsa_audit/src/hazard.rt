//! Why a later member of a batch has to wait for an earlier one.

ghost use Rattle.std.specs.Prelude.{◌≡◌, ◌<◌, length, slice_get, MatchOption};
ghost use Rattle.dsa_audit.specs.Members.{AreHazardsBetween, KnownConflict, IsHazardBetween, reads_at, writes_at};

use crate::member::Member;
use dsa_descriptor::Span;
use dsa_ranges::{Hazard, find_hazard, some_meet};

/// Where two members conflict and why, by what is known of both.
pub fn hazard_between(members: &[Member], earlier: usize, later: usize) -> Option<Hazard>
    requires ordered { earlier < later }
    requires within { later < length members.now }
    ensures { MatchOption result (¬ KnownConflict members.now earlier later)
        (λ h. IsHazardBetween members.now earlier later h) }
{
    match (&members[earlier], &members[later]) {
        (Member::Known(first), Member::Known(second)) => find_hazard(first, second),
        (Member::Known(_), Member::Unknown(_))
        | (Member::Unknown(_), Member::Known(_))
        | (Member::Unknown(_), Member::Unknown(_)) => None,
    }
}

/// Which hazards there are between two members.
#[derive(Clone, Copy)]
pub struct Hazards {
    /// The later reads what the earlier writes.
    pub read_after_write: bool,
    /// Both write.
    pub write_after_write: bool,
    /// The later writes what the earlier reads.
    pub write_after_read: bool,
}

/// What the member of this number is known to read, if there is one.
fn reads_at(members: &[Member], k: usize) -> &[Span]
    ensures { result.now ≡ reads_at (slice_get members.now k) }
{
    match members.get(k) {
        Some(Member::Known(touched)) => touched.reads.as_slice(),
        Some(Member::Unknown(_)) | None => &[],
    }
}

/// What it is known to write.
fn writes_at(members: &[Member], k: usize) -> &[Span]
    ensures { result.now ≡ writes_at (slice_get members.now k) }
{
    match members.get(k) {
        Some(Member::Known(touched)) => touched.writes.as_slice(),
        Some(Member::Unknown(_)) | None => &[],
    }
}

/// All hazards between two members, by what is known of both.
pub fn hazards_between(members: &[Member], earlier: usize, later: usize) -> Hazards
    ensures { AreHazardsBetween members.now earlier later result }
{
    let (read, written) = (reads_at(members, earlier), writes_at(members, earlier));
    let (reads, writes) = (reads_at(members, later), writes_at(members, later));
    Hazards {
        read_after_write: some_meet(written, reads),
        write_after_write: some_meet(written, writes),
        write_after_read: some_meet(read, writes),
    }
}
