//! The groups of a plan as submissions: where their parts are, and what is against them.

ghost use Rattle.std.specs.Prelude.{◌≡◌, ◌≢◌, ◌+◌, ◌*◌, ◌^◌, ◌<◌, ◌≤◌, MatchOption, MatchResult, length, slice_range};
ghost use Rattle.dsa_emission.specs.Emission.{place_after, place_of};
ghost use Rattle.dsa_settings.specs.Plan.{piece_count};
ghost use Rattle.dsa_tracker.specs.Before.{place_by};
ghost use Rattle.dsa_tracker.specs.Calls.{AreAddressable};
ghost use Rattle.dsa_tracker.specs.Groups.{CanTakeGroups, HaveFewSpans, IsFirstLarge, IsGroupsFault, group_staging};

use crate::fault::TrackFault;
use crate::owner::{Owner, first_other};
use crate::tracked::Tracked;
use arrayvec::ArrayVec;
use dsa_descriptor::Span;
use dsa_settings::{Group, Plan};

/// What comes before a group of a plan.
#[derive(Clone, Copy, Default)]
pub(crate) struct Before {
    /// The number of the first piece of the group.
    pub start: usize,
    /// How many batches come before it.
    pub batches: usize,
    /// How many pieces are in these batches.
    pub batched: usize,
}

impl Before {
    /// What comes before the group after this one.
    pub(crate) fn after(self, group: &Group) -> Before
        requires few { self.start + length group.now < 2 ^ 63 }
        requires batches { self.batches ≤ self.start }
        requires batched { self.batched ≤ self.start }
        ensures { place_by result ≡ place_after (place_by self) group.now }
    {
        let start = self.start + group.len();
        if group.len() > 1 {
            Before {
                start,
                batches: self.batches + 1,
                batched: self.batched + group.len(),
            }
        } else {
            Before { start, ..self }
        }
    }
}

/// What comes before the end of the groups, if they have this many pieces.
fn end_of(groups: &[Group], pieces: usize) -> Option<Before>
    requires { pieces < 2 ^ 60 }
    ensures { MatchOption result (piece_count groups.now ≢ pieces)
        (λ end. (piece_count groups.now ≡ pieces) ×
        (place_by end ≡ place_of groups.now (length groups.now))) }
{
    let mut before = Before::default();
    for group in groups {
        if group.len() > pieces - before.start {
            return None;
        }
        before = before.after(group);
    }
    if before.start != pieces {
        return None;
    }
    Some(before)
}

/// How many spans the first group that may have more than this may have.
fn first_large(room: u32, groups: &[Group]) -> Option<usize>
    requires { piece_count groups.now < 2 ^ 60 }
    ensures { MatchOption result (HaveFewSpans room groups.now) (IsFirstLarge room groups.now) }
{
    for group in groups {
        let count = 3 * group.len() + 2;
        if count > room as usize {
            return Some(count);
        }
    }
    None
}

/// What comes before the end of the plan's groups, if they can be taken while so many slots are
/// free.
pub(crate) fn check_groups<P: Tracked>(
    room: u32,
    free: usize,
    owner: Option<Owner>,
    pieces: &[P],
    plan: &Plan,
    staging: u64,
) -> Result<Before, TrackFault>
    ensures { MatchResult result
        (λ end. CanTakeGroups P.owner room free owner pieces.now plan.now staging ×
        (place_by end ≡ place_of plan.now (length plan.now)))
        (IsGroupsFault P.owner room free owner pieces.now plan.now staging) }
{
    P::are_few(pieces);
    let groups = plan.groups();
    let Some(end) = end_of(groups, pieces.len()) else {
        return Err(TrackFault::OtherPlan);
    };
    if groups.len() > free {
        return Err(TrackFault::FewSlots(groups.len()));
    }
    if let Some(count) = first_large(room, groups) {
        return Err(TrackFault::TooManySpans(count));
    }
    let area = Span {
        first: staging,
        len: 64 * end.batched as u64 + 32 * end.batches as u64,
    };
    if !area.is_addressable() {
        return Err(TrackFault::Wrap(0));
    }
    if let Some(piece) = first_other(owner, pieces) {
        return Err(TrackFault::OtherOwner(piece));
    }
    Ok(end)
}

/// The group's pieces.
pub(crate) fn own_pieces<'a, P: Tracked>(pieces: &'a [P], before: Before, group: &Group) -> &'a [P]
    requires { before.start + length group.now ≤ length pieces.now }
    ensures { result.now ≡
        slice_range pieces.now before.start (before.start + length group.now) }
{
    &pieces[before.start..before.start + group.len()]
}

/// The group's part of a staging area at this address, if `total` pieces are in batches.
pub(crate) fn staged_spans(
    staging: u64,
    total: usize,
    before: Before,
    group: &Group,
) -> ArrayVec<Span, 2>
    requires within { 1 < length group.now → before.batched + length group.now ≤ total }
    requires addressable { 1 < length group.now →
        staging + 64 * total + 32 * (before.batches + 1) ≤ 2 ^ 64 }
    ensures value { result.items ≡ group_staging staging total (place_by before) group.now }
    ensures addressable { AreAddressable result.items }
{
    let mut spans = ArrayVec::new();
    if group.len() > 1 {
        spans.push(Span {
            first: staging + 64 * before.batched as u64,
            len: 64 * group.len() as u64,
        });
        spans.push(Span {
            first: staging + 64 * total as u64 + 32 * before.batches as u64,
            len: 32,
        });
    }
    spans
}
