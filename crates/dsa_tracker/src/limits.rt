//! What a tracker can keep.

ghost use Rattle.std.specs.Prelude.{◌≡◌, ◌++◌, MatchOption};
ghost use Rattle.dsa_tracker.specs.Calls.{AreAddressable, CanKeep, CanKeepList, IsFirstPast, IsListFault, IsSpanFault};

use crate::fault::TrackFault;
use crate::owner::{Owner, first_other};
use crate::tracked::Tracked;
use dsa_descriptor::Span;

/// The first span that goes past 2^64.
fn first_past(spans: &[Span]) -> Option<usize>
    ensures { MatchOption result (AreAddressable spans.now) (IsFirstPast spans.now) }
{
    for (index, span) in spans.iter().enumerate() {
        if !span.is_addressable() {
            return Some(index);
        }
    }
    None
}

/// Why it is impossible to keep a submission that reads and writes these spans.
pub(crate) fn span_fault(room: u32, reads: &[Span], writes: &[Span]) -> Option<TrackFault>
    ensures { MatchOption result (CanKeep room reads.now writes.now)
        (IsSpanFault room reads.now writes.now) }
{
    let count = reads.len().max(writes.len());
    if count > room as usize {
        return Some(TrackFault::TooManySpans(count));
    }
    if let Some(span) = first_past(reads) {
        return Some(TrackFault::Wrap(span));
    }
    let span = first_past(writes)?;
    Some(TrackFault::Wrap(reads.len() + span))
}

/// Why it is impossible to keep a submission of these pieces with this staging area.
pub(crate) fn list_fault<P: Tracked>(
    room: u32,
    owner: Option<Owner>,
    pieces: &[P],
    staging: Span,
) -> Option<TrackFault>
    ensures { MatchOption result (CanKeepList P.owner room owner pieces.now staging)
        (IsListFault P.owner room owner pieces.now staging) }
{
    P::are_few(pieces);
    let count = 3 * pieces.len() + 1;
    if count > room as usize {
        return Some(TrackFault::TooManySpans(count));
    }
    if !staging.is_addressable() {
        return Some(TrackFault::Wrap(0));
    }
    let piece = first_other(owner, pieces)?;
    Some(TrackFault::OtherOwner(piece))
}
