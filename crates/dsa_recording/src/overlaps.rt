//! How far a conflict goes.

ghost use Rattle.std.specs.Prelude.{◌≡◌};
ghost use Rattle.dsa_recording.specs.Overlaps.{has_address, bytes_from, earlier_side, later_side, overlap};

use dsa_audit::Member;
use dsa_descriptor::Span;
use dsa_ranges::{Hazard, HazardKind};

/// Whether the span has the address.
fn has_address(address: u64, span: Span) -> bool
    ensures { result ≡ has_address address span }
{
    span.first <= address && address - span.first < span.len
}

/// How many bytes the first span that has the address has from there on.
fn bytes_from(address: u64, spans: &[Span]) -> u64
    ensures { result ≡ bytes_from address spans.now }
{
    for span in spans {
        if has_address(address, *span) {
            return span.len - (address - span.first);
        }
    }
    0
}

/// What the earlier member of a hazard of this kind writes or reads.
fn earlier_side(kind: HazardKind, member: &Member) -> &[Span]
    ensures { result.now ≡ earlier_side kind member.now }
{
    match (member, kind) {
        (Member::Unknown(_), _) => &[],
        (Member::Known(touched), HazardKind::WriteAfterRead) => touched.reads.as_slice(),
        (Member::Known(touched), HazardKind::ReadAfterWrite | HazardKind::WriteAfterWrite) =>
            touched.writes.as_slice(),
    }
}

/// What the later one reads or writes.
fn later_side(kind: HazardKind, member: &Member) -> &[Span]
    ensures { result.now ≡ later_side kind member.now }
{
    match (member, kind) {
        (Member::Unknown(_), _) => &[],
        (Member::Known(touched), HazardKind::ReadAfterWrite) => touched.reads.as_slice(),
        (Member::Known(touched), HazardKind::WriteAfterRead | HazardKind::WriteAfterWrite) =>
            touched.writes.as_slice(),
    }
}

/// How many bytes there are from the address of the hazard on of the first span of each member that has it.
pub fn overlap(hazard: Hazard, earlier: &Member, later: &Member) -> u64
    ensures { result ≡ overlap hazard.kind hazard.address earlier.now later.now }
{
    let first = bytes_from(hazard.address, earlier_side(hazard.kind, earlier));
    let second = bytes_from(hazard.address, later_side(hazard.kind, later));
    first.min(second)
}
