//! Where two descriptors conflict (a read after write, write after read or write after write hazard).

ghost use Rattle.std.specs.Prelude.{MatchOption, ℕ, ◌≡◌};
ghost use Rattle.dsa_descriptor.specs.Spans.{InSome, InSpan};
ghost use Rattle.dsa_ranges.specs.Ranges.{SpansConflict};
ghost use Rattle.dsa_ranges.specs.Hazards.{IsHazard, AreApart, AreApartFrom};

use crate::span::{Touched, meets};
use dsa_descriptor::Span;

/// Why the later of two descriptors has to wait for the earlier.
#[derive(Clone, Copy, PartialEq, Eq)]
pub enum HazardKind {
    /// The later reads what the earlier writes.
    ReadAfterWrite,
    /// The later writes what the earlier reads.
    WriteAfterRead,
    /// Both write.
    WriteAfterWrite,
}

/// An address at which two descriptors conflict, and why.
#[derive(Clone, Copy, PartialEq, Eq)]
pub struct Hazard {
    /// The address.
    pub address: u64,
    /// Why the later waits.
    pub kind: HazardKind,
}

/// The first address that lies in both spans.
fn shared(first: Span, second: Span) -> Option<u64>
    ensures { MatchOption result ((a : ℕ) →
        InSpan first a → InSpan second a → ⊥) (λ a. InSpan first a × InSpan second a) }
{
    if meets(first, second) {
        Some(first.first.max(second.first))
    } else {
        None
    }
}

/// An address that lies in the span and in one of the spans.
fn shared_with(span: Span, spans: &[Span]) -> Option<u64>
    ensures { MatchOption result (AreApartFrom span spans.now) (λ a. InSpan span a ×
        InSome spans.now a) }
{
    for other in spans {
        if let Some(address) = shared(span, *other) {
            return Some(address);
        }
    }
    None
}

/// An address that lies in one of each.
fn shared_by(first: &[Span], second: &[Span]) -> Option<u64>
    ensures { MatchOption result (AreApart first.now second.now) (λ a. InSome first.now a ×
        InSome second.now a) }
{
    for span in first {
        if let Some(address) = shared_with(*span, second) {
            return Some(address);
        }
    }
    None
}

/// Where the two conflict, where they do: an address that one writes and the other reads or writes.
/// Of several kinds it is a read after write, else a write after write.
pub fn find_hazard(earlier: &Touched, later: &Touched) -> Option<Hazard>
    ensures { MatchOption result (¬ SpansConflict earlier.now.reads.items earlier.now.writes.items
        later.now.reads.items later.now.writes.items) (λ m. IsHazard earlier.now.reads.items
        earlier.now.writes.items later.now.reads.items later.now.writes.items m.address m.kind) }
{
    if let Some(address) = shared_by(&earlier.writes, &later.reads) {
        return Some(Hazard {
            address,
            kind: HazardKind::ReadAfterWrite,
        });
    }
    if let Some(address) = shared_by(&earlier.writes, &later.writes) {
        return Some(Hazard {
            address,
            kind: HazardKind::WriteAfterWrite,
        });
    }
    if let Some(address) = shared_by(&earlier.reads, &later.writes) {
        return Some(Hazard {
            address,
            kind: HazardKind::WriteAfterRead,
        });
    }
    None
}
