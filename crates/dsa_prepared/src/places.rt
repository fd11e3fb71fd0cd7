//! Regions, and where addresses lie in them.

ghost use Rattle.std.specs.Prelude.{◌≡◌, ℕ, ◌<◌, ◌≤◌, ◌↔◌, All, length, IsTrue, MatchOption};
ghost use Rattle.std.specs.List.{AllByRecursion};
ghost use Rattle.dsa_descriptor.specs.Descriptors.{fields};
ghost use Rattle.dsa_splitter.specs.Operations.{IsSplittable};
ghost use Rattle.dsa_splitter.specs.Pieces.{row_span};
ghost use Rattle.dsa_operations.specs.declared.operation.Operation.TheVariants as operation;
ghost use Rattle.dsa_prepared.specs.Regions.{IsOneOrSplittable, LiesIn, LiesInOne, LiesWhole, OperationLies, PieceLies};
ghost use Rattle.dsa_prepared.specs.Entries.{place_in, word_at};
ghost use Rattle.dsa_prepared.specs.Preparing.{AreRegions, IsFirstOutside, IsRegionFault, end_of, region_at};

use crate::fault::PrepareFault;
use crate::word::Word;
use dsa_descriptor::{Descriptor, RECORD_LEN, Span, record_span};
use dsa_operations::{Checksum, Operation};

/// How many regions end at the address or before it. Of all regions, only the next can have the address.
fn ended_at(regions: &[Span], address: u64) -> usize
    requires { AreRegions regions.now }
    ensures bound { result ≤ length regions.now }
    ensures ended { (j : ℕ) → j < result → end_of (region_at regions.now j) ≤ address }
    ensures ahead { (j : ℕ) → result ≤ j → j < length regions.now →
        address < end_of (region_at regions.now j) }
{
    regions.partition_point(|region| region.end() <= u128::from(address))
}

/// The number of the region that has the address, and its offset there; else how many regions there are, and the
/// address.
pub(crate) fn place_in(regions: &[Span], address: u64) -> (usize, u64)
    requires { AreRegions regions.now }
    ensures { result ≡ place_in regions.now address }
{
    let i = ended_at(regions, address);
    if i == regions.len() {
        return (i, address);
    }
    let region = regions[i];
    if address < region.first {
        return (regions.len(), address);
    }
    (i, address - region.first)
}

/// The word for the address.
pub(crate) fn word_at(regions: &[Span], address: u64) -> Word
    requires { AreRegions regions.now }
    ensures { result ≡ word_at regions.now address }
{
    let (region, offset) = place_in(regions, address);
    Word::InRegion(region, offset)
}

/// Whether the span begins in the region, and does not go past its end.
fn lies_in(region: Span, span: Span) -> bool
    ensures { IsTrue result ↔ LiesIn region span }
{
    if span.first < region.first {
        return false;
    }
    let offset = span.first - region.first;
    offset < region.len && span.len <= region.len - offset
}

/// Whether the span lies in one of the regions.
fn lies_in_one(regions: &[Span], span: Span) -> bool
    requires { AreRegions regions.now }
    ensures { IsTrue result ↔ LiesInOne regions.now span }
{
    let i = ended_at(regions, span.first);
    if i == regions.len() {
        return false;
    }
    lies_in(regions[i], span)
}

/// Whether each of the spans does.
fn lie_in_one(regions: &[Span], spans: &[Span]) -> bool
    requires { AreRegions regions.now }
    ensures { IsTrue result ↔ AllByRecursion (LiesInOne regions.now) spans.now }
{
    for span in spans {
        if !lies_in_one(regions, *span) {
            return false;
        }
    }
    true
}

/// The row of the records of an operation's pieces.
#[tactic(auto, unfolding(dsa_image::specs::Lines::quotient_up))]
fn row_of(d: &Descriptor, greatest: u64) -> Span
    requires { 8 ≤ greatest }
    ensures { result ≡ row_span (fields d.now) greatest }
{
    Span {
        first: d.record_at,
        len: RECORD_LEN * u64::from(d.size).div_ceil(greatest),
    }
}

/// Whether each range of the descriptor, and the row of its records, lies in one of the regions.
fn lies_whole(d: &Descriptor, regions: &[Span], greatest: u64) -> bool
    requires rising { AreRegions regions.now }
    requires least { 8 ≤ greatest }
    requires splittable { IsSplittable d.now.op d.now.size greatest }
    ensures { IsTrue result ↔ LiesWhole regions.now greatest (fields d.now) }
{
    if !lie_in_one(regions, &d.op.sources(d.size)) {
        return false;
    }
    if !lie_in_one(regions, &d.op.targets(d.size)) {
        return false;
    }
    lies_in_one(regions, row_of(d, greatest))
}

/// Whether each range of the checksum, and its record, lies in one of the regions.
fn checksum_lies(c: &Checksum, regions: &[Span]) -> bool
    requires { AreRegions regions.now }
    ensures { IsTrue result ↔ PieceLies regions.now (operation.Checksum c.now) }
{
    if !lie_in_one(regions, &c.op.sources(c.size)) {
        return false;
    }
    if !lies_in_one(regions, record_span(c.record_at)) {
        return false;
    }
    lie_in_one(regions, &c.op.targets(c.size))
}

/// Whether each range of the operation, and the row of its records, lies in one of the regions.
fn operation_lies(operation: &Operation, regions: &[Span], greatest: u64) -> bool
    requires rising { AreRegions regions.now }
    requires least { 8 ≤ greatest }
    requires splittable { IsOneOrSplittable greatest operation.now }
    ensures { IsTrue result ↔ OperationLies regions.now greatest operation.now }
{
    match operation {
        Operation::Descriptor(descriptor) => lies_whole(descriptor, regions, greatest),
        Operation::Checksum(checksum) => checksum_lies(checksum, regions),
    }
}

/// The first cause why the regions are refused.
pub(crate) fn region_fault(regions: &[Span]) -> Option<PrepareFault>
    ensures { MatchOption result (AreRegions regions.now) (IsRegionFault regions.now) }
{
    let mut end = 0;
    for i in 0..regions.len() {
        if !regions[i].is_addressable() {
            return Some(PrepareFault::RegionWrap(i));
        }
        if u128::from(regions[i].first) < end {
            return Some(PrepareFault::RegionOrder(i));
        }
        end = regions[i].end();
    }
    None
}

/// The first operation that does not lie whole in regions.
pub(crate) fn first_outside(
    operations: &[Operation],
    regions: &[Span],
    greatest: u64,
) -> Option<usize>
    requires rising { AreRegions regions.now }
    requires least { 8 ≤ greatest }
    requires splittable { All (IsOneOrSplittable greatest) operations.now }
    ensures { MatchOption result
        (AllByRecursion (OperationLies regions.now greatest) operations.now)
        (IsFirstOutside regions.now greatest operations.now) }
{
    for i in 0..operations.len() {
        if !operation_lies(&operations[i], regions, greatest) {
            return Some(i);
        }
    }
    None
}
