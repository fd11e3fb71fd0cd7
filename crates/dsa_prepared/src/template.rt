//! Making the template of a plan and its pieces.

ghost use Rattle.std.specs.Prelude.{◌≡◌, ◌≤◌, ◌∷◌, [], take, drop, length, IfOk, MatchOption};
ghost use Rattle.dsa_descriptor.specs.Pieces.{most_pieces};
ghost use Rattle.dsa_settings.specs.Plan.{piece_count};
ghost use Rattle.dsa_operations.specs.Operands.{seed_of};
ghost use Rattle.dsa_prepared.specs.Preparing.{AreRegions};
ghost use Rattle.dsa_prepared.specs.Regions.{AllPiecesLie};
ghost use Rattle.dsa_prepared.specs.Entries.{destination_word, entry_of, first_word, own_word, second_word, seed_word, source_word, words_of};
ghost use Rattle.dsa_prepared.specs.Sound.{AreNonempty};
ghost use Rattle.dsa_prepared.specs.Templates.{asked, op_asked, op_ties, raised, template_of, tied, ties_of, units_of};

use crate::entry::Entry;
use crate::groups::{batch_count, portal_entries, staging_entries};
use crate::parts::Parts;
use crate::places::{place_in, word_at};
use crate::prepared::Prepared;
use crate::tie::Tie;
use crate::word::Word;
use dsa_descriptor::{Op, Span, write_fenced_entry};
use dsa_operations::{ChecksumOp, Operation, Seed};
use dsa_plan::Plan;
use std::alloc::{AllocError, Global};

/// Bytes 0 to 7.
fn head_of(bytes: &[u8; 64]) -> [u8; 8]
    ensures { result ≡ take 8 bytes.now }
{
    let (eights, _) = bytes.as_chunks::<8>();
    eights[0]
}

/// Bytes 32 to 39.
fn middle_of(bytes: &[u8; 64]) -> [u8; 8]
    ensures { result ≡ take 8 (drop 32 bytes.now) }
{
    let (eights, _) = bytes.as_chunks::<8>();
    eights[4]
}

/// The words of an entry.
#[derive(Clone, Copy)]
struct Words {
    completion: Word,
    first: Word,
    second: Word,
    own: Word,
}

/// The words of an operation.
fn words_of(regions: &[Span], operation: &Operation) -> Words
    requires { AreRegions regions.now }
    ensures { result ≡ words_of regions.now operation.now }
{
    match operation {
        Operation::Descriptor(descriptor) => Words {
            completion: word_at(regions, descriptor.record_at),
            first: first_word(regions, &descriptor.op),
            second: second_word(regions, &descriptor.op),
            own: own_word(regions, &descriptor.op),
        },
        Operation::Checksum(checksum) => Words {
            completion: word_at(regions, checksum.record_at),
            first: source_word(regions, &checksum.op),
            second: destination_word(regions, &checksum.op),
            own: seed_word(regions, &checksum.op),
        },
    }
}

/// The entry of a piece, fenced or not.
pub(crate) fn entry_of(regions: &[Span], fence: bool, piece: &Operation) -> Entry
    requires { AreRegions regions.now }
    ensures { result ≡ entry_of regions.now fence piece.now }
{
    let bytes = write_fenced_entry(piece, fence);
    let head = head_of(&bytes);
    let middle = middle_of(&bytes);
    let words = words_of(regions, piece);
    Entry {
        head,
        completion: words.completion,
        first: words.first,
        second: words.second,
        middle,
        own: words.own,
    }
}

/// Bytes 16 to 23 of the descriptor.
fn first_word(regions: &[Span], op: &Op) -> Word
    requires { AreRegions regions.now }
    ensures { result ≡ first_word regions.now op.now }
{
    match *op {
        Op::Move { src, .. }
        | Op::Compare { src, .. }
        | Op::ComparePattern { src, .. }
        | Op::Dualcast { src, .. } => word_at(regions, src),
        Op::Fill { pattern, .. } => Word::Fixed(pattern),
        Op::ApplyDelta { delta, .. } => word_at(regions, delta),
    }
}

/// Bytes 24 to 31 of the descriptor.
fn second_word(regions: &[Span], op: &Op) -> Word
    requires { AreRegions regions.now }
    ensures { result ≡ second_word regions.now op.now }
{
    match *op {
        Op::Move { dst, .. }
        | Op::Fill { dst, .. }
        | Op::ApplyDelta { dst, .. }
        | Op::Dualcast { dst, .. } => word_at(regions, dst),
        Op::Compare { src2, .. } => word_at(regions, src2),
        Op::ComparePattern { pattern, .. } => Word::Fixed(pattern),
    }
}

/// Bytes 40 to 47 of the descriptor.
fn own_word(regions: &[Span], op: &Op) -> Word
    requires { AreRegions regions.now }
    ensures { result ≡ own_word regions.now op.now }
{
    match *op {
        Op::Move { .. } | Op::Fill { .. } => Word::Fixed(0),
        Op::Compare { expected, .. } | Op::ComparePattern { expected, .. } => {
            Word::Fixed(u64::from(expected))
        }
        Op::ApplyDelta { record_size, .. } => Word::Fixed(u64::from(record_size)),
        Op::Dualcast { dst2, .. } => word_at(regions, dst2),
    }
}

/// Bytes 16 to 23 of the checksum.
fn source_word(regions: &[Span], op: &ChecksumOp) -> Word
    requires { AreRegions regions.now }
    ensures { result ≡ source_word regions.now op.now }
{
    match *op {
        ChecksumOp::Crc { src, .. } | ChecksumOp::CopyCrc { src, .. } => word_at(regions, src),
    }
}

/// Bytes 24 to 31 of the checksum.
fn destination_word(regions: &[Span], op: &ChecksumOp) -> Word
    requires { AreRegions regions.now }
    ensures { result ≡ destination_word regions.now op.now }
{
    match *op {
        ChecksumOp::Crc { .. } => Word::Fixed(0),
        ChecksumOp::CopyCrc { dst, .. } => word_at(regions, dst),
    }
}

/// The seed of the checksum: its value, or the address from which it is read.
fn seed_word(regions: &[Span], op: &ChecksumOp) -> Word
    requires { AreRegions regions.now }
    ensures { result ≡ seed_word regions.now (seed_of op.now) }
{
    match *op {
        ChecksumOp::Crc { seed, .. } | ChecksumOp::CopyCrc { seed, .. } => match seed {
            Seed::Given(value) => Word::Fixed(u64::from(value)),
            Seed::At(address) => word_at(regions, address),
        },
    }
}

/// Raises the region's unit to at least this one.
fn raise(units: &mut [u64], region: usize, unit: u64)
    ensures { units.new ≡ raised units.old region unit }
{
    if region < units.len() && units[region] < unit {
        units[region] = unit;
    }
}

/// Raises the unit of a delta's destination.
fn ask_delta(units: &mut [u64], regions: &[Span], op: &Op)
    requires { AreRegions regions.now }
    ensures { units.new ≡ op_asked regions.now units.old op.now }
{
    match *op {
        Op::ApplyDelta { dst, .. } => raise(units, place_in(regions, dst).0, 8),
        Op::Move { .. }
        | Op::Fill { .. }
        | Op::Compare { .. }
        | Op::ComparePattern { .. }
        | Op::Dualcast { .. } => (),
    }
}

/// Raises the units to what the operation asks of its regions.
fn ask(units: &mut [u64], regions: &[Span], operation: &Operation)
    requires { AreRegions regions.now }
    ensures { units.new ≡ asked regions.now units.old operation.now }
{
    match operation {
        Operation::Descriptor(descriptor) => {
            raise(units, place_in(regions, descriptor.record_at).0, 32);
            ask_delta(units, regions, &descriptor.op);
        }
        Operation::Checksum(checksum) => {
            raise(units, place_in(regions, checksum.record_at).0, 32);
        }
    }
}

/// The unit of each region.
fn units_of(
    alloc: Global,
    regions: &[Span],
    operations: &[Operation],
) -> Result<Vec<u64>, AllocError>
    requires { AreRegions regions.now }
    ensures { IfOk result (λ units. units.items ≡ units_of regions.now operations.now) }
{
    let mut units = vec![in alloc; 1; regions.len()]?;
    for operation in operations {
        ask(&mut units, regions, operation);
    }
    Ok(units)
}

/// The tie of a dualcast's destinations.
fn tie_of(regions: &[Span], op: &Op) -> Option<Tie>
    requires { AreRegions regions.now }
    ensures { MatchOption result (op_ties regions.now op.now ≡ [])
        (λ tie. op_ties regions.now op.now ≡ tie ∷ []) }
{
    match *op {
        Op::Dualcast { dst, dst2, .. } => {
            let (region, offset) = place_in(regions, dst);
            let (other, other_offset) = place_in(regions, dst2);
            Some(Tie {
                region,
                offset,
                other,
                other_offset,
            })
        }
        Op::Move { .. }
        | Op::Fill { .. }
        | Op::Compare { .. }
        | Op::ComparePattern { .. }
        | Op::ApplyDelta { .. } => None,
    }
}

/// The tie of an operation.
fn tied(regions: &[Span], operation: &Operation) -> Option<Tie>
    requires { AreRegions regions.now }
    ensures { MatchOption result (tied regions.now operation.now ≡ [])
        (λ tie. tied regions.now operation.now ≡ tie ∷ []) }
{
    match operation {
        Operation::Descriptor(descriptor) => tie_of(regions, &descriptor.op),
        Operation::Checksum(_) => None,
    }
}

/// The addresses that have to agree in their low 12 bits.
fn ties_of(
    alloc: Global,
    regions: &[Span],
    operations: &[Operation],
) -> Result<Vec<Tie>, AllocError>
    requires { AreRegions regions.now }
    ensures { IfOk result (λ ties. ties.items ≡ ties_of regions.now operations.now) }
{
    let mut ties = Vec::new(alloc);
    for operation in operations {
        match tied(regions, operation) {
            Some(tie) => ties.push(tie)?,
            None => (),
        }
    }
    Ok(ties)
}

/// The template of operations, their pieces and the plan of these.
pub(crate) fn template_of(
    alloc: Global,
    regions: &[Span],
    operations: &[Operation],
    plan: &Plan,
    pieces: &[Operation],
) -> Result<Prepared, AllocError>
    requires rising { AreRegions regions.now }
    requires operations_lie { AllPiecesLie regions.now operations.now }
    requires pieces_lie { AllPiecesLie regions.now pieces.now }
    requires covers { piece_count plan.now ≡ length pieces.now }
    requires few { length pieces.now ≤ most_pieces }
    requires nonempty { AreNonempty plan.now }
    ensures { IfOk result (λ t.
        t ≡ template_of regions.now operations.now plan.now pieces.now) }
{
    let groups = plan.groups();
    let parts = Parts {
        regions: regions.to_vec(alloc)?,
        units: units_of(alloc, regions, operations)?,
        ties: ties_of(alloc, regions, operations)?,
        portal: portal_entries(alloc, regions, groups, pieces)?,
        staging: staging_entries(alloc, regions, groups, pieces)?,
        batches: batch_count(groups),
        pieces: pieces.len(),
    };
    Prepared::of(alloc, &parts)
}
