//! Reading the bytes of a checksum.

ghost use Rattle.std.specs.Prelude.{◌≡◌, ◌↔◌, IsTrue, MatchOption};
ghost use Rattle.dsa_descriptor.specs.declared.fault.FieldFault.{FieldFault};
ghost use Rattle.dsa_descriptor.specs.Places.{flags_at};
ghost use Rattle.dsa_operations.specs.Faults.{IsFirstBroken, IsReservedZero, Rule};
ghost use Rattle.dsa_operations.specs.Places.{checksum_at, seed_at};
ghost use Rattle.dsa_operations.specs.Profile.{AreListedFlags};

use crate::checksum_op::{ChecksumOp, Seed};
use crate::flags::{REFUSED, REQUIRED, SEED_IN_MEMORY};
use crate::places::u16_at;
use bitflags::Flags;
use dsa_descriptor::{FieldFault, FlagWord, record_span, u32_at, u64_at};

/// The faults that a checksum can have, in the order in which a reader looks for them.
const IN_ORDER: [FieldFault; 7] = [
    FieldFault::FlagBits,
    FieldFault::Reserved,
    FieldFault::SizeZero,
    FieldFault::Wrap,
    FieldFault::RecordAlign,
    FieldFault::Overlap,
    FieldFault::RecordMeetsData,
];

/// The flags in the bytes.
fn flags_at(bytes: &[u8; 64]) -> FlagWord
    ensures { result.0 ≡ flags_at bytes.now }
{
    FlagWord(u32_at(bytes, 4) % (1 << 24))
}

/// The seed that the bytes name.
fn seed_at(bytes: &[u8; 64]) -> Seed
    ensures { result ≡ seed_at bytes.now }
{
    if flags_at(bytes).contains(SEED_IN_MEMORY) {
        Seed::At(u64_at(bytes, 48))
    } else {
        Seed::Given(u32_at(bytes, 40))
    }
}

/// The checksum's operation that the bytes name, if they name one.
#[tactic(auto, unfolding(crate::specs::Places::checksum_at))]
pub fn checksum_at(bytes: &[u8; 64]) -> Option<ChecksumOp>
    ensures { result ≡ checksum_at bytes.now }
{
    let (src, dst) = (u64_at(bytes, 16), u64_at(bytes, 24));
    let seed = seed_at(bytes);
    match u32_at(bytes, 4) >> 24 {
        0x10 => Some(ChecksumOp::Crc { src, seed }),
        0x11 => Some(ChecksumOp::CopyCrc { src, dst, seed }),
        0..=0x0f | 0x12..=u32::MAX => None,
    }
}

/// Whether a listed checksum may have these flags.
fn are_listed_flags(flags: FlagWord) -> bool
    ensures { IsTrue result ↔ AreListedFlags flags.0 }
{
    flags.contains(REQUIRED) && !flags.intersects(REFUSED)
}

/// Whether all reserved bits and bytes are zero, and the places of fields that the operation does not have.
fn is_reserved_zero(bytes: &[u8; 64], op: &ChecksumOp) -> bool
    ensures { IsTrue result ↔ IsReservedZero bytes.now op.now }
{
    (u32_at(bytes, 0) >> 20) % (1 << 11) == 0
        && u64_at(bytes, 24) == op.destination_field()
        && u16_at(bytes, 38) == 0
        && u32_at(bytes, 40) == op.given_field()
        && u32_at(bytes, 44) == 0
        && u64_at(bytes, 48) == op.address_field()
        && u64_at(bytes, 56) == 0
}

/// Whether bytes that name this operation keep the rule whose breach the fault is.
fn keeps(bytes: &[u8; 64], op: &ChecksumOp, fault: FieldFault) -> bool
    ensures { IsTrue result ↔ Rule bytes.now op.now fault }
{
    let size = u32_at(bytes, 32);
    let record_at = u64_at(bytes, 8);
    match fault {
        FieldFault::Opcode => true,
        FieldFault::FlagBits => are_listed_flags(flags_at(bytes)),
        FieldFault::Reserved => is_reserved_zero(bytes, op),
        FieldFault::SizeZero => size != 0,
        FieldFault::Wrap => record_span(record_at).is_addressable() && op.is_addressable(size),
        FieldFault::RecordAlign => record_at % 32 == 0,
        FieldFault::DualcastBits => true,
        FieldFault::Overlap => op.has_regions_apart(size),
        FieldFault::Delta => true,
        FieldFault::Expected => true,
        FieldFault::RecordMeetsData => op.is_apart_from_record(size, record_at),
    }
}

/// The first fault of bytes that name this operation, rule by rule.
pub(crate) fn first_fault(bytes: &[u8; 64], op: &ChecksumOp) -> Option<FieldFault>
    ensures { MatchOption result ((fault : FieldFault) →
        Rule bytes.now op.now fault) (IsFirstBroken bytes.now op.now) }
{
    for fault in IN_ORDER {
        if !keeps(bytes, op, fault) {
            return Some(fault);
        }
    }
    None
}
