//! Descriptors of checksums.

ghost use Rattle.std.specs.Prelude.{◌≡◌, ◌+◌, ◌*◌, ◌<◌, ◌^◌, Some, if◌then◌else◌};
ghost use Rattle.dsa_operations.specs.Operands.{code_of};
ghost use Rattle.dsa_operations.specs.Profile.{IsListedChecksum};
ghost use Rattle.dsa_operations.specs.ProfileProps.{IsListedChecksum-prop};
ghost use Rattle.dsa_operations.specs.Spelling.{checksum_spelling};

use crate::checksum_op::ChecksumOp;
use crate::flags::{BYPASSES_DATA_REFLECTION, BYPASSES_INVERSION};
use crate::places::u16_at;
use arrayvec::ArrayVec;
use bitflags::Flags;
use dsa_checksum::Variant;
use dsa_descriptor::{FlagWord, record_span, u32_at, u64_at};
use dsa_ranges::Touched;

/// A descriptor of a checksum that a list may hold. The ghost field says that its fields meet the profile, whose rules
/// are under [`Operation::read`](crate::Operation::read). (Specification 341204, descriptor format; `linux/idxd.h`.)
#[derive(Clone, Copy)]
pub struct Checksum {
    /// The PASID, the process address space of all addresses: 20 bits.
    pub pasid: u32,
    /// Whether the operation is done with the privilege of the kernel.
    pub privileged: bool,
    /// The flags: 24 bits.
    pub flags: FlagWord,
    /// The address of the completion record, a multiple of 32.
    pub record_at: u64,
    /// The transfer size in bytes, at least 1.
    pub size: u32,
    /// The interrupt handle, which is carried.
    pub int_handle: u16,
    /// The operation.
    pub op: ChecksumOp,
    pub ghost listed: { IsListedChecksum (record {
      pasid = pasid;
      privileged = privileged;
      flags = flags.0;
      record_at = record_at;
      size = size;
      int_handle = int_handle;
      op = op;
    }) } by { IsListedChecksum-prop (record {
      pasid = pasid;
      privileged = privileged;
      flags = flags.0;
      record_at = record_at;
      size = size;
      int_handle = int_handle;
      op = op;
    }) },
}

/// The first four bytes: the PASID and the privilege.
fn owner_bits(pasid: u32, privileged: bool) -> u32
    requires { pasid < 2 ^ 20 }
    ensures { result ≡ pasid + (if privileged then 2 ^ 31 else 0) }
{
    if privileged { pasid | (1 << 31) } else { pasid }
}

/// The second four bytes: the flags and the operation code.
fn operation_bits(flags: u32, op: &ChecksumOp) -> u32
    requires { flags < 2 ^ 24 }
    ensures { result ≡ flags + code_of op.now * 2 ^ 24 }
{
    flags | (u32::from(op.code()) << 24)
}

/// The 64 bytes of the fields of a checksum, which need not be those of a listed one. The flags say whether the seed is
/// read from memory.
pub fn checksum_bytes(
    pasid: u32,
    privileged: bool,
    flags: u32,
    record_at: u64,
    size: u32,
    int_handle: u16,
    op: &ChecksumOp,
) -> [u8; 64]
    requires pasid { pasid < 2 ^ 20 }
    requires flags { flags < 2 ^ 24 }
    ensures { result ≡ checksum_spelling (record {
      pasid = pasid;
      privileged = privileged;
      flags = flags;
      record_at = record_at;
      size = size;
      int_handle = int_handle;
      op = op.now;
    }) }
{
    let mut bytes = [0; 64];
    bytes[0..4].copy_from_slice(&owner_bits(pasid, privileged).to_le_bytes());
    bytes[4..8].copy_from_slice(&operation_bits(flags, op).to_le_bytes());
    bytes[8..16].copy_from_slice(&record_at.to_le_bytes());
    bytes[16..24].copy_from_slice(&op.source_field().to_le_bytes());
    bytes[24..32].copy_from_slice(&op.destination_field().to_le_bytes());
    bytes[32..36].copy_from_slice(&size.to_le_bytes());
    bytes[36..38].copy_from_slice(&int_handle.to_le_bytes());
    bytes[40..44].copy_from_slice(&op.given_field().to_le_bytes());
    bytes[48..56].copy_from_slice(&op.address_field().to_le_bytes());
    bytes
}

impl Checksum {
    ghost use Rattle.dsa_descriptor.specs.declared.fault.FieldFault.{FieldFault};
    ghost use Rattle.dsa_operations.specs.Checksums.{checksum_fields, variant_of};
    ghost use Rattle.dsa_operations.specs.Data.{checksum_reads, checksum_writes};
    ghost use Rattle.dsa_operations.specs.Faults.{Rule};
    ghost use Rattle.dsa_operations.specs.Places.{checksum_at};

    /// Which of the four checksums the flags ask for.
    pub fn variant(&self) -> Variant
        ensures { result ≡ variant_of (checksum_fields self.now) }
    {
        Variant {
            bypasses_inversion: self.flags.contains(BYPASSES_INVERSION),
            bypasses_data_reflection: self.flags.contains(BYPASSES_DATA_REFLECTION),
        }
    }

    /// The checksum that the bytes spell, which name this operation and have no fault.
    pub(crate) fn spelled(bytes: &[u8; 64], op: ChecksumOp) -> Checksum
        requires named { checksum_at bytes.now ≡ Some op }
        requires kept { (fault : FieldFault) → Rule bytes.now op fault }
        ensures { bytes.now ≡ checksum_spelling (checksum_fields result) }
    {
        let owner = u32_at(bytes, 0);
        Checksum {
            pasid: owner % (1 << 20),
            privileged: owner >> 31 == 1,
            flags: FlagWord(u32_at(bytes, 4) % (1 << 24)),
            record_at: u64_at(bytes, 8),
            size: u32_at(bytes, 32),
            int_handle: u16_at(bytes, 36),
            op,
        }
    }

    /// The 64 bytes that spell the checksum; there is one spelling.
    pub(crate) fn write(&self) -> [u8; 64]
        ensures { result ≡ checksum_spelling (checksum_fields self.now) }
    {
        checksum_bytes(
            self.pasid,
            self.privileged,
            self.flags.0,
            self.record_at,
            self.size,
            self.int_handle,
            &self.op,
        )
    }

    /// What the checksum reads and writes, its completion record included.
    pub(crate) fn touched(&self) -> Touched
        ensures reads { result.reads.items ≡ checksum_reads (checksum_fields self.now) }
        ensures writes { result.writes.items ≡ checksum_writes (checksum_fields self.now) }
    {
        let (sources, targets) = (self.op.sources(self.size), self.op.targets(self.size));
        let (mut reads, mut writes) = (ArrayVec::new(), ArrayVec::new());
        reads.try_extend_from_slice(sources.as_slice()).unwrap();
        writes.push(record_span(self.record_at));
        writes.try_extend_from_slice(targets.as_slice()).unwrap();
        Touched { reads, writes }
    }
}
