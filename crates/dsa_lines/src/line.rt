//! The fields of a line, and their bytes.

ghost use Rattle.std.specs.Prelude.{◌≡◌, ◌+◌, ◌*◌, ◌<◌, ◌^◌, if◌then◌else◌};
ghost use Rattle.dsa_descriptor.specs.Operands.{code_of};
ghost use Rattle.dsa_descriptor.specs.Spelling.{spelling};
ghost use Rattle.dsa_operations.specs.OperationFields.{fields_spelling, operation_fields};
ghost use Rattle.dsa_lines.specs.Views.{view};

use dsa_descriptor::Op;
use dsa_operations::{ListedOp, Operation, checksum_bytes};

/// The fields of a line, which need not be those of a listed operation.
#[derive(Clone, Copy)]
pub struct Line {
    /// The PASID.
    pub pasid: u32,
    /// Whether the operation is done with the privilege of the kernel.
    pub privileged: bool,
    /// The flags.
    pub flags: u32,
    /// The address of the completion record.
    pub record_at: u64,
    /// The transfer size in bytes.
    pub size: u32,
    /// The interrupt handle.
    pub int_handle: u16,
    /// The operation.
    pub op: ListedOp,
}

impl Line {
    /// The fields of an operation.
    pub(crate) fn of(operation: &Operation) -> Line
        ensures { view result ≡ operation_fields operation.now }
    {
        match operation {
            Operation::Descriptor(descriptor) => Line {
                pasid: descriptor.pasid,
                privileged: descriptor.privileged,
                flags: descriptor.flags.0,
                record_at: descriptor.record_at,
                size: descriptor.size,
                int_handle: descriptor.int_handle,
                op: ListedOp::Descriptor(descriptor.op),
            },
            Operation::Checksum(checksum) => Line {
                pasid: checksum.pasid,
                privileged: checksum.privileged,
                flags: checksum.flags.0,
                record_at: checksum.record_at,
                size: checksum.size,
                int_handle: checksum.int_handle,
                op: ListedOp::Checksum(checksum.op),
            },
        }
    }

    /// The first four bytes: the PASID and the privilege.
    fn owner_word(&self) -> u32
        requires { self.now.pasid < 2 ^ 20 }
        ensures { result ≡ self.now.pasid + (if self.now.privileged then 2 ^ 31 else 0) }
    {
        if self.privileged {
            self.pasid + (1 << 31)
        } else {
            self.pasid
        }
    }

    /// The second four bytes, if this is the operation: the flags and the operation code.
    fn operation_word(&self, op: &Op) -> u32
        requires { self.now.flags < 2 ^ 24 }
        ensures { result ≡ self.now.flags + code_of op.now * 2 ^ 24 }
    {
        self.flags + (u32::from(op.code()) << 24)
    }

    /// The 64 bytes of the fields, if this is the operation.
    fn descriptor_bytes(&self, op: &Op) -> [u8; 64]
        requires pasid { self.now.pasid < 2 ^ 20 }
        requires flags { self.now.flags < 2 ^ 24 }
        ensures { result ≡ spelling (record {
          pasid = self.now.pasid;
          privileged = self.now.privileged;
          flags = self.now.flags;
          record_at = self.now.record_at;
          size = self.now.size;
          int_handle = self.now.int_handle;
          op = op.now;
        }) }
    {
        let (first, second) = op.first_fields();
        let mut bytes = [0; 64];
        bytes[0..4].copy_from_slice(&self.owner_word().to_le_bytes());
        bytes[4..8].copy_from_slice(&self.operation_word(op).to_le_bytes());
        bytes[8..16].copy_from_slice(&self.record_at.to_le_bytes());
        bytes[16..24].copy_from_slice(&first.to_le_bytes());
        bytes[24..32].copy_from_slice(&second.to_le_bytes());
        bytes[32..36].copy_from_slice(&self.size.to_le_bytes());
        bytes[36..38].copy_from_slice(&self.int_handle.to_le_bytes());
        op.put_own_bytes(&mut bytes[40..]);
        bytes
    }

    /// The 64 bytes of the fields.
    pub(crate) fn bytes(&self) -> [u8; 64]
        requires pasid { self.now.pasid < 2 ^ 20 }
        requires flags { self.now.flags < 2 ^ 24 }
        ensures { result ≡ fields_spelling (view self.now) }
    {
        match &self.op {
            ListedOp::Descriptor(op) => self.descriptor_bytes(op),
            ListedOp::Checksum(op) => checksum_bytes(
                self.pasid,
                self.privileged,
                self.flags,
                self.record_at,
                self.size,
                self.int_handle,
                op,
            ),
        }
    }
}
