//! Operations of a list.

ghost use Rattle.std.specs.Prelude.{◌≡◌, ◌↔◌, IfOk, Ok, Err};
ghost use Rattle.dsa_descriptor.specs.declared.fault.FieldFault.{FieldFault};

use crate::checksum::Checksum;
use crate::reading::{checksum_at, first_fault};
use dsa_descriptor::{Descriptor, Entry, EntryList, FieldFault};
use dsa_ranges::{Piece, Touched, Touching};

/// An operation that a list may have, with its completion record and its owner.
#[derive(Clone, Copy)]
pub enum Operation {
    /// One that is no checksum.
    Descriptor(Descriptor),
    /// A checksum, with a copy or without.
    Checksum(Checksum),
}

/// Operations of one owner, with their barriers. [`dsa_descriptor::read_entries`] reads it, and
/// [`dsa_descriptor::write_entries`] writes it.
pub type OperationList = EntryList<Operation>;

impl Operation {
    ghost use Rattle.dsa_operations.specs.declared.operation.Operation.{Operation};
    ghost use Rattle.dsa_operations.specs.Faults.{IsFirstOperationFault};
    ghost use Rattle.dsa_operations.specs.Operations.{spelling_of};

    /// The operation that the 64 bytes spell.
    ///
    /// # Errors
    /// The first fault of the bytes, in the order of [`FieldFault`]'s numbers. Of a checksum, `FlagBits` is a flag that
    /// descriptors may not have either, but for 0x010000, 0x020000 and 0x040000; `Reserved` is also a destination that
    /// is not copied to, the place of the seed that is not used, or bytes 44 to 47 or 56 to 63; `Overlap` is a
    /// destination that meets the source or a seed in memory. `Wrap` and `RecordMeetsData` count such a seed as data.
    pub fn read(bytes: &[u8; 64]) -> Result<Operation, FieldFault>
        ensures found { IfOk result (λ operation. bytes.now ≡ spelling_of operation) }
        ensures only { (operation : Operation) →
            bytes.now ≡ spelling_of operation → result ≡ Ok operation }
        ensures fault { (f : FieldFault) → (result ≡ Err f) ↔ IsFirstOperationFault bytes.now f }
    {
        let Some(op) = checksum_at(bytes) else {
            return match Descriptor::read(bytes) {
                Ok(descriptor) => Ok(Operation::Descriptor(descriptor)),
                Err(fault) => Err(fault),
            };
        };
        if let Some(fault) = first_fault(bytes, &op) {
            return Err(fault);
        }
        Ok(Operation::Checksum(Checksum::spelled(bytes, op)))
    }

    /// The 64 bytes that spell the operation; there is one spelling.
    pub fn write(&self) -> [u8; 64]
        ensures { result ≡ spelling_of self.now }
    {
        match self {
            Operation::Descriptor(descriptor) => descriptor.write(),
            Operation::Checksum(checksum) => checksum.write(),
        }
    }
}

impl Entry for Operation {
    ghost use Rattle.dsa_operations.specs.Faults.{OperationKeeps};
    ghost use Rattle.dsa_operations.specs.Operations.{spelling_of};

    ghost spelling = { spelling_of };

    ghost keeps = { OperationKeeps };

    fn are_entries() {}

    #[inline(always)]
    fn read_entry(bytes: &[u8; 64]) -> Result<Self, FieldFault> {
        Operation::read(bytes)
    }

    #[inline(always)]
    fn write_entry(&self) -> [u8; 64] {
        self.write()
    }

    fn is_same(&self, other: &Self) -> bool {
        self.write() == other.write()
    }
}

impl Touching for Operation {
    ghost use Rattle.dsa_operations.specs.Operations.{OperationConflictAt, reads_of, writes_of};

    ghost reads = { reads_of };

    ghost writes = { writes_of };

    ghost conflict = { OperationConflictAt };

    fn conflict_as_touched() {}

    #[inline(always)]
    fn touched_spans(&self) -> Touched {
        match self {
            Operation::Descriptor(descriptor) => descriptor.touched_spans(),
            Operation::Checksum(checksum) => checksum.touched(),
        }
    }
}

impl Piece for Operation {
    ghost use Rattle.dsa_operations.specs.Operations.{size_of};

    ghost size = { size_of };

    #[inline(always)]
    fn transfer_size(&self) -> u32 {
        match self {
            Operation::Descriptor(descriptor) => descriptor.size,
            Operation::Checksum(checksum) => checksum.size,
        }
    }
}
