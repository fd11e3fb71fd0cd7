//! The operations that a list may have, as bytes name them.

ghost use Rattle.std.specs.Prelude.{◌≡◌};

use crate::checksum_op::{ChecksumOp, both};
use crate::reading::checksum_at;
use arrayvec::ArrayVec;
use dsa_descriptor::{Op, Span, op_at};

/// What an operation does, without its size, its completion record, its flags and its owner.
#[derive(Clone, Copy)]
pub enum ListedOp {
    /// That of a descriptor.
    Descriptor(Op),
    /// One that makes a checksum.
    Checksum(ChecksumOp),
}

impl ListedOp {
    ghost use Rattle.dsa_operations.specs.Listed.{listed_data, listed_op};

    /// The operation that the 64 bytes name, if its code is one of the eight that a list may have; the other bytes may be
    /// wrong.
    pub fn named(bytes: &[u8; 64]) -> Option<ListedOp>
        ensures { result ≡ listed_op bytes.now }
    {
        if let Some(op) = op_at(bytes) {
            return Some(ListedOp::Descriptor(op));
        }
        match checksum_at(bytes) {
            Some(op) => Some(ListedOp::Checksum(op)),
            None => None,
        }
    }

    /// What an operation of this size reads, and then what it writes beside its completion record.
    pub fn data(&self, size: u32) -> ArrayVec<Span, 4>
        ensures { result.items ≡ listed_data self.now size }
    {
        match self {
            ListedOp::Descriptor(op) => both(op.sources(size), op.targets(size)),
            ListedOp::Checksum(op) => op.data(size),
        }
    }
}
