//! What a line gives.

use arrayvec::ArrayVec;
use dsa_image::{Outputs, Partial};

/// The outputs of a line of a checksum.
#[derive(Drop)]
pub struct ChecksumOutputs {
    /// Where the line writes.
    pub at: u64,
    /// The bytes that it writes; none if nothing is copied.
    pub bytes: ArrayVec<u8, 4096>,
    /// The checksum so far.
    pub value: u32,
}

/// The outputs of a line of an operation. What lines of the other kind have found is carried along.
#[derive(Drop)]
pub enum OperationOutputs {
    /// Of a descriptor.
    Descriptor {
        outputs: Outputs,
        value: u32,
    },
    /// Of a checksum.
    Checksum {
        outputs: ChecksumOutputs,
        found: Partial,
    },
}
