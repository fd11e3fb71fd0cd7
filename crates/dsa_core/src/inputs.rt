//! What a line reads and knows.

ghost use Rattle.std.specs.Prelude.{◌<◌};
ghost use Rattle.dsa_image.specs.Parts.{line_width, quotient_up};

use arrayvec::ArrayVec;
use dsa_image::{Inputs, Partial};
use dsa_operations::Checksum;

/// The inputs of a line of a checksum.
#[derive(Drop)]
pub struct ChecksumInputs {
    /// The checksum.
    pub checksum: Checksum,
    /// The place of the line among the checksum's lines, from 0.
    pub line: u64,
    /// The checksum of what the lines before have read; 0 before the first.
    pub value: u32,
    /// The value that the line goes on from: of the first line the seed, which it reads, and else that of those before.
    pub begun: u32,
    /// The bytes that the line reads of the source.
    pub bytes: ArrayVec<u8, 4096>,
    pub ghost place: { line < quotient_up checksum.size line_width },
}

/// The inputs of a line of an operation. What lines of the other kind have found is carried along.
#[derive(Drop)]
pub enum OperationInputs {
    /// Of a descriptor.
    Descriptor {
        inputs: Inputs,
        value: u32,
    },
    /// Of a checksum.
    Checksum {
        inputs: ChecksumInputs,
        found: Partial,
    },
}
