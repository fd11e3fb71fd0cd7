//! Partial answers.

use dsa_image::Partial;

/// What the lines of an operation have found so far.
#[derive(Clone, Copy, PartialEq, Eq)]
pub struct OperationPartial {
    /// What those of a descriptor have found.
    pub found: Partial,
    /// The checksum so far, of one that makes a checksum.
    pub value: u32,
}
