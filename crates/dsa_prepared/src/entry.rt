//! 64 bytes of a prepared submission.

use crate::word::Word;

/// 64 bytes of a prepared submission: of a piece or of a batch. The bytes from 56 on are zero.
#[derive(Clone, Copy)]
pub struct Entry {
    /// Bytes 0 to 7: the owner, the flags and the operation code.
    pub head: [u8; 8],
    /// Bytes 8 to 15: the address of the completion record.
    pub completion: Word,
    /// Bytes 16 to 23: an address, or a pattern.
    pub first: Word,
    /// Bytes 24 to 31: an address, or a pattern.
    pub second: Word,
    /// Bytes 32 to 39: the size and the interrupt handle.
    pub middle: [u8; 8],
    /// Bytes 40 to 47: a dualcast's second destination, or what else the operation has there; but the address of a
    /// checksum's seed is in bytes 48 to 55. The other eight are zero.
    pub own: Word,
}
