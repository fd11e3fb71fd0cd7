//! The flags of checksums.

use dsa_descriptor::FlagWord;

/// The seed is read from memory.
pub(crate) const SEED_IN_MEMORY: FlagWord = FlagWord(0x010000);
/// Seed and checksum are neither inverted nor reflected.
pub(crate) const BYPASSES_INVERSION: FlagWord = FlagWord(0x020000);
/// The bits of each byte of data are not reflected.
pub(crate) const BYPASSES_DATA_REFLECTION: FlagWord = FlagWord(0x040000);
/// The flags of a checksum that change what it does: they say where its seed is, and which of the four checksums it is.
pub const CHECKSUM_FLAGS: FlagWord = FlagWord(0x070000);
/// The flags that each listed checksum has.
pub(crate) const REQUIRED: FlagWord = FlagWord(0x00000c);
/// The flags that no listed checksum has.
pub(crate) const REFUSED: FlagWord = FlagWord(0xf800d1);
