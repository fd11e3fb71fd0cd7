//! What an entry of a recording says, whatever its operation is.

ghost use Rattle.std.specs.Prelude.{◌≡◌};
ghost use Rattle.dsa_descriptor.specs.Places.{code_at, flags_at, u32_at, u64_at};

use dsa_descriptor::{FlagWord, u32_at, u64_at};

/// The flags of a completion record that is written in any case: its address is valid, and it is requested.
pub const RECORD_REQUESTED: FlagWord = FlagWord(0x0c);

/// The fields that each descriptor has at the same place (`linux/idxd.h`, `struct dsa_hw_desc`).
#[derive(Clone, Copy)]
pub struct Header {
    /// The PASID in bits 0 to 19, the privilege in bit 31.
    pub owner: u32,
    /// The flags.
    pub flags: FlagWord,
    /// The operation code.
    pub code: u8,
    /// The address of the completion record; it is valid with [`FlagWord::RECORD_VALID`].
    pub record_at: u64,
    /// How many bytes of data there are, and of a batch how many members.
    pub size: u32,
}

impl Header {
    /// The header of an entry.
    pub fn of(entry: &[u8; 64]) -> Header
        ensures owner { result.owner ≡ u32_at 0 entry.now }
        ensures flags { result.flags.0 ≡ flags_at entry.now }
        ensures code { result.code ≡ code_at entry.now }
        ensures record_at { result.record_at ≡ u64_at 8 entry.now }
        ensures size { result.size ≡ u32_at 32 entry.now }
    {
        let word = u32_at(entry, 4);
        Header {
            owner: u32_at(entry, 0),
            flags: FlagWord(word % (1 << 24)),
            code: (word >> 24) as u8,
            record_at: u64_at(entry, 8),
            size: u32_at(entry, 32),
        }
    }
}
