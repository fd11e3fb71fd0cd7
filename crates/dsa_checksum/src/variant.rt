//! Which checksum is meant.

/// Which of the checksums of the device, by the flags of the descriptor (specification 341204).
#[derive(Clone, Copy)]
pub struct Variant {
    /// Whether seed and checksum are neither inverted nor reflected: flag 0x020000.
    pub bypasses_inversion: bool,
    /// Whether the bits of each byte of data are not reflected: flag 0x040000.
    pub bypasses_data_reflection: bool,
}
