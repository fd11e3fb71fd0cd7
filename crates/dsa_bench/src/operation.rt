//! The bytes of operations.

/// How many bytes an operation moves or fills in an image: 8 MiB.
pub(crate) const BYTES: u32 = 8_388_608;
/// Where its completion record goes: the last 32 bytes of the image.
const RECORD_AT: u64 = 16_777_184;

/// The 64 bytes of an operation: its code, its bytes 16 to 24 and 24 to 32, its size and its record's address.
pub(crate) fn operation_of(
    code: u8,
    source: u64,
    destination: u64,
    size: u32,
    record_at: u64,
) -> [u8; 64] {
    let mut bytes = [0; 64];
    bytes[4] = 0x0c;
    bytes[7] = code;
    bytes[8..16].copy_from_slice(&record_at.to_le_bytes());
    bytes[16..24].copy_from_slice(&source.to_le_bytes());
    bytes[24..32].copy_from_slice(&destination.to_le_bytes());
    bytes[32..36].copy_from_slice(&size.to_le_bytes());
    bytes
}

/// The 64 bytes of an operation on `BYTES` bytes of an image.
pub(crate) fn operation(code: u8, source: u64, destination: u64) -> [u8; 64] {
    operation_of(code, source, destination, BYTES, RECORD_AT)
}
