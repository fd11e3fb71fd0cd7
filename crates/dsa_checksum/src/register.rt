//! Checksums, byte by byte.

ghost use Rattle.std.specs.Prelude.{◌≡◌};
ghost use Rattle.dsa_checksum.specs.Checksum.{bits_of, bits_value, byte_bits, checksum, remainder, value_bits};

use crate::table::REMAINDERS;
use crate::variant::Variant;

/// A value as a register of which the lowest bit is the coefficient of the highest power, or the other way round.
fn turned(variant: Variant, value: u32) -> u32
    ensures bits { bits_of 32 result ≡ value_bits variant.bypasses_inversion value }
    ensures value { result ≡ bits_value variant.bypasses_inversion (bits_of 32 value) }
{
    if variant.bypasses_inversion {
        value.reverse_bits()
    } else {
        !value
    }
}

/// A byte of which the lowest bit is the coefficient of the highest power.
fn turned_byte(variant: Variant, byte: u8) -> u8
    ensures { bits_of 8 result ≡ byte_bits variant.bypasses_data_reflection byte }
{
    if variant.bypasses_data_reflection {
        byte.reverse_bits()
    } else {
        byte
    }
}

/// The remainder after one more byte.
fn after_byte(register: u32, byte: u8) -> u32
    ensures { bits_of 32 result ≡ remainder (bits_of 32 register) (bits_of 8 byte) }
{
    let low = (register ^ u32::from(byte)) & 0xff;
    REMAINDERS[low as usize] ^ (register >> 8)
}

/// The checksum of bytes that come after those of which `seed` is the checksum; after none it is 0, or the value that a
/// descriptor gives.
pub fn checksum(variant: Variant, seed: u32, bytes: &[u8]) -> u32
    ensures { result ≡ checksum variant seed bytes.now }
{
    let mut register = turned(variant, seed);
    for byte in bytes {
        register = after_byte(register, turned_byte(variant, *byte));
    }
    turned(variant, register)
}
