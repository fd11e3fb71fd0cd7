//! Checksums of memory as the device makes them: CRC-32C, in four variants.
#![tactic(auto)]

mod laws;
mod register;
mod table;
mod variant;

pub use laws::{checksum_goes_on, known_checksums};
pub use register::checksum;
pub use variant::Variant;
