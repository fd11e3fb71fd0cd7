//! Addresses that have to agree in their low 12 bits.

/// Two addresses that have to agree in their low 12 bits, as the destinations of a dualcast have.
#[derive(Clone, Copy)]
pub struct Tie {
    /// The region of the first address.
    pub region: usize,
    /// Its offset in the region.
    pub offset: u64,
    /// The region of the second address.
    pub other: usize,
    /// Its offset in the region.
    pub other_offset: u64,
}
