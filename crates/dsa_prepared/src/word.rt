//! What eight bytes of a prepared entry hold.

/// What eight bytes of a prepared entry hold.
#[derive(Clone, Copy)]
pub enum Word {
    /// An address of the region of this number, at this offset.
    InRegion(usize, u64),
    /// An address of the staging area, at this offset.
    InStaging(u64),
    /// The same number for all bases.
    Fixed(u64),
}
