//! What a tracker answers to a submission, and to taking one off.

use crate::slots::Slots;

/// A submission that the tracker has taken.
#[derive(Clone, Copy)]
pub struct Submitted {
    /// Its slot.
    pub slot: u32,
    /// The slots of those that it waits for.
    pub waits: Slots,
}

/// What follows from taking a submission off.
#[derive(Clone, Copy)]
pub struct Retired {
    /// The slots of those that waited for it.
    pub waited: Slots,
    /// Those of them that wait for none any more.
    pub ready: Slots,
}
