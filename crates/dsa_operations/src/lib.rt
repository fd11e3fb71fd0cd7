//! The operations that a list may have: those of a descriptor, and the two that make checksums.
#![tactic(auto)]

mod checksum;
mod checksum_op;
mod flags;
mod laws;
mod listed_op;
mod operation;
mod places;
mod reading;

pub use checksum::{Checksum, checksum_bytes};
pub use checksum_op::{ChecksumOp, Seed};
pub use flags::CHECKSUM_FLAGS;
pub use laws::{checksums_are_listed, checksums_are_spelt, one_spelling};
pub use listed_op::ListedOp;
pub use operation::{Operation, OperationList};
pub use reading::checksum_at;
