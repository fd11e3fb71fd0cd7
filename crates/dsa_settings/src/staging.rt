//! The staging area of a plan: where its batches are put.

/// How many bytes the staging area has for each piece: 64 for its descriptor, and 32 for a record of its batch.
pub const STAGED_LEN: u64 = 96;
