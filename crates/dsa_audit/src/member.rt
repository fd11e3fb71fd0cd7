//! What is known of the members of a batch.

ghost use Rattle.std.specs.Prelude.{◌↔◌, IsTrue};
ghost use Rattle.dsa_audit.specs.Members.{AreKnownToConflict};

use dsa_ranges::{Touched, in_conflict};

/// Why a member of a recorded batch is not looked at.
#[derive(Clone, Copy, PartialEq, Eq)]
pub enum Unseen {
    /// Its 64 bytes are all zero, as in memory that nobody wrote.
    Blank,
    /// What its operation reads and writes is not known here.
    Operation,
    /// It is a batch in a batch.
    Nested,
    /// Its PASID or its privilege is another than that of its batch.
    Owner,
    /// Its size is 0.
    Empty,
    /// Its data or its completion record goes past 2^64.
    Wrap,
}

/// A member of a recorded batch.
#[derive(Drop)]
pub enum Member {
    /// What it reads and writes.
    Known(Touched),
    /// It is not looked at: nothing is assumed of what it reads and writes.
    Unknown(Unseen),
}

/// Whether what is known of two members shows that they conflict.
pub fn are_known_to_conflict(first: &Member, second: &Member) -> bool
    ensures { IsTrue result ↔ AreKnownToConflict first.now second.now }
{
    match (first, second) {
        (Member::Known(first), Member::Known(second)) => in_conflict(first, second),
        (Member::Known(_), Member::Unknown(_))
        | (Member::Unknown(_), Member::Known(_))
        | (Member::Unknown(_), Member::Unknown(_)) => false,
    }
}
