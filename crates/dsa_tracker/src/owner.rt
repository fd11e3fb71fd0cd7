//! Owners of submissions.

ghost use Rattle.std.specs.Prelude.{◌≡◌, ◌↔◌, IsTrue, MatchOption};
ghost use Rattle.dsa_tracker.specs.Calls.{HaveOwner, IsFirstOther, owner_with};

use crate::tracked::Tracked;

/// Whose addresses a submission names.
#[derive(Clone, Copy, PartialEq, Eq)]
pub struct Owner {
    /// The process address space.
    pub pasid: u32,
    /// Whether operations are done with the privilege of the kernel.
    pub privileged: bool,
}

/// The owner once these pieces came: the one that was known, else that of the first piece.
pub(crate) fn expected_owner<P: Tracked>(known: Option<Owner>, pieces: &[P]) -> Option<Owner>
    ensures { result ≡ owner_with P.owner known pieces.now }
{
    match known {
        Some(owner) => Some(owner),
        None => match pieces {
            [first, ..] => Some(first.named_owner()),
            [] => None,
        },
    }
}

/// Whether the piece names this owner.
fn is_of<P: Tracked>(owner: Option<Owner>, piece: &P) -> bool
    ensures { IsTrue result ↔ (owner ≡ Some (P.owner piece.now)) }
{
    match owner {
        Some(owner) => owner == piece.named_owner(),
        None => false,
    }
}

/// The first piece with another owner.
pub(crate) fn first_other<P: Tracked>(owner: Option<Owner>, pieces: &[P]) -> Option<usize>
    ensures { MatchOption result (HaveOwner P.owner owner pieces.now)
        (IsFirstOther P.owner owner pieces.now) }
{
    for (index, piece) in pieces.iter().enumerate() {
        if !is_of(owner, piece) {
            return Some(index);
        }
    }
    None
}
