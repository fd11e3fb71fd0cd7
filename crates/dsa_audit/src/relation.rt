//! Which members of a batch conflict.

ghost use Rattle.std.specs.Prelude.{◌≡◌, ◌↔◌, ◌<◌, ◌≤◌, ℕ, IsTrue, length};
ghost use Rattle.dsa_conflicts.specs.Access.{IsGreatest};
ghost use Rattle.dsa_audit.specs.Members.{KnownConflict};

use crate::member::{Member, are_known_to_conflict};

/// Which members conflict.
pub trait Relation {
    /// How many members there are.
    ghost count: { Self → ℕ };

    /// The members of these numbers conflict.
    ghost conflict: { Self → ℕ → ℕ → Type 0 };

    /// Whether the earlier member conflicts with the later one.
    fn conflicts(&self, earlier: usize, later: usize) -> bool
        requires ordered { earlier < later }
        requires within { later < count self.now }
        ensures { IsTrue result ↔ conflict self.now earlier later };
}

/// Members conflict where what is known of both shows it.
#[derive(Clone, Copy)]
pub struct KnownConflicts<'a> {
    /// The members.
    pub members: &'a [Member],
}

impl<'a> Relation for KnownConflicts<'a> {
    ghost count = { λ r. length r.members.now };

    ghost conflict = { λ r. KnownConflict r.members.now };

    fn conflicts(&self, earlier: usize, later: usize) -> bool {
        are_known_to_conflict(&self.members[earlier], &self.members[later])
    }
}

/// The last member before `before` that conflicts with `later`, one by one.
pub(crate) fn search_back<R: Relation>(relation: &R, before: usize, later: usize) -> Option<usize>
    requires ordered { before ≤ later }
    requires within { later < R.count relation.now }
    ensures { IsGreatest (λ a. (a < before) × R.conflict relation.now a later) result }
{
    let mut i = before;
    while i > 0 {
        i -= 1;
        if relation.conflicts(i, later) {
            return Some(i);
        }
    }
    None
}
