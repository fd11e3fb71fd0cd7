//! Laws of last conflicts.

ghost use Rattle.dsa_conflicts.specs.Swept.{SweepBegins, SweepFindsLasts, SweepGoesOn};

/// A sweep to which `Sweep::add` has added the pieces of a list in order knows for each address which of them read and
/// wrote it last.
pub fn sweep_knows_last_accesses()
    ensures begins { SweepBegins }
    ensures goes_on { SweepGoesOn }
{}

/// What `Sweep::add` finds for a piece, after all pieces before it, is what `last_conflicts` returns, if it lies in the
/// window; else `last_conflicts` returns none.
pub fn sweep_finds_last_conflicts()
    ensures { SweepFindsLasts }
{}
