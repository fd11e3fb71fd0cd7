//! Laws of fences and of what cuts a list.

ghost use Rattle.dsa_reasons.specs.Laws.{EachCutOnce, EachFenceOnce, FencesAreCuts};

use dsa_ranges::Touching;

/// The list of the fenced pieces of a plan has each of them once, in order, and no other. This is a law: the body is
/// empty, and the clause is what the proof shows.
pub fn each_fence_once()
    ensures { EachFenceOnce }
{}

/// The list of the pieces for which [`cut_reasons`](crate::cut_reasons()) has a reason has each fenced piece and each
/// beginning of a group after the first once, in order, and no other. This is a law too.
pub fn each_cut_once()
    ensures { EachCutOnce }
{}

/// What an explanation says of a fence of a legal plan is what it says of that fence among all that cuts the list. This
/// is a law too.
pub fn fences_are_cuts<P: Touching>()
    ensures { FencesAreCuts P.reads P.writes P.conflict }
{}
