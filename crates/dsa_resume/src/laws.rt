//! Laws of what is left, each the contract of a function that does nothing.

ghost use Rattle.dsa_resume.specs.Laws.{BarriersHold, DescriptorsInOrder, FailedFirstHasLeft, LeftIsReached, LeftIsShort, LegalPlansResume, NoneGivenUp, RestCanBeListed, RestLeavesWhole, ResumesInOrder};
ghost use Rattle.dsa_resume.specs.Stores.{RecordsAreTheirOwn};
ghost use Rattle.dsa_resume.specs.Work.{descriptor_work};

use dsa_descriptor::Descriptor;
use dsa_ranges::Piece;

/// Doing what is left after the finished pieces leaves what doing all pieces in order leaves, but for those that are
/// given up; of a list with barriers, up to the barrier that stops it, if those that are left succeed. Descriptors in
/// order leave what `fold_done` of `dsa_image` says.
pub fn resuming_leaves_whole()
    ensures in_order { ResumesInOrder descriptor_work }
    ensures with_barriers { RestLeavesWhole descriptor_work }
    ensures all { NoneGivenUp Descriptor }
    ensures leaves { DescriptorsInOrder }
{}

/// Executing the list one by one, each barrier waiting for success of all before it, comes to each piece that is left,
/// if those that are left succeed. Pieces may be of any kind.
pub fn left_is_reached<P: Piece>()
    ensures { LeftIsReached P }
{}

/// Under a legal plan no piece that is left conflicts with a later one that has finished.
pub fn legal_plans_resume<P: Piece>()
    ensures { LegalPlansResume P.conflict }
{
    P::conflict_as_touched();
}

/// Under a plan that keeps the barriers no piece begins that a barrier holds back.
pub fn barriers_hold<P: Piece>()
    ensures { BarriersHold P.conflict }
{
    P::conflict_as_touched();
}

/// What is left has no more pieces than the list, of whatever kind they are.
pub fn left_is_short<P: Piece>()
    ensures { LeftIsShort P }
{}

/// What is left can be written as a list, read again and planned.
pub fn rest_can_be_listed()
    ensures { RestCanBeListed }
{}

/// If no two pieces share a completion record, the first span that each writes, that span has what its own engine has
/// written there.
pub fn records_are_their_own<P: Piece>()
    ensures { RecordsAreTheirOwn P.writes }
{}

/// What is left in the listed order is left with the failed pieces first too, if they may come first.
pub fn failed_first_has_left()
    ensures { FailedFirstHasLeft descriptor_work }
{}
