//! Laws of explanations.

ghost use Rattle.dsa_explain.specs.Laws.{LeastPlansSave, CellsArePiecesAndFences, GroupCostsAddUp};

use dsa_plan::Conflicts;

/// A least plan costs at most what its pieces cost one by one.
pub fn least_plans_save<C: Conflicts>()
    ensures { LeastPlansSave C.conflict }
{}

/// There is a cell for each piece, and a fenced one for each fence.
pub fn cells_are_pieces_and_fences()
    ensures { CellsArePiecesAndFences }
{}

/// The costs of the groups of a plan add up to the plan's.
pub fn group_costs_add_up()
    ensures { GroupCostsAddUp }
{}
