//! What each group of a plan costs, and what the plan saves.

ghost use Rattle.std.specs.Prelude.{◌≡◌, ◌≤◌, IfOk, length};
ghost use Rattle.dsa_descriptor.specs.Pieces.{most_pieces};
ghost use Rattle.dsa_settings.specs.Plan.{piece_count};
ghost use Rattle.dsa_settings.specs.Shapes.{HasGroupShape, HasGroupShapes};
ghost use Rattle.dsa_settings.specs.Settings.{tariff_of};
ghost use Rattle.dsa_plan.specs.Costs.{AreCosts, costs_of_group, costs_of_groups};

use crate::chain::group_price;
use crate::pricing::{cost, fence_count};
use dsa_settings::{Group, Plan, Settings};
use std::alloc::{AllocError, Global};

/// A group, and what it costs.
#[derive(Clone, Copy, PartialEq, Eq)]
pub struct GroupCost {
    /// The number of its pieces.
    pub size: usize,
    /// The number of its fences.
    pub fences: usize,
    /// What it costs, in the unit of the settings' prices.
    pub cost: u64,
}

/// What the groups of a plan cost, and what its pieces cost one by one.
#[derive(Drop)]
pub struct Costs {
    /// Those of each group, in order.
    pub groups: Vec<GroupCost>,
    /// The cost of the plan.
    pub cost: u64,
    /// The cost of as many lone submissions as there are pieces.
    pub lone: u64,
}

/// What a group costs.
fn costs_of_group(group: &Group, settings: &Settings) -> GroupCost
    requires shape { HasGroupShape settings.now.greatest_batch group.now }
    requires few { length group.now ≤ most_pieces }
    ensures { result ≡ costs_of_group (tariff_of settings.now) group.now }
{
    let (size, fences) = (group.len(), fence_count(group));
    GroupCost {
        size,
        fences,
        cost: group_price(settings, size, fences as u64),
    }
}

/// What the groups cost, in order.
fn costs_of_groups(
    alloc: Global,
    plan: &Plan,
    settings: &Settings,
) -> Result<Vec<GroupCost>, AllocError>
    requires pieces { piece_count plan.now ≤ most_pieces }
    requires shapes { HasGroupShapes settings.now.greatest_batch plan.now }
    ensures { IfOk result
        (λ groups. groups.items ≡ costs_of_groups (tariff_of settings.now) plan.now) }
{
    let mut groups = Vec::with_capacity(alloc, plan.groups().len())?;
    for group in plan.groups() {
        groups.push(costs_of_group(group, settings))?;
    }
    Ok(groups)
}

/// What each group of a plan costs, what the plan costs, and what as many lone submissions would cost.
pub fn plan_costs(
    alloc: Global,
    plan: &Plan,
    pieces: usize,
    settings: &Settings,
) -> Result<Costs, AllocError>
    requires all { piece_count plan.now ≡ pieces }
    requires few { pieces ≤ most_pieces }
    requires shapes { HasGroupShapes settings.now.greatest_batch plan.now }
    ensures { IfOk result (AreCosts settings.now pieces plan.now) }
{
    let groups = costs_of_groups(alloc, plan, settings)?;
    Ok(Costs {
        groups,
        cost: cost(plan, settings),
        lone: settings.lone() * pieces as u64,
    })
}
