//! The plan of least cost for operations.

ghost use Rattle.std.specs.Prelude.{◌≤◌, IfOk, length};
ghost use Rattle.dsa_descriptor.specs.Pieces.{most_pieces};
ghost use Rattle.dsa_settings.specs.Plan.{plan_cost};
ghost use Rattle.dsa_settings.specs.Legal.{IsLeast};
ghost use Rattle.dsa_plan.specs.Certificate.{IsGood};
ghost use Rattle.dsa_settings.specs.Settings.{tariff_of};
ghost use Rattle.dsa_settings.specs.Barriers.{WithBarriers};
ghost use Rattle.dsa_search.specs.Chosen.{IsChosen};
ghost use Rattle.dsa_operations.specs.Operations.{OperationConflictAt};

use dsa_conflicts::last_conflicts_of;
use dsa_operations::Operation;
use dsa_plan::Settings;
use dsa_search::{Found, search_lasts};
use std::alloc::{AllocError, Global};

/// The plan of least cost for the operations in their order among those that keep the barriers, with its prices and
/// pairs. Barriers, and which of several least plans is chosen, are those of [`dsa_search::search_with`]. There may be
/// at most 65,536 operations. None is split: the device refuses one that is longer than its greatest transfer.
///
/// # Errors
/// An allocation failure.
pub fn search_operations(
    alloc: Global,
    operations: &[Operation],
    barriers: &[bool],
    settings: &Settings,
) -> Result<Found, AllocError>
    requires { length operations.now ≤ most_pieces }
    ensures chosen { IfOk result (λ found.
        IsChosen (WithBarriers (OperationConflictAt operations.now) barriers.now)
        settings.now.greatest_batch (tariff_of settings.now) (length operations.now)
        found.prices.items found.pairs.items found.plan) }
    ensures least { IfOk result (λ found.
        IsLeast (WithBarriers (OperationConflictAt operations.now) barriers.now)
        settings.now.greatest_batch (tariff_of settings.now) (length operations.now) found.plan) }
    ensures certificate_good { IfOk result (λ found.
        IsGood (WithBarriers (OperationConflictAt operations.now) barriers.now)
        settings.now.greatest_batch (tariff_of settings.now) (length operations.now)
        found.prices.items found.pairs.items (plan_cost (tariff_of settings.now) found.plan)) }
{
    let window = settings.greatest_batch() as u32 - 1;
    let lasts = last_conflicts_of(alloc, operations, window)?;
    search_lasts(alloc, lasts, barriers, settings)
}
