//! Lists that fit one batch: their costs without a search.

ghost use Rattle.std.specs.Prelude.{◌≡◌, ℕ, ◌+◌, ◌-◌, ◌<◌, ◌≤◌, List, [], ◌∷◌, replicate, false, length, slice_index, IsTrue, IfOk};
ghost use Rattle.dsa_settings.specs.Settings.{tariff_of, greatest_price};
ghost use Rattle.dsa_conflicts.specs.Last.{IsLastOf};
ghost use Rattle.dsa_plan.specs.Chain.{GoForward};
ghost use Rattle.dsa_search.specs.Entries.{IsReadPlan};
ghost use Rattle.dsa_search.specs.OneBatch.{IsBestBatch, AreBatchCosts, AreNested, HasCheapFences, AreJoinedCosts, IsBestJoined};

use crate::plan::{group_of, read_plan};
use dsa_plan::{Group, Plan, Settings, chain_step};
use std::alloc::{AllocError, Global};

/// Whether no piece has a last conflict.
pub(crate) fn none_last(lasts: &[Option<u32>]) -> bool
    ensures { IsTrue result → (x y : ℕ) → IsLastOf lasts.now x y → ⊥ }
{
    for last in lasts {
        if last.is_some() {
            return false;
        }
    }
    true
}

/// Whether one batch of so many pieces is known to cost less than any plan of other groups, if none of them conflict.
/// The batch has to cost less than the pieces one by one, and more than nothing: other plans may cost nothing, too.
pub(crate) fn is_best_batch(settings: &Settings, count: usize) -> bool
    ensures { IsTrue result →
        IsBestBatch settings.now.greatest_batch (tariff_of settings.now) count }
{
    if settings.table().is_some() {
        return false;
    }
    if count < 2 {
        return false;
    }
    if count as u64 > settings.greatest_batch() {
        return false;
    }
    let batch = settings.price(count as u64);
    0 < batch && batch < settings.lone() * count as u64
}

/// Lowers the costs of the first 0, 1, .. pieces, all that of a batch, to those of the pieces one by one, as long as
/// these are less; one piece makes no batch.
fn lower_alone(costs: &mut [u64], lone: u64, batch: u64)
    requires some { 2 ≤ length costs.old }
    requires few { length costs.old ≤ 1025 }
    requires lone { lone ≤ greatest_price }
    requires batch { (k : ℕ) → k < length costs.old → slice_index costs.old k ≡ batch }
    ensures { AreBatchCosts lone batch (length costs.old - 1) costs.new }
{
    costs[0] = 0;
    costs[1] = lone;
    for count in 2..costs.len() {
        let alone = lone * count as u64;
        if batch <= alone {
            return;
        }
        costs[count] = alone;
    }
}

/// The least costs of the first 0, 1, .. pieces, if one batch may have them all.
pub(crate) fn batch_costs(
    alloc: Global,
    count: usize,
    lone: u64,
    batch: u64,
) -> Result<Vec<u64>, AllocError>
    requires some { 1 ≤ count }
    requires few { count ≤ 1024 }
    requires lone { lone ≤ greatest_price }
    ensures { IfOk result (λ costs. AreBatchCosts lone batch count costs.items) }
{
    let mut costs = vec![in alloc; batch; count + 1]?;
    lower_alone(&mut costs, lone, batch);
    Ok(costs)
}

/// The plan of one batch without a fence.
pub(crate) fn one_batch(alloc: Global, count: usize) -> Result<Plan, AllocError>
    ensures { IfOk result (λ plan. plan ≡ replicate count false ∷ []) }
{
    let fences = vec![in alloc; false; count]?;
    let groups = vec![in alloc; Group::new(fences)]?;
    Ok(Plan::new(groups))
}

/// Whether so many pieces fit one batch, and a fence costs no more than a group: so groups, one of which is a batch,
/// cost no less than one batch of their pieces.
pub(crate) fn has_cheap_fences(settings: &Settings, count: usize) -> bool
    ensures { IsTrue result →
        HasCheapFences settings.now.greatest_batch (tariff_of settings.now) count }
{
    if settings.table().is_some() {
        return false;
    }
    if count as u64 > settings.greatest_batch() {
        return false;
    }
    settings.fence() <= settings.lone() && settings.fence() <= settings.price(2)
}

/// Fills in the costs of the first 1, 2, .. pieces, each by itself or all in a batch, whichever costs less.
fn fill_joined(pairs: &[Option<(u32, u32)>], lone: u64, batch: u64, fence: u64, costs: &mut [u64])
    requires forward { GoForward pairs.now }
    requires few { length pairs.now ≤ 1024 }
    requires lone { lone ≤ greatest_price }
    requires batch { batch ≤ greatest_price }
    requires fence { fence ≤ greatest_price }
    requires count { length costs.old ≡ length pairs.now + 1 }
    requires first { slice_index costs.old 0 ≡ 0 }
    ensures { AreJoinedCosts pairs.now lone batch fence costs.new }
{
    let (mut piece, mut fences) = (0, 0);
    for last in 0..pairs.len() {
        let end = last + 1;
        costs[end] = if last == 0 {
            lone
        } else {
            (lone * end as u64).min(batch + fence * fences)
        };
        (piece, fences) = chain_step(pairs, piece, fences, end);
    }
}

/// The least costs of the first 0, 1, .. pieces, if fences are cheap.
pub(crate) fn joined_costs(
    alloc: Global,
    pairs: &[Option<(u32, u32)>],
    settings: &Settings,
) -> Result<Vec<u64>, AllocError>
    requires forward { GoForward pairs.now }
    requires cheap { HasCheapFences
        settings.now.greatest_batch (tariff_of settings.now) (length pairs.now) }
    ensures { let t = tariff_of settings.now in
        IfOk result (λ costs. AreJoinedCosts pairs.now t.lone (t.batch 2) t.fence costs.items) }
{
    let mut costs = vec![in alloc; 0; pairs.len() + 1]?;
    let (lone, batch, fence) = (settings.lone(), settings.price(2), settings.fence());
    fill_joined(pairs, lone, batch, fence, &mut costs);
    Ok(costs)
}

/// Whether one batch of all pieces is known to cost less than any plan of other groups, if fences are cheap and it
/// costs this much.
fn is_best_joined(settings: &Settings, count: usize, cost: u64) -> bool
    requires { HasCheapFences settings.now.greatest_batch (tariff_of settings.now) count }
    ensures { IsTrue result →
        IsBestJoined (tariff_of settings.now) count cost }
{
    if count < 2 {
        return false;
    }
    if settings.fence() >= settings.lone() || settings.fence() >= settings.price(2) {
        return false;
    }
    cost < settings.lone() * count as u64
}

/// The plan that has these costs.
pub(crate) fn joined_plan(
    alloc: Global,
    pairs: &[Option<(u32, u32)>],
    settings: &Settings,
    costs: &[u64],
) -> Result<Plan, AllocError>
    requires forward { GoForward pairs.now }
    requires nested { AreNested pairs.now }
    requires cheap { HasCheapFences
        settings.now.greatest_batch (tariff_of settings.now) (length pairs.now) }
    requires costs { let t = tariff_of settings.now in
        AreJoinedCosts pairs.now t.lone (t.batch 2) t.fence costs.now }
    ensures { IfOk result
        (IsReadPlan settings.now.greatest_batch (tariff_of settings.now)
        (length pairs.now) pairs.now costs.now) }
{
    let count = pairs.len();
    // For the prover: settings are within their limits.
    let _ = settings.lone();
    if !is_best_joined(settings, count, costs[count]) {
        return read_plan(alloc, pairs, settings, costs);
    }
    let group = group_of(alloc, pairs, 0, count)?;
    let groups = vec![in alloc; group]?;
    Ok(Plan::new(groups))
}
