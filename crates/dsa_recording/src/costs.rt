//! What recorded submissions cost.

ghost use Rattle.std.specs.Prelude.{◌≡◌, ◌≤◌, length, not};
ghost use Rattle.std.specs.List.{count_by};
ghost use Rattle.dsa_settings.specs.Plan.{group_cost};
ghost use Rattle.dsa_settings.specs.Settings.{tariff_of};
ghost use Rattle.dsa_recording.specs.Costs.{has_price, submission_cost, fences_of, cost_with, AreCosts};

use crate::report::Report;
use crate::submission::Audited;
use crate::totals::{Totals, counted, fences_in};
use dsa_settings::Settings;
use serde::Serialize;
use std::alloc::{AllocError, Global};

/// One of the sets of fences that an audit leads through.
#[derive(Clone, Copy)]
enum FenceSet {
    /// As they were recorded.
    Recorded,
    /// With the missing ones.
    Corrected,
    /// With the missing ones, and without the needless ones.
    Reduced,
}

/// What submissions cost, in the unit of the settings' prices.
#[derive(Clone, Copy, Serialize)]
pub struct Costs {
    /// As they were recorded.
    pub recorded: u64,
    /// With the missing fences.
    pub corrected: u64,
    /// With the missing fences, and without the needless ones.
    pub reduced: u64,
    /// How many submissions have no price, and are counted nowhere: batches of other sizes than a plan has.
    pub unpriced: usize,
}

/// Whether a submission with these fences has a price.
pub(crate) fn has_price(settings: &Settings, is_batch: bool, fences: &[bool]) -> bool
    ensures { result ≡ has_price settings.now.greatest_batch is_batch fences.now }
{
    let size = fences.len();
    if is_batch {
        2 <= size && size as u64 <= settings.greatest_batch()
    } else {
        size == 1
    }
}

/// What a batch costs with these fences.
fn batch_cost(settings: &Settings, fences: &[bool]) -> u64
    requires some { 2 ≤ length fences.now }
    requires fits { length fences.now ≤ settings.now.greatest_batch }
    ensures { result ≡ group_cost (tariff_of settings.now) fences.now }
{
    settings.price(fences.len() as u64) + settings.fence() * fences_in(fences) as u64
}

/// What a submission costs with these fences; nothing where it has no price.
pub(crate) fn submission_cost(settings: &Settings, is_batch: bool, fences: &[bool]) -> u64
    ensures { result ≡ submission_cost settings.now is_batch fences.now }
{
    if !has_price(settings, is_batch, fences) {
        return 0;
    }
    if !is_batch {
        return settings.lone();
    }
    batch_cost(settings, fences)
}

/// The fences of a submission.
fn fences_of(audited: &Audited, fences: FenceSet) -> &[bool]
    ensures { result.now ≡ fences_of fences audited.now }
{
    match fences {
        FenceSet::Recorded => audited.fences.as_slice(),
        FenceSet::Corrected => audited.audit.corrected.fences.as_slice(),
        FenceSet::Reduced => audited.audit.reduced.fences.as_slice(),
    }
}

/// What submissions cost with these fences.
fn cost_with(settings: &Settings, fences: FenceSet, report: &Report) -> u64
    ensures { result ≡ cost_with settings.now fences report.now }
{
    let mut cost: u64 = 0;
    for audited in &report.audits {
        let fences = fences_of(audited, fences);
        cost = cost.saturating_add(submission_cost(settings, audited.is_batch, fences));
    }
    cost
}

/// How many submissions have no price.
fn unpriced_in(settings: &Settings, audits: &[Audited]) -> usize
    ensures { result ≡
        count_by (λ a. not (has_price settings.now.greatest_batch a.is_batch a.fences.items))
        audits.now }
{
    audits
        .iter()
        .filter(|audited| !has_price(settings, audited.is_batch, &audited.fences))
        .count()
}

/// What the submissions of a report cost.
pub fn costs_of(settings: &Settings, report: &Report) -> Costs
    ensures { AreCosts settings.now report.now result }
{
    Costs {
        recorded: cost_with(settings, FenceSet::Recorded, report),
        corrected: cost_with(settings, FenceSet::Corrected, report),
        reduced: cost_with(settings, FenceSet::Reduced, report),
        unpriced: unpriced_in(settings, &report.audits),
    }
}

/// Which submissions have no price.
fn unpriced_text(
    alloc: Global,
    settings: &Settings,
    unpriced: usize,
) -> Result<String, AllocError> {
    let count = counted(alloc, unpriced, "batch", "batches")?;
    let most = settings.greatest_batch();
    format!(in alloc; ", not counting {count} of fewer than 2 or more than {most} members")
}

/// The line of the costs, of a report with these numbers; `lacks`: a fence is missing that is not accepted.
pub fn costs_text(
    alloc: Global,
    settings: &Settings,
    costs: &Costs,
    totals: &Totals,
    lacks: bool,
) -> Result<String, AllocError> {
    let (recorded, corrected, reduced) = (costs.recorded, costs.corrected, costs.reduced);
    let mut text = format!(in alloc; "cost {recorded} as submitted")?;
    if lacks {
        text.push_str(&format!(in alloc; ", {corrected} with the missing fences")?)?;
    }
    if totals.needless > 0 {
        let then = if lacks { "then " } else { "" };
        text.push_str(&format!(in alloc; ", {then}{reduced} without the needless ones")?)?;
    }
    if costs.unpriced > 0 {
        text.push_str(&unpriced_text(alloc, settings, costs.unpriced)?)?;
    }
    text.push_str("\n")?;
    Ok(text)
}
