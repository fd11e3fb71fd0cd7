//! Planning a list into buffers of the caller.

ghost use Rattle.std.specs.Prelude.{◌≡◌, ◌≢◌, ℕ, ◌<◌, List, length, MatchResult};
ghost use Rattle.dsa_lists.specs.AnyLists.{IsAnyPlan};
ghost use Rattle.dsa_c.specs.declared.settings.RawSettings.{RawSettings};
ghost use Rattle.dsa_c.specs.Raw.{AreSettings, limits_of};
ghost use Rattle.dsa_lists.specs.Submissions.{operation_submission_of};
ghost use Rattle.dsa_c.specs.Planning.{IsPlannedList, FitsIn, IsWritten, Refuses, RefusesToPlan, summary_of};

use crate::buffer::put;
use crate::refusal::{RawRefusal, no_room, refusal};
use crate::settings::{RawSettings, by_size, same_price, settings_of, settings_refusal};
use dsa_lists::{AnyPlanned, PlannedOperations, plan_any_list, plan_any_pieces};
use dsa_plan::Settings;
use std::alloc::Global;

/// `struct dsa_planned`: what was written, and what it costs.
#[repr(C)]
#[derive(Clone, Copy)]
pub struct RawPlanned {
    /// What the plan costs, in the unit of the settings' prices.
    pub cost: u64,
    /// The number of pieces.
    pub pieces: u64,
    /// The bytes that were written for the portal, 64 for each group.
    pub portal_len: u64,
    /// The bytes that were written for the staging area.
    pub staging_len: u64,
}

/// The cost of the planned list, and the lengths of what is written for it.
pub(crate) fn summary(planned: &PlannedOperations) -> RawPlanned
    ensures { result ≡ summary_of (operation_submission_of planned.now) }
{
    RawPlanned {
        cost: planned.cost,
        pieces: planned.pieces as u64,
        portal_len: planned.emission.portal.len() as u64,
        staging_len: planned.emission.staging.len() as u64,
    }
}

/// The pieces of the list and their plan, however many bytes it has.
#[inline(always)]
pub(crate) fn planned_for(
    alloc: Global,
    settings: &RawSettings,
    table: &[u64],
    list: &[u8],
) -> Result<AnyPlanned, RawRefusal>
    ensures { let s = settings.now in let t = table.now in MatchResult result
        (λ p. AreSettings s t × IsAnyPlan list.now (limits_of s t)
        p.operations.items p.barriers.items p.plan)
        (λ r. (0 < r.number) × RefusesToPlan s t list.now r) }
{
    let Some(checked) = settings_of(settings, table) else {
        return Err(settings_refusal(settings));
    };
    match plan_any_pieces(alloc, list, &checked) {
        Ok(planned) => Ok(planned),
        Err(fault) => Err(refusal(fault)),
    }
}

/// The planned list under given settings, if it is planned and its bytes fit.
fn plan_under(
    alloc: Global,
    settings: &Settings,
    list: &[u8],
    portal_room: usize,
    staging_room: usize,
) -> Result<PlannedOperations, RawRefusal>
    ensures { (raw : RawSettings) (table : List ℕ) → settings.now ≡ limits_of raw table →
        AreSettings raw table → MatchResult result
        (λ p. IsPlannedList raw table list.now (operation_submission_of p)
        × FitsIn (operation_submission_of p) portal_room staging_room)
        (λ r. (0 < r.number) × Refuses raw table list.now portal_room staging_room r) }
{
    match plan_any_list(alloc, list, settings) {
        Ok(planned) => {
            let portal_len = planned.emission.portal.len();
            let staging_len = planned.emission.staging.len();
            if portal_len <= portal_room && staging_len <= staging_room {
                Ok(planned)
            } else {
                Err(no_room(portal_len, staging_len))
            }
        }
        Err(fault) => Err(refusal(fault)),
    }
}

/// The planned list with a price of a batch by its size. Not inlined: a function zeroes its frame, and settings take
/// 8 KiB.
#[inline(never)]
fn plan_by_size(
    alloc: Global,
    settings: &RawSettings,
    table: &[u64],
    list: &[u8],
    portal_room: usize,
    staging_room: usize,
) -> Result<PlannedOperations, RawRefusal>
    requires { settings.now.version ≡ 2 }
    ensures { MatchResult result
        (λ p. IsPlannedList settings.now table.now list.now (operation_submission_of p)
        × FitsIn (operation_submission_of p) portal_room staging_room)
        (λ r. (0 < r.number)
        × Refuses settings.now table.now list.now portal_room staging_room r) }
{
    match &by_size(settings, table) {
        Ok(checked) => plan_under(alloc, checked, list, portal_room, staging_room),
        Err(_) => Err(settings_refusal(settings)),
    }
}

/// The planned list with one price for all batches.
#[inline(never)]
fn plan_at_one_price(
    alloc: Global,
    settings: &RawSettings,
    table: &[u64],
    list: &[u8],
    portal_room: usize,
    staging_room: usize,
) -> Result<PlannedOperations, RawRefusal>
    requires { settings.now.version ≡ 1 }
    ensures { MatchResult result
        (λ p. IsPlannedList settings.now table.now list.now (operation_submission_of p)
        × FitsIn (operation_submission_of p) portal_room staging_room)
        (λ r. (0 < r.number)
        × Refuses settings.now table.now list.now portal_room staging_room r) }
{
    // Tested before, so that the compiler knows below that there are settings, and does not copy them.
    let Ok(_) = same_price(settings) else {
        return Err(settings_refusal(settings));
    };
    match &same_price(settings) {
        Ok(checked) => plan_under(alloc, checked, list, portal_room, staging_room),
        Err(_) => Err(settings_refusal(settings)),
    }
}

/// The planned list, if it is planned and its bytes fit.
pub(crate) fn plan_for(
    alloc: Global,
    settings: &RawSettings,
    table: &[u64],
    list: &[u8],
    portal_room: usize,
    staging_room: usize,
) -> Result<PlannedOperations, RawRefusal>
    ensures { MatchResult result
        (λ p. IsPlannedList settings.now table.now list.now (operation_submission_of p)
        × FitsIn (operation_submission_of p) portal_room staging_room)
        (λ r. (0 < r.number)
        × Refuses settings.now table.now list.now portal_room staging_room r) }
{
    if settings.version == 1 {
        return plan_at_one_price(alloc, settings, table, list, portal_room, staging_room);
    }
    if settings.version == 2 {
        return plan_by_size(alloc, settings, table, list, portal_room, staging_room);
    }
    Err(settings_refusal(settings))
}

/// Plans the operations that the bytes of `list` spell, checksums too, and writes the bytes that submit the plan of
/// least cost to `portal` and `staging`. An operation with the flag 0x0001, fence, begins after a barrier; if it is
/// split, its first piece does. The plan keeps each barrier, and no legal plan that does costs less. It returns 0 then;
/// else it returns the number of the refusal, and has written only `refusal`.
#[unsafe(no_mangle)]
pub extern "C" fn dsa_plan_list(
    alloc: Global,
    settings: &RawSettings,
    table: &[u64],
    list: &[u8],
    portal: &mut [u8],
    staging: &mut [u8],
    planned: &mut RawPlanned,
    refusal: &mut RawRefusal,
) -> u32
    // What is written is the emission of the planned list, at the front of the buffers, and their rest is unchanged.
    ensures planned { result ≡ 0 →
        IsWritten settings.now table.now list.now
        portal.old portal.new staging.old staging.new planned.new }
    // Otherwise the buffers are unchanged, and the refusal has its cause.
    ensures unchanged { result ≢ 0 →
        (portal.new ≡ portal.old) × (staging.new ≡ staging.old) × (planned.new ≡ planned.old) }
    ensures refused { result ≢ 0 → (result ≡ refusal.new.number)
        × Refuses settings.now table.now list.now
        (length portal.old) (length staging.old) refusal.new }
    ensures quiet { result ≡ 0 → refusal.new ≡ refusal.old }
{
    match plan_for(alloc, settings, table, list, portal.len(), staging.len()) {
        Ok(answer) => {
            put(portal, &answer.emission.portal);
            put(staging, &answer.emission.staging);
            *planned = summary(&answer);
            0
        }
        Err(cause) => {
            *refusal = cause;
            cause.number
        }
    }
}
