//! Why the plan of a list has its fences and its groups, into an array of the caller.

ghost use Rattle.std.specs.Prelude.{◌≡◌, ◌≢◌, ◌<◌, ◌≤◌, IfOk, length, MatchResult};
ghost use Rattle.dsa_descriptor.specs.Pieces.{most_pieces};
ghost use Rattle.dsa_settings.specs.Plan.{piece_count};
ghost use Rattle.dsa_c.specs.Explaining.{IsExplainedInto, RefusesExplain};
ghost use Rattle.dsa_c.specs.Planning.{AreOfPlan};
ghost use Rattle.dsa_c.specs.Reasons.{AreReasonsOf};

use crate::buffer::put;
use crate::marks::marks_of;
use crate::planning::planned_for;
use crate::reasons::{RawReason, raw_reasons};
use crate::refusal::{RawRefusal, refusal, refusal_at};
use crate::settings::RawSettings;
use dsa_calls::PlanFault;
use dsa_lists::AnyPlanned;
use dsa_reasons::cut_reasons;
use std::alloc::{AllocError, Global};

/// The number of the refusal of an array that is too small for the reasons.
pub const NO_ROOM_FOR_REASONS: u32 = 94;

/// Why what is planned has its fences and its groups.
fn reasons_of(alloc: Global, planned: &AnyPlanned) -> Result<Vec<RawReason>, AllocError>
    requires all { piece_count planned.now.plan ≡ length planned.now.operations.items }
    requires few { length planned.now.operations.items ≤ most_pieces }
    ensures { IfOk result (λ reasons. AreReasonsOf planned.now.operations.items
        planned.now.barriers.items planned.now.plan reasons.items) }
{
    let (plan, operations) = (&planned.plan, planned.operations.as_slice());
    let fences = cut_reasons(alloc, plan, operations, &planned.barriers)?;
    let marks = marks_of(alloc, plan)?;
    raw_reasons(alloc, operations, &marks, &fences)
}

/// The reasons of the plan of a list, if it is planned and they fit.
fn reasons_for(
    alloc: Global,
    settings: &RawSettings,
    table: &[u64],
    list: &[u8],
    room: usize,
) -> Result<Vec<RawReason>, RawRefusal>
    ensures { MatchResult result
        (λ reasons. AreOfPlan AreReasonsOf settings.now table.now list.now reasons.items
        × (length reasons.items ≤ room))
        (λ r. (0 < r.number) × RefusesExplain settings.now table.now list.now room r) }
{
    let planned = match planned_for(alloc, settings, table, list) {
        Ok(planned) => planned,
        Err(cause) => return Err(cause),
    };
    let Ok(reasons) = reasons_of(alloc, &planned) else {
        return Err(refusal(PlanFault::Memory));
    };
    if reasons.len() > room {
        return Err(refusal_at(NO_ROOM_FOR_REASONS, reasons.len() as u64, 0));
    }
    Ok(reasons)
}

/// Plans a list as [`dsa_plan_list`](crate::dsa_plan_list) does, and writes to `reasons` why the plan has its fences
/// and its groups: in order, one for each fenced piece and one for each that a group after the first begins with; and
/// to `count` how many they are. It returns 0 then; else it returns the number of the refusal, and has written only
/// `refusal`.
#[unsafe(no_mangle)]
pub extern "C" fn dsa_explain_list(
    alloc: Global,
    settings: &RawSettings,
    table: &[u64],
    list: &[u8],
    reasons: &mut [RawReason],
    count: &mut u64,
    refusal: &mut RawRefusal,
) -> u32
    // What is written are the reasons, at the front of the array, and its rest is unchanged.
    ensures explained { result ≡ 0 → IsExplainedInto settings.now table.now list.now
        reasons.old reasons.new count.new }
    ensures unchanged { result ≢ 0 → (reasons.new ≡ reasons.old) × (count.new ≡ count.old) }
    ensures refused { result ≢ 0 → (result ≡ refusal.new.number)
        × RefusesExplain settings.now table.now list.now (length reasons.old) refusal.new }
    ensures quiet { result ≡ 0 → refusal.new ≡ refusal.old }
{
    match reasons_for(alloc, settings, table, list, reasons.len()) {
        Ok(found) => {
            put(reasons, &found);
            *count = found.len() as u64;
            0
        }
        Err(cause) => {
            *refusal = cause;
            cause.number
        }
    }
}
