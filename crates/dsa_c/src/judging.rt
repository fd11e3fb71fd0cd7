//! Judging the caller's plan.

ghost use Rattle.std.specs.Prelude.{◌≡◌, ◌≢◌, ◌<◌, MatchResult};
ghost use Rattle.dsa_c.specs.Judging.{IsJudgedCost, RefusesJudge};

use crate::marks::plan_of;
use crate::refusal::{RawRefusal, refusal};
use crate::settings::{RawSettings, settings_of, settings_refusal};
use dsa_calls::PlanFault;
use dsa_lists::judge_any_list;
use std::alloc::Global;

/// The cost of the plan that the marks spell.
fn judge_for(
    alloc: Global,
    settings: &RawSettings,
    table: &[u64],
    list: &[u8],
    marks: &[u8],
) -> Result<u64, RawRefusal>
    ensures { MatchResult result
        (λ cost. IsJudgedCost settings.now table.now list.now marks.now cost)
        (λ r. (0 < r.number) × RefusesJudge settings.now table.now list.now marks.now r) }
{
    let Some(checked) = settings_of(settings, table) else {
        return Err(settings_refusal(settings));
    };
    let Ok(plan) = plan_of(alloc, marks) else {
        return Err(refusal(PlanFault::Memory));
    };
    match judge_any_list(alloc, list, &plan, &checked) {
        Ok(cost) => Ok(cost),
        Err(fault) => Err(refusal(fault)),
    }
}

/// Judges the plan that the marks spell, one for each operation of the list, checksums too, none of which is split, and
/// writes what it costs to `cost` if it may be submitted. The fences of the list are barriers, which the plan has to
/// keep. It returns 0 then; else it returns the number of the refusal, and has written only `refusal`.
#[unsafe(no_mangle)]
pub extern "C" fn dsa_judge(
    alloc: Global,
    settings: &RawSettings,
    table: &[u64],
    list: &[u8],
    marks: &[u8],
    cost: &mut u64,
    refusal: &mut RawRefusal,
) -> u32
    ensures judged { result ≡ 0 →
        IsJudgedCost settings.now table.now list.now marks.now cost.new }
    ensures unchanged { result ≢ 0 → cost.new ≡ cost.old }
    ensures refused { result ≢ 0 → (result ≡ refusal.new.number)
        × RefusesJudge settings.now table.now list.now marks.now refusal.new }
    ensures quiet { result ≡ 0 → refusal.new ≡ refusal.old }
{
    match judge_for(alloc, settings, table, list, marks) {
        Ok(found) => {
            *cost = found;
            0
        }
        Err(cause) => {
            *refusal = cause;
            cause.number
        }
    }
}
