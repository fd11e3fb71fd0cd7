//! Running the planned pieces of a list by engines.

ghost use Rattle.std.specs.Prelude.{◌≡◌, IfOk, Ok, Result, map};
ghost use Rattle.dsa_descriptor.specs.Descriptors.{fields};
ghost use Rattle.dsa_core.specs.Given.{IsRunnable};
ghost use Rattle.dsa_core.specs.DescriptorRooms.{IsOutcomeOf};
ghost use Rattle.dsa_core.specs.Outcomes.{room_with};
ghost use Rattle.dsa_calls.specs.Planned.{Plans, Submission};
ghost use Rattle.dsa_calls.specs.Lists.{OrMemory};
ghost use Rattle.dsa_calls.specs.Runs.{CanBegin, LeavesWhole, OrShut, OverPlanned, Runs, RunsPieces, left_of};

use crate::fault::PlanFault;
use crate::replaying::prepare;
use dsa_core::Outcome;
use dsa_descriptor::Descriptor;
use dsa_engines::{Gate, OpenGate, run};
use dsa_image::Image;
use dsa_plan::{Plan, Settings};
use std::alloc::Global;
use std::sync::Wait;
use std::thread::Threads;

/// What the engines leave; each engine is a thread.
fn run_pieces<G: Gate + Sync, R: Threads + Wait + Sync>(
    rt: &R,
    alloc: Global,
    plan: &Plan,
    pieces: &[Descriptor],
    image: &Image,
    engines: u8,
    gate: &G,
) -> Result<Outcome, PlanFault>
    requires asked { IsRunnable image.now plan.now pieces.now engines }
    requires can { CanBegin image.now engines (map fields pieces.now) }
    ensures answer { OrMemory left_of (OrShut G.may_refuse
        (RunsPieces image.now engines plan.now (map fields pieces.now))) result }
    ensures history { IfOk result (λ o. IsOutcomeOf
        (room_with image.now plan.now (map fields pieces.now) engines o.history.items) o) }
{
    let outcome = run(rt, alloc, image, plan, pieces, engines, gate)?;
    Ok(outcome)
}

/// As [`run_bytes`], with a gate that the engines ask before and after each event: a test holds them there.
///
/// # Errors
/// As [`run_bytes`]; [`PlanFault::Room`] with `GateShut` if a gate that may refuse did so.
pub fn run_gated<G: Gate + Sync, R: Threads + Wait + Sync>(
    rt: &R,
    alloc: Global,
    list: &[u8],
    settings: &Settings,
    image: &Image,
    engines: u64,
    gate: &G,
) -> Result<Outcome, PlanFault>
    ensures answer { OrMemory left_of
        (OverPlanned (λ p o. OrShut G.may_refuse
        (RunsPieces image.now engines p.plan (map fields p.pieces)) o)
        list.now settings.now image.now engines) result }
    ensures history { IfOk result (λ o. (p : Submission) → Plans list.now settings.now (Ok p) →
        IsOutcomeOf (room_with image.now p.plan (map fields p.pieces) engines o.history.items) o) }
    ensures as_in_order { IfOk result
        (λ o. LeavesWhole list.now settings.now image.now (left_of o)) }
{
    let ready = prepare(alloc, list, settings, image, engines)?;
    run_pieces(
        rt,
        alloc,
        &ready.plan,
        &ready.pieces,
        image,
        ready.engines,
        gate,
    )
}

/// Plans the list, and runs its pieces on a copy of the image by engines, each of which is a thread. All of them have
/// ended when it returns.
///
/// # Errors
/// As [`plan_list`](crate::plan_list()); else [`PlanFault::Engines`]; else [`PlanFault::OutOfImage`]
/// with the first piece that the image doesn't hold; else [`PlanFault::Core`] with `TooLong`; all
/// these before the search for a plan. [`PlanFault::Memory`] if an allocation or the start of a
/// thread fails. [`PlanFault::Room`] with `Stale` or `Mixed` says that the run broke off.
pub fn run_bytes<R: Threads + Wait + Sync>(
    rt: &R,
    alloc: Global,
    list: &[u8],
    settings: &Settings,
    image: &Image,
    engines: u64,
) -> Result<Outcome, PlanFault>
    ensures answer { OrMemory left_of (Runs list.now settings.now image.now engines) result }
    // The history is a complete run of the planned pieces, and the rest is what it leaves.
    ensures history { IfOk result (λ o. (p : Submission) → Plans list.now settings.now (Ok p) →
        IsOutcomeOf (room_with image.now p.plan (map fields p.pieces) engines o.history.items) o) }
    // If each listed operation succeeds, what is left is the memory of executing the list in order.
    ensures as_in_order { IfOk result
        (λ o. LeavesWhole list.now settings.now image.now (left_of o)) }
{
    run_gated(rt, alloc, list, settings, image, engines, &OpenGate)
}
