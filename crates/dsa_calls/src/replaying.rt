//! Replaying a list of events on the planned pieces of a list.

ghost use Rattle.std.specs.Prelude.{◌≡◌, ◌≤◌, ◌⊎◌, IfOk, MatchResult, Result, length, map};
ghost use Rattle.dsa_descriptor.specs.Descriptors.{fields};
ghost use Rattle.dsa_descriptor.specs.Pieces.{most_pieces};
ghost use Rattle.dsa_ranges.specs.Ranges.{ConflictAt};
ghost use Rattle.dsa_settings.specs.Legal.{IsLegal};
ghost use Rattle.dsa_core.specs.Accounts.{most_members};
ghost use Rattle.dsa_core.specs.Given.{IsRunnable};
ghost use Rattle.dsa_calls.specs.declared.fault.PlanFault.{PlanFault};
ghost use Rattle.dsa_calls.specs.declared.fault.PlanFault.TheVariants.{Memory};
ghost use Rattle.dsa_calls.specs.Lists.{OrMemory, IsOrMemory};
ghost use Rattle.dsa_settings.specs.Settings.{AreInLimits};
ghost use Rattle.dsa_calls.specs.Planned.{IsPlanOf};
ghost use Rattle.dsa_calls.specs.Runs.{BeginsWith, CanBegin, IsReady, Left, LeavesWhole, RefusesRun, Replays, ReplaysPieces, left_of};

use crate::fault::PlanFault;
use crate::planning::pieces_of;
use dsa_core::{CoreFault, Event, Outcome, events_within, replay};
use dsa_descriptor::{Descriptor, DescriptorList};
use dsa_image::{Image, ImageFault};
use dsa_plan::{Plan, Settings};
use dsa_search::{Found, search};
use std::alloc::{AllocError, Global};

/// What a run of a list needs.
#[derive(Drop)]
pub(crate) struct Ready {
    pub(crate) pieces: Vec<Descriptor>,
    pub(crate) plan: Plan,
    pub(crate) engines: u8,
}

/// The number of engines, if there are 1 to 64, the image holds the pieces, and a run of them isn't too long.
fn begin(image: &Image, pieces: &[Descriptor], engines: u64) -> Result<u8, PlanFault>
    ensures { BeginsWith image.now engines (map fields pieces.now) result }
{
    if engines < 1 {
        return Err(PlanFault::Engines);
    }
    if engines > 64 {
        return Err(PlanFault::Engines);
    }
    match image.holds_all(pieces) {
        Ok(()) => match events_within(pieces) {
            Some(_events) => Ok(engines as u8),
            None => Err(PlanFault::Core(CoreFault::TooLong)),
        },
        Err(ImageFault::OutOfImage(piece)) => Err(PlanFault::OutOfImage(piece)),
        Err(ImageFault::ImageSize) => unreachable!(),
    }
}

/// The chosen plan of the pieces. Its prices and pairs are dropped: a run doesn't need them.
fn chosen_plan(
    alloc: Global,
    pieces: &[Descriptor],
    settings: &Settings,
) -> Result<Plan, AllocError>
    requires { length pieces.now ≤ most_pieces }
    ensures chosen { IfOk result (λ plan. IsPlanOf settings.now pieces.now plan) }
    ensures legal { IfOk result (λ plan.
        IsLegal (ConflictAt (map fields pieces.now)) most_members (length pieces.now) plan) }
{
    // Its clause says that the settings are within their limits.
    let _greatest = settings.greatest_batch();
    let Found {
        plan,
        prices: _,
        pairs: _,
    } = search(alloc, pieces, settings)?;
    Ok(plan)
}

/// Splits the list, and plans its pieces if a run of them can begin. Each refusal but that of memory comes before the
/// search for a plan.
pub(crate) fn prepare(
    alloc: Global,
    list: &[u8],
    settings: &Settings,
    image: &Image,
    engines: u64,
) -> Result<Ready, PlanFault>
    ensures answer { MatchResult result
        (λ r. IsReady list.now settings.now image.now engines r.pieces.items r.plan r.engines)
        (λ fault. (fault ≡ Memory) ⊎ RefusesRun list.now settings.now image.now engines fault) }
    ensures runnable { IfOk result (λ r. IsRunnable image.now r.plan r.pieces.items r.engines) }
    ensures limits { AreInLimits settings.now }
{
    // Its clause says that the settings are within their limits.
    let _greatest = settings.greatest_batch();
    let DescriptorList {
        descriptors: pieces,
        barriers: _,
    } = pieces_of(alloc, list, settings)?;
    let engines = begin(image, &pieces, engines)?;
    let plan = chosen_plan(alloc, &pieces, settings)?;
    Ok(Ready {
        pieces,
        plan,
        engines,
    })
}

/// What the events leave, if they are a complete run of the plan.
fn replay_pieces(
    alloc: Global,
    plan: &Plan,
    pieces: &[Descriptor],
    image: &Image,
    engines: u8,
    trace: &[Event],
) -> Result<Outcome, PlanFault>
    requires asked { IsRunnable image.now plan.now pieces.now engines }
    requires can { CanBegin image.now engines (map fields pieces.now) }
    ensures answer { OrMemory left_of
        (ReplaysPieces image.now engines trace.now plan.now (map fields pieces.now)) result }
    ensures history { IfOk result (λ o. o.history.items ≡ trace.now) }
{
    let outcome = replay(alloc, image, plan, pieces, engines, trace)?;
    Ok(outcome)
}

/// Plans the list, and replays these events on its pieces: what they leave, if they are a complete run of the plan.
///
/// # Errors
/// As [`plan_list`](crate::plan_list()); else [`PlanFault::Engines`]; else [`PlanFault::OutOfImage`]
/// with the first piece that the image doesn't hold; else [`PlanFault::Core`] with `TooLong`; all
/// these before the search for a plan. Else [`PlanFault::Core`] with `NotAStep`, which names the first
/// event at which the run can't go on, or with `Incomplete` for a run that ends too early.
/// [`PlanFault::Memory`] if an allocation fails.
pub fn replay_bytes(
    alloc: Global,
    list: &[u8],
    settings: &Settings,
    image: &Image,
    engines: u64,
    trace: &[Event],
) -> Result<Outcome, PlanFault>
    ensures answer { OrMemory left_of
        (Replays list.now settings.now image.now engines trace.now) result }
    // What it answers is the one outcome, but for an allocation failure.
    ensures only { (outcome : Result Left PlanFault) →
        Replays list.now settings.now image.now engines trace.now outcome →
        IsOrMemory left_of outcome result }
    // The trace is the history.
    ensures history { IfOk result (λ o. o.history.items ≡ trace.now) }
    // If each listed operation succeeds, what is left is the memory of executing the list in order.
    ensures as_in_order { IfOk result
        (λ o. LeavesWhole list.now settings.now image.now (left_of o)) }
{
    let ready = prepare(alloc, list, settings, image, engines)?;
    replay_pieces(
        alloc,
        &ready.plan,
        &ready.pieces,
        image,
        ready.engines,
        trace,
    )
}
