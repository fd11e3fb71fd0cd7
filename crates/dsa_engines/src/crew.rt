//! The engines of one run.

ghost use Rattle.std.specs.Prelude.{◌≡◌, ◌<◌, ◌↔◌, ◌⊎◌, IfErr, IfOk, IsErrOf, map, true};
ghost use Rattle.dsa_core.specs.Given.{IsReady};
ghost use Rattle.dsa_core.specs.Outcomes.{IsOutcomeOf, room_with};
ghost use Rattle.dsa_core.specs.WorkRuns.{most_events, work_event_count};
ghost use Rattle.dsa_engines.specs.Ends.{early_end};

use crate::engine::engine;
use crate::fault::RoomFault;
use crate::gate::Gate;
use crate::shared::Shared;
use dsa_core::{CoreFault, Outcome, RoomOf, Workable};
use dsa_image::Image;
use dsa_settings::Plan;
use std::alloc::Global;
use std::sync::Wait;
use std::thread;
use std::thread::Threads;

/// Engines of which each is a thread.
pub(crate) trait Team {
    /// The engine of this number, from its first piece to its last.
    fn work<R: Wait>(&self, rt: &R, number: u8);

    /// Ends the run early.
    fn halt<R: Wait>(&self, rt: &R);
}

/// What engines share that do pieces of one kind.
#[derive(Drop)]
pub(crate) struct Crew<'a, P: Workable, G: Gate> {
    shared: Shared<'a, P, G>,
    pieces: &'a [P],
    gate: &'a G,
}

impl<'a, P: Workable, G: Gate> Team for Crew<'a, P, G> {
    fn work<R: Wait>(&self, rt: &R, number: u8) {
        engine(rt, &self.shared, number, self.pieces, self.gate);
    }

    fn halt<R: Wait>(&self, rt: &R) {
        self.shared.halt(rt);
    }
}

impl<'a, P: Workable, G: Gate> Crew<'a, P, G> {
    /// The crew of a run that hasn't begun.
    pub(crate) fn new(
        alloc: Global,
        image: &Image,
        plan: &Plan,
        pieces: &'a [P],
        engines: u8,
        gate: &'a G,
    ) -> Result<Crew<'a, P, G>, RoomFault>
        requires { IsReady P.work image.now plan.now pieces.now engines }
        ensures too_long { IsErrOf result RoomFault.TooLong ↔
            (most_events < work_event_count P.work.machine (map P.work.shown pieces.now)) }
        ensures faults { IfErr result
            (λ fault. (fault ≡ RoomFault.TooLong) ⊎ (fault ≡ RoomFault.Memory)) }
        ensures own { IfOk result (λ crew. crew.pieces.now ≡ pieces.now) }
    {
        let room = match RoomOf::new(alloc, image, plan, pieces, engines) {
            Ok(room) => room,
            Err(CoreFault::TooLong) => return Err(RoomFault::TooLong),
            Err(CoreFault::Memory) => return Err(RoomFault::Memory),
            // A new room has no trace.
            Err(CoreFault::NotAStep(_) | CoreFault::Incomplete) => unreachable!(),
        };
        Ok(Crew {
            shared: Shared::new(room),
            pieces,
            gate,
        })
    }

    /// What the run has left, once the engines have ended.
    pub(crate) fn end(
        self,
        all_started: bool,
        image: &Image,
        plan: &Plan,
        engines: u8,
    ) -> Result<Outcome, RoomFault>
        ensures shut { IsErrOf result RoomFault.GateShut → G.may_refuse ≡ true }
        ensures not_long { ¬ IsErrOf result RoomFault.TooLong }
        ensures outcome { IfOk result (λ o. IsOutcomeOf P.work
            (room_with image.now plan.now (map P.work.shown self.entry.pieces.now) engines
            o.history.items) o) }
    {
        let Crew {
            shared,
            pieces,
            gate: _,
        } = self;
        let end = early_end(all_started, shared.was_shut(), shared.was_stale());
        let room = shared.into_room();
        if let Some(fault) = end {
            return Err(fault);
        }
        outcome_of(room, image, plan, pieces, engines)
    }
}

/// Why a run ended early, if it did: a thread that could not be started comes before the gate, and the gate before work
/// that was out of date.
fn early_end(all_started: bool, was_shut: bool, was_stale: bool) -> Option<RoomFault>
    ensures { result ≡ early_end all_started was_shut was_stale }
{
    if !all_started {
        return Some(RoomFault::Memory);
    }
    if was_shut {
        return Some(RoomFault::GateShut);
    }
    if was_stale {
        return Some(RoomFault::Stale);
    }
    None
}

/// Starts the engines and waits until they have ended. Says whether all could be started; else the room is halted.
pub(crate) fn run_engines<T: Team + Sync, R: Threads + Wait + Sync>(
    rt: &R,
    team: &T,
    engines: u8,
) -> bool {
    thread::scope(thread::scope_env(), rt, |scope| {
        for number in 0..engines {
            if scope.spawn(move || team.work(rt, number)).is_err() {
                team.halt(rt);
                return false;
            }
        }
        true
    })
}

/// The outcome, if the room is finished and belongs to these inputs.
fn outcome_of<P: Workable>(
    room: RoomOf<P>,
    image: &Image,
    plan: &Plan,
    pieces: &[P],
    engines: u8,
) -> Result<Outcome, RoomFault>
    ensures mixed { IfErr result (λ fault. fault ≡ RoomFault.Mixed) }
    ensures outcome { IfOk result (λ o. IsOutcomeOf P.work
        (room_with image.now plan.now (map P.work.shown pieces.now) engines o.history.items) o) }
{
    if !room.is_of(image, plan, pieces, engines) {
        return Err(RoomFault::Mixed);
    }
    match room.into_outcome() {
        Ok(outcome) => Ok(outcome),
        Err(_room) => Err(RoomFault::Mixed),
    }
}
