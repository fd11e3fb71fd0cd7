use super::{batch, descriptor, image_of, run_plan};
use dsa_core::{Event, Kind};
use dsa_descriptor::Descriptor;
use dsa_engines::{Gate, GateShut, RoomFault};
use std::alloc::Global;
use std::hint::spin_loop;
use std::process::Abort;
use std::rt::Clock;
use std::sync::Wait;
use std::sync::atomic::{AtomicBool, AtomicU32, Ordering};
use std::test::Fail;
use std::thread;
use std::thread::Threads;
use std::time::Duration;

/// Lets no piece from `first` on be finished until so many of these were taken. A piece before them takes a while, the
/// first the longest, so that the other engines sleep when it is finished.
#[derive(Drop)]
struct Meeting<'a, R: Clock> {
    rt: &'a R,
    first: u32,
    wanted: u32,
    taken: AtomicU32,
}

impl<'a, R: Clock> Gate for Meeting<'a, R> {
    fn before(&self, event: &Event) -> Result<(), GateShut> {
        if event.kind != Kind::Finish {
            return Ok(());
        }
        if event.piece < self.first {
            let millis = if event.piece == 0 { 100 } else { 1 };
            thread::sleep(self.rt, Duration::from_millis(millis));
            return Ok(());
        }
        for _ in 0..10_000 {
            if self.taken.load(Ordering::SeqCst) >= self.wanted {
                return Ok(());
            }
            thread::sleep(self.rt, Duration::from_millis(1));
        }
        Err(GateShut)
    }

    fn after(&self, event: &Event) -> Result<(), GateShut> {
        if event.kind == Kind::Take && event.piece >= self.first {
            let _before = self.taken.fetch_add(1, Ordering::SeqCst);
        }
        Ok(())
    }
}

/// A move of 8 bytes for each place of a batch, no two of which conflict, in an image of 1,024 bytes.
fn moves_apart(alloc: Global, fences: &[bool]) -> Result<Vec<Descriptor>, Fail> {
    let mut moves = Vec::new(alloc);
    let mut turn = 0u64;
    for _ in fences {
        let at = 16 * (turn % 16);
        moves.push(descriptor(3, at, 0x100 + at, 8, 0x200 + 2 * at)?)?;
        turn = turn.wrapping_add(1);
    }
    Ok(moves)
}

/// Engines do the pieces of this batch, of which as many from `first` on have to be in work at once.
fn meet<R: Threads + Wait + Clock + Abort + Sync>(
    rt: &R,
    alloc: Global,
    fences: &[bool],
    first: u32,
    engines: u8,
) -> Result<(), Fail> {
    let moves = moves_apart(alloc, fences)?;
    let image = image_of(vec![in alloc; 1u8; 1024]?)?;
    let plan = batch(alloc, fences)?;
    let gate = Meeting {
        rt,
        first,
        wanted: u32::from(engines),
        taken: AtomicU32::new(0),
    };
    let outcome = run_plan(rt, alloc, &image, &plan, &moves, engines, &gate)??;
    assert_eq!(rt; outcome.finished as usize, fences.len());
    Ok(())
}

#[test]
fn three_engines_are_at_work_at_once(rt: HostRuntime) -> Result<(), Fail> {
    meet(&rt, rt.alloc(), &[false; 8], 0, 3)
}

/// The engine that finishes the first piece wakes the three others.
#[test]
fn a_finish_wakes_all_engines(rt: HostRuntime) -> Result<(), Fail> {
    meet(&rt, rt.alloc(), &[false, true, false, false, false], 1, 4)
}

/// Two of three engines find nothing to take after each of 200 fences, and take a piece after the last one.
#[test]
fn engines_are_woken_in_vain(rt: HostRuntime) -> Result<(), Fail> {
    let alloc = rt.alloc();
    let mut fences = vec![in alloc; true; 203]?;
    for (place, fence) in fences.iter_mut().enumerate() {
        *fence = place > 0 && place <= 200;
    }
    meet(&rt, alloc, &fences, 200, 3)
}

/// The pieces beside the first one that no fence comes before, each with an engine of its own.
const OTHERS: u32 = 3;

/// Refuses the finish of the first piece once all others before the fence were finished, whose engines ask for their
/// next piece just then, each a little later than the one before. Notes whether the piece after the fence is taken all
/// the same.
#[derive(Drop)]
struct RefusesFinish {
    pauses: u32,
    finished: AtomicU32,
    waits: AtomicBool,
    refused: AtomicBool,
    goes_on: AtomicBool,
}

/// Waits for a flag, without sleep.
fn spin_for(flag: &AtomicBool) {
    for _ in 0..4_000_000_000u32 {
        if flag.load(Ordering::SeqCst) {
            return;
        }
        spin_loop();
    }
}

impl Gate for RefusesFinish {
    fn before(&self, event: &Event) -> Result<(), GateShut> {
        if event.kind != Kind::Finish || event.piece != 0 {
            return Ok(());
        }
        spin_for(&self.waits);
        self.refused.store(true, Ordering::SeqCst);
        Err(GateShut)
    }

    fn after(&self, event: &Event) -> Result<(), GateShut> {
        if event.piece == OTHERS + 1 {
            self.goes_on.store(true, Ordering::SeqCst);
            return Ok(());
        }
        if event.kind == Kind::Finish {
            if self.finished.fetch_add(1, Ordering::SeqCst) + 1 == OTHERS {
                self.waits.store(true, Ordering::SeqCst);
            }
            spin_for(&self.refused);
            for _ in 0..self.pauses.wrapping_mul(event.piece) {
                spin_loop();
            }
        }
        Ok(())
    }
}

/// If a refused finish were done all the same, an engine could take what comes after the fence before the room is
/// halted. That takes less than a microsecond, so three engines ask for it, and it is tried with many pauses.
#[test]
fn a_refused_finish_is_not_done(rt: HostRuntime) -> Result<(), Fail> {
    let alloc = rt.alloc();
    let fences = [false, false, false, false, true];
    let moves = moves_apart(alloc, &fences)?;
    let image = image_of(vec![in alloc; 1u8; 1024]?)?;
    let plan = batch(alloc, &fences)?;
    for turn in 0..400u32 {
        let gate = RefusesFinish {
            pauses: turn % 40,
            finished: AtomicU32::new(0),
            waits: AtomicBool::new(false),
            refused: AtomicBool::new(false),
            goes_on: AtomicBool::new(false),
        };
        let ended = run_plan(&rt, alloc, &image, &plan, &moves, 4, &gate)?;
        assert!(rt; matches!(ended, Err(RoomFault::GateShut)));
        assert!(rt; !gate.goes_on.load(Ordering::SeqCst));
    }
    Ok(())
}
