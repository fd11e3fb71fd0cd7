use crate::given::move_bytes;
use dsa_calls::{
    PlanFault, check_bytes, judge_bytes, plan_list, refusal_line, replay_bytes, run_bytes,
    run_gated,
};
use dsa_checker::CheckFault;
use dsa_core::{CoreFault, Event, Kind};
use dsa_descriptor::{FieldFault, ListFault};
use dsa_engines::{Gate, GateShut, RoomFault};
use dsa_image::Image;
use dsa_plan::{Certificate, EmissionFault, EntryFault, Group, LegalFault, Plan, Settings};
use dsa_splitter::SplitFault;
use std::alloc::{AllocError, Global};
use std::rt::Clock;
use std::sync::atomic::{AtomicU32, Ordering};
use std::test::Fail;
use std::thread;
use std::time::Duration;

/// Two moves, the second of which reads what the first writes.
fn two_moves(alloc: Global) -> Result<Vec<u8>, AllocError> {
    let mut list = Vec::new(alloc);
    list.extend_from_slice(&move_bytes(0x1000, 0x2000, 64, 0x8000))?;
    list.extend_from_slice(&move_bytes(0x2000, 0x4000, 64, 0x8020))?;
    Ok(list)
}

/// The batch entry of two descriptors at 0x10000 and a record at 0x10080, and the bytes at 0x10000.
fn two_moves_emitted(alloc: Global) -> Result<(Vec<u8>, Vec<u8>), AllocError> {
    let mut portal = Vec::new(alloc);
    portal.extend_from_slice(&[0, 0, 0, 0, 0x0c, 0, 0, 0x01, 0x80, 0, 0x01, 0, 0, 0, 0, 0])?;
    portal.extend_from_slice(&[0, 0, 0x01, 0, 0, 0, 0, 0, 0, 0, 0, 0, 0, 0, 0, 0])?;
    portal.extend_from_slice(&[2, 0, 0, 0, 0, 0, 0, 0, 0, 0, 0, 0, 0, 0, 0, 0])?;
    portal.extend_from_slice(&[0; 16])?;
    let mut fenced = move_bytes(0x2000, 0x4000, 64, 0x8020);
    fenced[4] = 0x0d;
    let mut staging = Vec::new(alloc);
    staging.extend_from_slice(&move_bytes(0x1000, 0x2000, 64, 0x8000))?;
    staging.extend_from_slice(&fenced)?;
    staging.extend_from_slice(&[0; 32])?;
    Ok((portal, staging))
}

fn settings() -> Result<Settings, Fail> {
    Ok(Settings::new(4, 4096, 10, 14, 3, 65536)?)
}

fn certificate(alloc: Global, last: u64) -> Result<Certificate, AllocError> {
    let mut prices = Vec::new(alloc);
    prices.extend_from_slice(&[0, 10, last])?;
    let mut pairs = Vec::new(alloc);
    pairs.push(Some((0, 1)))?;
    pairs.push(None)?;
    Ok(Certificate {
        version: 1,
        prices,
        pairs,
    })
}

/// The plan is one batch of two with a fence between.
fn is_fenced_pair(plan: &Plan) -> bool {
    match plan.groups() {
        [group] => group.fences() == [false, true].as_slice(),
        _ => false,
    }
}

#[test]
fn two_moves_are_planned_judged_and_checked(rt: HostRuntime) -> Result<(), Fail> {
    let (alloc, settings) = (rt.alloc(), settings()?);
    let list = two_moves(alloc)?;
    let planned = plan_list(alloc, &list, &settings)?;
    let certificate = certificate(alloc, 17)?;
    let (portal, staging) = two_moves_emitted(alloc)?;
    let judged = judge_bytes(alloc, &list, &planned.plan, &settings);
    let checked = check_bytes(alloc, &portal, &staging, &settings, &certificate);
    let found = (
        planned.cost,
        planned.pieces.len(),
        is_fenced_pair(&planned.plan),
    );
    assert!(rt; (found, judged, checked) == ((17, 2, true), Ok(17), Ok(17)));
    assert!(rt;
        planned.certificate == certificate
            && planned.emission.portal == portal
            && planned.emission.staging == staging
    );
    Ok(())
}

/// An image of so many zeros from address 0.
fn zeros(alloc: Global, count: usize) -> Result<Image, Fail> {
    let mut bytes = Vec::new(alloc);
    bytes.resize(count, 0)?;
    match Image::new(0, bytes) {
        Ok(image) => Ok(image),
        Err(_) => Err(Fail::new("no image")),
    }
}

/// 2,048 moves of 2,047 pages, whose runs have 4,196,352 events.
fn long_list(alloc: Global) -> Result<Vec<u8>, AllocError> {
    let mut list = Vec::new(alloc);
    for _ in 0..2048 {
        list.extend_from_slice(&move_bytes(0, 0x80_0000, 0x7f_f000, 0x7f_f000))?;
    }
    Ok(list)
}

#[test]
fn refuses_runs_in_order(rt: HostRuntime) -> Result<(), Fail> {
    let alloc = rt.alloc();
    let list = long_list(alloc)?;
    let settings = Settings::new(1024, 1 << 30, 10, 14, 3, 1 << 40)?;
    let small = zeros(alloc, 4096)?;
    let large = zeros(alloc, 0x100_0000)?;
    for (image, engines, fault) in [
        (&small, 0, PlanFault::Engines),
        (&small, 65, PlanFault::Engines),
        (&small, 1, PlanFault::OutOfImage(0)),
        (&large, 1, PlanFault::Core(CoreFault::TooLong)),
        (&large, 64, PlanFault::Core(CoreFault::TooLong)),
    ] {
        let replayed = replay_bytes(alloc, &list, &settings, image, engines, &[]).err();
        let ran = run_bytes(&rt, alloc, &list, &settings, image, engines).err();
        assert!(rt; (replayed, ran) == (Some(fault), Some(fault)));
    }
    Ok(())
}

/// Holds each piece before its finish until so many engines are there, and refuses where they don't come.
#[derive(Drop)]
struct Meeting<'a, R: Clock> {
    rt: &'a R,
    engines: u32,
    here: AtomicU32,
}

impl<'a, R: Clock> Gate for Meeting<'a, R> {
    fn before(&self, event: &Event) -> Result<(), GateShut> {
        if event.kind != Kind::Finish {
            return Ok(());
        }
        let _before = self.here.fetch_add(1, Ordering::SeqCst);
        for _ in 0..10_000 {
            if self.here.load(Ordering::SeqCst) >= self.engines {
                return Ok(());
            }
            thread::sleep(self.rt, Duration::from_millis(1));
        }
        Err(GateShut)
    }

    fn after(&self, _event: &Event) -> Result<(), GateShut> {
        Ok(())
    }
}

#[test]
fn as_many_engines_run_as_are_asked_for(rt: HostRuntime) -> Result<(), Fail> {
    let alloc = rt.alloc();
    let mut list = Vec::new(alloc);
    for (src, dst, record_at) in [(0, 0x20, 0x80), (0x40, 0x60, 0xa0), (8, 0x28, 0xc0)] {
        list.extend_from_slice(&move_bytes(src, dst, 8, record_at))?;
    }
    let gate = Meeting {
        rt: &rt,
        engines: 3,
        here: AtomicU32::new(0),
    };
    let image = zeros(alloc, 256)?;
    let outcome = run_gated(&rt, alloc, &list, &settings()?, &image, 3, &gate)?;
    assert_eq!(rt; outcome.finished, 3);
    Ok(())
}

#[test]
fn writes_lines_of_refusals(rt: HostRuntime) {
    for (fault, line) in [
        (PlanFault::List(ListFault::Length), "refused 1 Length\n"),
        (
            PlanFault::List(ListFault::Field(7, FieldFault::RecordMeetsData)),
            "refused 13 RecordMeetsData 7\n",
        ),
        (
            PlanFault::Split(SplitFault::DeltaTooLong(3)),
            "refused 30 DeltaTooLong 3\n",
        ),
        (
            PlanFault::Legal(LegalFault::Unfenced(0, usize::MAX)),
            "refused 43 Unfenced 0 18446744073709551615\n",
        ),
        (
            PlanFault::Emission(EmissionFault::Entry(1, EntryFault::Field(FieldFault::Reserved))),
            "refused 47 Entry 1 4 Reserved\n",
        ),
        (
            PlanFault::Emission(EmissionFault::Entry(2, EntryFault::StagingMeets)),
            "refused 47 Entry 2 33 StagingMeets\n",
        ),
        (
            PlanFault::Check(CheckFault::Plan(LegalFault::Unfenced(0, 1))),
            "refused 60 Plan 43 Unfenced 0 1\n",
        ),
        (
            PlanFault::Check(CheckFault::Plan(LegalFault::Count)),
            "refused 60 Plan 40 Count\n",
        ),
        (
            PlanFault::Check(CheckFault::Price(0, 3)),
            "refused 63 Price 0 3\n",
        ),
        (
            PlanFault::Core(CoreFault::NotAStep(4)),
            "refused 76 NotAStep 4\n",
        ),
        (PlanFault::Memory, "refused 73 Memory\n"),
        (PlanFault::Room(RoomFault::Stale), "refused 71 Stale\n"),
        (PlanFault::JobTooLong, "refused 86 JobTooLong\n"),
    ] {
        assert_eq!(rt; refusal_line(fault).as_str(), line);
    }
}

#[test]
fn out_of_memory_is_one_cause(rt: HostRuntime) {
    for fault in [
        PlanFault::from(ListFault::Memory),
        PlanFault::from(SplitFault::Memory),
        PlanFault::from(EmissionFault::Memory),
        PlanFault::from(CoreFault::Memory),
        PlanFault::from(RoomFault::Memory),
    ] {
        assert_eq!(rt; fault, PlanFault::Memory);
    }
}
