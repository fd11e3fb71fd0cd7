//! Runs of operations by several engines, checksums among them.

use crate::engines::image_of;
use crate::given::can_run_operations;
use dsa_checksum::{Variant, checksum};
use dsa_core::{Outcome, replay_work};
use dsa_engines::{OpenGate, run_operations};
use dsa_image::Image;
use dsa_operations::Operation;
use dsa_plan::{Group, Plan};
use std::alloc::{AllocError, Global};
use std::sync::Wait;
use std::test::Fail;
use std::thread::Threads;

/// An operation of this code, with the numbers at bytes 16 and 24, its size and its record's address. It reads a seed
/// in memory if there is an address of one.
fn operation(
    code: u8,
    first: u64,
    second: u64,
    size: u32,
    record_at: u64,
    seed_at: Option<u64>,
) -> Result<Operation, Fail> {
    let mut bytes = [0; 64];
    bytes[4] = 0x0c;
    bytes[7] = code;
    bytes[8..16].copy_from_slice(&record_at.to_le_bytes());
    bytes[16..24].copy_from_slice(&first.to_le_bytes());
    bytes[24..32].copy_from_slice(&second.to_le_bytes());
    bytes[32..36].copy_from_slice(&size.to_le_bytes());
    if let Some(address) = seed_at {
        bytes[6] = 1;
        bytes[48..56].copy_from_slice(&address.to_le_bytes());
    }
    match Operation::read(&bytes) {
        Ok(operation) => Ok(operation),
        Err(_) => Err(Fail::new("no operation")),
    }
}

/// A comparison of 8 bytes at two addresses that are expected to be equal, with its record's address.
fn checked_comparison(first: u64, second: u64, record_at: u64) -> Result<Operation, Fail> {
    let mut bytes = [0; 64];
    bytes[4] = 0x8c;
    bytes[7] = 5;
    bytes[8..16].copy_from_slice(&record_at.to_le_bytes());
    bytes[16..24].copy_from_slice(&first.to_le_bytes());
    bytes[24..32].copy_from_slice(&second.to_le_bytes());
    bytes[32] = 8;
    match Operation::read(&bytes) {
        Ok(operation) => Ok(operation),
        Err(_) => Err(Fail::new("no comparison")),
    }
}

/// What the operations of one batch with these fences leave of these bytes, from address 0 on. The history is replayed,
/// which has to give the same outcome.
fn outcome_of<R: Threads + Wait + Sync>(
    rt: &R,
    alloc: Global,
    bytes: &[u8],
    fences: &[bool],
    pieces: &[Operation],
    engines: u8,
) -> Result<Outcome, Fail> {
    let image = image_of(Vec::from_slice(alloc, bytes)?)?;
    let mut groups = Vec::new(alloc);
    groups.push(Group::new(Vec::from_slice(alloc, fences)?))?;
    let plan = Plan::new(groups);
    if !can_run_operations(&image, &plan, pieces, engines) {
        return Err(Fail::new("no run"));
    }
    let run = run_operations(rt, alloc, &image, &plan, pieces, engines, &OpenGate);
    let Ok(outcome) = run else {
        return Err(Fail::new("the run has no outcome"));
    };
    let again = replay_work(alloc, &image, &plan, pieces, engines, &outcome.history);
    let Ok(again) = again else {
        return Err(Fail::new("the history is refused"));
    };
    if again.image != outcome.image || again.finished != outcome.finished {
        return Err(Fail::new("the history leaves something else"));
    }
    Ok(outcome)
}

/// Whether an outcome has these bytes at an address.
fn has(outcome: &Outcome, at: usize, bytes: &[u8]) -> bool {
    let end = at.saturating_add(bytes.len());
    match outcome.image.bytes().get(at..end) {
        Some(left) => left == bytes,
        None => false,
    }
}

/// A checksum of five digits, and after a fence one of four more that goes on from its value. The value of all nine is
/// one that others have published.
#[test]
fn a_checksum_goes_on_from_another(rt: HostRuntime) -> Result<(), Fail> {
    let alloc = rt.alloc();
    let mut bytes = [0; 128];
    bytes[..9].copy_from_slice(b"123456789");
    let chain = [
        operation(0x10, 0, 0, 5, 0x20, None)?,
        operation(0x10, 5, 0, 4, 0x40, Some(0x30))?,
    ];
    for engines in [1, 2, 64] {
        let outcome = outcome_of(&rt, alloc, &bytes, &[false, true], &chain, engines)?;
        assert_eq!(rt; outcome.finished, 2);
        assert!(rt;
            has(
                &outcome,
                0x40,
                &[1, 0, 0, 0, 0, 0, 0, 0, 0, 0, 0, 0, 0, 0, 0, 0]
            )
        );
        assert!(rt; has(&outcome, 0x50, &[0x83, 0x92, 0x06, 0xe3, 0, 0, 0, 0]));
    }
    Ok(())
}

/// A part of some bytes.
fn part(bytes: &[u8], from: usize, to: usize) -> Result<&[u8], Fail> {
    match bytes.get(from..to) {
        Some(part) => Ok(part),
        None => Err(Fail::new("no part")),
    }
}

/// 32 KiB, of which the first 5,000 bytes are not zero.
fn some_bytes(alloc: Global) -> Result<Vec<u8>, AllocError> {
    let mut bytes = vec![in alloc; 0u8; 0x8000]?;
    for (k, byte) in bytes.iter_mut().enumerate() {
        if k < 5000 {
            *byte = (k % 251) as u8 + 1;
        }
    }
    Ok(bytes)
}

/// Copies with their checksums, of two lines each, beside a move.
#[test]
fn copies_have_their_checksums(rt: HostRuntime) -> Result<(), Fail> {
    let alloc = rt.alloc();
    let bytes = some_bytes(alloc)?;
    let (all, others) = (part(&bytes, 0, 5000)?, part(&bytes, 1, 5000)?);
    let pieces = [
        operation(0x11, 0, 0x2000, 5000, 0x7000, None)?,
        operation(0x11, 1, 0x4000, 4999, 0x7020, None)?,
        operation(3, 0, 0x6000, 8, 0x7040, None)?,
    ];
    let plain = Variant {
        bypasses_inversion: false,
        bypasses_data_reflection: false,
    };
    let fences = [false, false, false];
    for engines in [1, 3] {
        let outcome = outcome_of(&rt, alloc, &bytes, &fences, &pieces, engines)?;
        assert_eq!(rt; outcome.finished, 3);
        assert!(rt; has(&outcome, 0x2000, all));
        assert!(rt; has(&outcome, 0x4000, others));
        assert!(rt; has(&outcome, 0x6000, part(&bytes, 0, 8)?));
        assert!(rt; has(&outcome, 0x7010, &checksum(plain, 0, all).to_le_bytes()));
        assert!(rt; has(&outcome, 0x7030, &checksum(plain, 0, others).to_le_bytes()));
    }
    Ok(())
}

/// After a comparison that fails nothing after the fence is done, and no record of it is written.
#[test]
fn nothing_follows_a_failed_comparison(rt: HostRuntime) -> Result<(), Fail> {
    let alloc = rt.alloc();
    let mut bytes = [0; 256];
    bytes[0] = 1;
    let pieces = [
        checked_comparison(0, 8, 0x40)?,
        operation(0x10, 0x10, 0, 16, 0x60, None)?,
        operation(0x11, 0, 0x20, 8, 0x80, None)?,
    ];
    for engines in [1, 2, 5] {
        let outcome = outcome_of(&rt, alloc, &bytes, &[false, false, true], &pieces, engines)?;
        assert_eq!(rt; outcome.finished, 2);
        assert!(rt; has(&outcome, 0x40, &[2]));
        assert!(rt; has(&outcome, 0x60, &[1]));
        assert!(rt; has(&outcome, 0x20, &bytes[0x20..0x28]));
        assert!(rt; has(&outcome, 0x80, &bytes[0x80..0xa0]));
    }
    Ok(())
}
