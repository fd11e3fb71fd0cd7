//! Lists that publish only after a check, and whose check fails.

use crate::engines::{image_of, run_plan};
use dsa_calls::plan_fenced_list;
use dsa_engines::OpenGate;
use dsa_plan::Settings;
use std::alloc::{AllocError, Global};
use std::test::Fail;

/// An operation on 16 bytes, with these flags of the lower byte and its record at this address.
fn operation(flags: u8, code: u8, first: u16, second: u16, record_at: u16) -> [u8; 64] {
    let mut bytes = [0; 64];
    bytes[4] = flags;
    bytes[7] = code;
    bytes[8..10].copy_from_slice(&record_at.to_le_bytes());
    bytes[16..18].copy_from_slice(&first.to_le_bytes());
    bytes[24..26].copy_from_slice(&second.to_le_bytes());
    bytes[32] = 16;
    bytes
}

/// So many moves to 0x100; a compare of 0 with 0x40, which has to find no difference; and after a barrier so many moves
/// to 0x200. No two touch the same bytes but to read.
fn checked_list(alloc: Global, moves: u16, published: u16) -> Result<Vec<u8>, AllocError> {
    let mut list = Vec::new(alloc);
    let mut record_at = 0x300u16;
    for k in 0..moves {
        let to = k.wrapping_mul(16).wrapping_add(0x100);
        list.extend_from_slice(&operation(0x0c, 0x03, 0, to, record_at))?;
        record_at = record_at.wrapping_add(32);
    }
    list.extend_from_slice(&operation(0x8c, 0x05, 0, 0x40, record_at))?;
    for k in 0..published {
        let flags = if k == 0 { 0x0d } else { 0x0c };
        let to = k.wrapping_mul(16).wrapping_add(0x200);
        record_at = record_at.wrapping_add(32);
        list.extend_from_slice(&operation(flags, 0x03, 0, to, record_at))?;
    }
    Ok(list)
}

/// 2,048 bytes: 5a below 0x40, else zero.
fn unequal(alloc: Global) -> Result<Vec<u8>, AllocError> {
    let mut bytes = vec![in alloc; 0u8; 2048]?;
    for k in 0..0x40usize {
        bytes[k] = 0x5a;
    }
    Ok(bytes)
}

/// The check fails in each of 400 runs by four engines, so nothing is moved to 0x200.
#[test]
fn a_failed_check_publishes_nothing(rt: HostRuntime) -> Result<(), Fail> {
    let alloc = rt.alloc();
    let mut quiet = true;
    for turn in 0..400u64 {
        let (moves, published) = (turn % 5, turn / 5 % 4 + 1);
        let settings = Settings::new(turn / 20 % 8 + 2, 4096, 10, 14, turn % 13, 65536)?;
        let list = checked_list(alloc, moves as u16, published as u16)?;
        let planned = plan_fenced_list(alloc, &list, &settings)?;
        let image = image_of(unequal(alloc)?)?;
        let outcome = run_plan(
            &rt,
            alloc,
            &image,
            &planned.plan,
            &planned.pieces,
            4,
            &OpenGate,
        )??;
        let moved_to = outcome.image.bytes().get(0x200..0x240);
        quiet = quiet && moved_to == Some(&[0; 64][..]);
    }
    assert!(rt; quiet);
    Ok(())
}
