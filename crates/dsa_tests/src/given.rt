//! Descriptors and lists that the tests of several crates use, and what engines can run.

ghost use Rattle.std.specs.Prelude.{◌<◌, ◌≤◌, IsTrue, length};
ghost use Rattle.dsa_descriptor.specs.Pieces.{most_pieces};
ghost use Rattle.dsa_settings.specs.Legal.{IsLegal};
ghost use Rattle.dsa_core.specs.Accounts.{most_members};
ghost use Rattle.dsa_core.specs.Given.{IsReady, IsRunnable};
ghost use Rattle.dsa_core.specs.OperationWork.{operation_work};

use dsa_core::holds_operations;
use dsa_descriptor::{Descriptor, FieldFault, MOST_PIECES};
use dsa_image::Image;
use dsa_operations::Operation;
use dsa_plan::{Plan, Settings};
use dsa_ranges::Piece;
use dsa_settings::is_legal_with;
use std::alloc::{AllocError, Global};

/// The bytes of an operation: its code, its record's address, the numbers at bytes 16, 24 and 40, and its size.
pub(crate) fn descriptor_bytes(
    code: u8,
    record_at: u64,
    first: u64,
    second: u64,
    own: u64,
    size: u32,
) -> [u8; 64] {
    let mut bytes = [0; 64];
    bytes[4] = 0x0c;
    bytes[7] = code;
    bytes[8..16].copy_from_slice(&record_at.to_le_bytes());
    bytes[16..24].copy_from_slice(&first.to_le_bytes());
    bytes[24..32].copy_from_slice(&second.to_le_bytes());
    bytes[32..36].copy_from_slice(&size.to_le_bytes());
    bytes[40..48].copy_from_slice(&own.to_le_bytes());
    bytes
}

/// The bytes of an operation with nothing at 40.
pub(crate) fn operation(code: u8, first: u64, second: u64, size: u32, record_at: u64) -> [u8; 64] {
    descriptor_bytes(code, record_at, first, second, 0, size)
}

/// A descriptor of this code and these flags. `data` goes to bytes 16, 24 and 40.
pub(crate) fn descriptor(
    code: u8,
    flags: u8,
    record_at: u64,
    size: u32,
    data: [u64; 3],
) -> Result<Descriptor, FieldFault> {
    let mut bytes = descriptor_bytes(code, record_at, data[0], data[1], data[2], size);
    bytes[4] = flags;
    Descriptor::read(&bytes)
}

/// The bytes of moves of 64 bytes, from a source and a destination each, with records of 32 bytes from 0x8000 on.
pub(crate) fn moves(alloc: Global, moves: &[(u64, u64)]) -> Result<Vec<u8>, AllocError> {
    let mut list = Vec::new(alloc);
    let mut record_at = 0x8000u64;
    for (src, dst) in moves {
        list.extend_from_slice(&operation(3, *src, *dst, 64, record_at))?;
        record_at = record_at.wrapping_add(0x20);
    }
    Ok(list)
}

/// The bytes of two descriptors, one after the other.
pub(crate) fn two(first: &[u8; 64], second: &[u8; 64]) -> [u8; 128] {
    let mut list = [0; 128];
    list[..64].copy_from_slice(first);
    list[64..].copy_from_slice(second);
    list
}

/// Writes the part at a place, if it fits there.
pub(crate) fn put(bytes: &mut Vec<u8>, place: usize, part: &[u8]) {
    if place <= bytes.len() {
        if part.len() <= bytes.len() - place {
            bytes[place..place + part.len()].copy_from_slice(part);
        }
    }
}

/// The bytes of a move.
pub(crate) fn move_bytes(src: u64, dst: u64, size: u32, record_at: u64) -> [u8; 64] {
    operation(3, src, dst, size, record_at)
}

/// The bytes of a fill.
pub(crate) fn fill_bytes(pattern: u64, dst: u64, size: u32, record_at: u64) -> [u8; 64] {
    operation(4, pattern, dst, size, record_at)
}

/// The bytes of a compare that expects a difference.
pub(crate) fn compare_bytes(src: u64, src2: u64, size: u32, record_at: u64) -> [u8; 64] {
    descriptor_bytes(5, record_at, src, src2, 1, size)
}

/// The bytes of a compare with a pattern that expects none.
pub(crate) fn pattern_bytes(src: u64, pattern: u64, size: u32, record_at: u64) -> [u8; 64] {
    operation(6, src, pattern, size, record_at)
}

/// The bytes of an application of a delta record of 20 bytes.
pub(crate) fn delta_bytes(delta: u64, dst: u64, size: u32, record_at: u64) -> [u8; 64] {
    descriptor_bytes(8, record_at, delta, dst, 20, size)
}

/// The bytes of a dualcast.
pub(crate) fn dualcast_bytes(src: u64, dst: u64, dst2: u64, size: u32, record_at: u64) -> [u8; 64] {
    descriptor_bytes(9, record_at, src, dst, dst2, size)
}

/// The bytes of a move of 64 bytes.
pub(crate) fn move_of(src: u64, dst: u64, record_at: u64) -> [u8; 64] {
    move_bytes(src, dst, 64, record_at)
}

/// Whether so many engines can run pieces of any kind under the plan, in memory that has what they read and write.
fn is_ready<P: Piece>(plan: &Plan, pieces: &[P], engines: u8) -> bool
    ensures few { IsTrue result → length pieces.now ≤ most_pieces }
    ensures legal { IsTrue result →
        IsLegal (P.conflict pieces.now) most_members (length pieces.now) plan.now }
    ensures some_engine { IsTrue result → 0 < engines }
    ensures few_engines { IsTrue result → engines ≤ 64 }
{
    if pieces.len() > MOST_PIECES {
        return false;
    }
    if engines == 0 {
        return false;
    }
    if engines > 64 {
        return false;
    }
    let Ok(settings) = Settings::new(1024, 4096, 1, 1, 1, 65536) else {
        return false;
    };
    is_legal_with(plan, pieces, &[], &settings).is_ok()
}

/// Whether engines can run the descriptors under the plan, on this image.
pub(crate) fn can_run(image: &Image, plan: &Plan, pieces: &[Descriptor], engines: u8) -> bool
    ensures { IsTrue result → IsRunnable image.now plan.now pieces.now engines }
{
    if !is_ready(plan, pieces, engines) {
        return false;
    }
    image.holds_all(pieces).is_ok()
}

/// Whether engines can run the operations under the plan, on this image.
pub(crate) fn can_run_operations(
    image: &Image,
    plan: &Plan,
    pieces: &[Operation],
    engines: u8,
) -> bool
    ensures { IsTrue result → IsReady operation_work image.now plan.now pieces.now engines }
{
    if !is_ready(plan, pieces, engines) {
        return false;
    }
    holds_operations(image, pieces)
}
