//! Last conflicts of lists of several shapes, short and long.

ghost use Rattle.std.specs.Prelude.{◌≤◌, length};
ghost use Rattle.dsa_descriptor.specs.Pieces.{most_pieces};

use crate::operation::operation_of;
use crate::timing::nanos_each;
use dsa_conflicts::last_conflicts;
use dsa_descriptor::Descriptor;
use dsa_plan::Settings;
use dsa_search::search;
use std::alloc::{AllocError, Global};
use std::io;
use std::time::Instant;

/// The pieces of a long list.
const LONG: u64 = 65_536;

/// How pieces lie in memory.
#[derive(Clone, Copy, Debug)]
enum Shape {
    /// Moves each of which reads what the one before wrote.
    Chained,
    /// Moves that touch one area after another.
    Apart,
    /// Moves between pages anywhere, with records anywhere.
    Scattered,
    /// Moves between few buffers.
    Shared,
    /// Long moves whose sources lie over one another, and whose destinations do.
    Wide,
    /// Dualcasts of one byte, then compares over all that they write, again and again.
    Cast,
}

const SHAPES: [Shape; 6] = [
    Shape::Chained,
    Shape::Apart,
    Shape::Scattered,
    Shape::Shared,
    Shape::Wide,
    Shape::Cast,
];

/// A fixed sequence of numbers.
fn next(state: &mut u64) -> u64 {
    *state = state
        .wrapping_mul(6_364_136_223_846_793_005)
        .wrapping_add(1_442_695_040_888_963_407);
    *state >> 33
}

/// The bytes of a dualcast of one byte.
fn cast_of(place: u64, record_at: u64) -> [u8; 64] {
    let first = 0x2000_0000u64.wrapping_add(place.wrapping_mul(16));
    let mut bytes = operation_of(0x09, 0x1000_0000, first, 1, record_at);
    let second = first.wrapping_add(0x10_0000);
    bytes[40..48].copy_from_slice(&second.to_le_bytes());
    bytes
}

/// The bytes of the piece at this place of a list.
fn piece_of(shape: Shape, place: u64, state: &mut u64) -> [u8; 64] {
    let record_at = 0x1000u64.wrapping_add(place.wrapping_mul(32));
    let (a, b, c) = (next(state), next(state), next(state));
    match shape {
        Shape::Chained => {
            let source = 0x1000_0000u64.wrapping_add(place.wrapping_mul(64));
            operation_of(0x03, source, source.wrapping_add(64), 64, record_at)
        }
        Shape::Apart => {
            let source = 0x1000_0000u64.wrapping_add(place.wrapping_mul(4096));
            operation_of(0x03, source, source.wrapping_add(64), 64, record_at)
        }
        Shape::Scattered => {
            let destination = 0x1000_0000_0000u64.wrapping_add(b.wrapping_mul(4096));
            operation_of(
                0x03,
                a.wrapping_mul(4096),
                destination,
                4096,
                c.wrapping_mul(32),
            )
        }
        Shape::Shared => {
            let source = 0x1000_0000u64.wrapping_add((a % 32).wrapping_mul(4096));
            let destination = 0x2000_0000u64.wrapping_add((b % 32).wrapping_mul(4096));
            operation_of(0x03, source, destination, 4096, record_at)
        }
        Shape::Wide => {
            let source = 0x1000_0000u64.wrapping_add(a % 0x100_0000);
            let destination = 0x2000_0000u64.wrapping_add(b % 0x100_0000);
            operation_of(0x03, source, destination, 0x100_0000, record_at)
        }
        Shape::Cast if place % 1024 < 512 => cast_of(place % 1024, record_at),
        Shape::Cast => operation_of(0x05, 0x2000_0000, 0x2010_0000, 0x4000, record_at),
    }
}

/// A list of this shape, without what is no descriptor of a list.
fn list_of(alloc: Global, shape: Shape, count: u64) -> Result<Vec<Descriptor>, AllocError> {
    let mut state = 1;
    let mut pieces = Vec::new(alloc);
    for place in 0..count {
        if let Ok(piece) = Descriptor::read(&piece_of(shape, place, &mut state)) {
            pieces.push(piece)?;
        }
    }
    Ok(pieces)
}

/// Finds the last conflicts of the pieces so many times, and says how long that took for each piece.
fn find(rt: &HostRuntime, pieces: &[Descriptor], window: u32, times: u64) -> io::Result<u128>
    requires { length pieces.now ≤ most_pieces }
{
    let start = Instant::now(rt)?;
    for _ in 0..times {
        drop(last_conflicts(rt.alloc(), pieces, window)?);
    }
    Ok(nanos_each(start.elapsed(rt)?, times, pieces.len()))
}

/// The same of the whole search.
fn plan(
    rt: &HostRuntime,
    pieces: &[Descriptor],
    settings: &Settings,
    times: u64,
) -> io::Result<u128>
    requires { length pieces.now ≤ most_pieces }
{
    let start = Instant::now(rt)?;
    for _ in 0..times {
        drop(search(rt.alloc(), pieces, settings)?);
    }
    Ok(nanos_each(start.elapsed(rt)?, times, pieces.len()))
}

/// Measures a list of this shape.
fn measure_pieces(
    rt: &HostRuntime,
    shape: Shape,
    count: u64,
    pieces: &[Descriptor],
    settings: &Settings,
) -> io::Result<()> {
    if pieces.len() > 65_536 {
        return Ok(());
    }
    let times = if count < LONG { 1000 } else { 1 };
    let found = find(rt, pieces, 1023, times)?;
    let planned = plan(rt, pieces, settings, times)?;
    println!(rt;
        "{shape:?}, {count} pieces: conflicts {found} ns, search {planned} ns for each piece"
    )
}

/// Measures short lists, whose plans take little else, and long ones.
pub(crate) fn measure_conflicts(rt: &HostRuntime) -> io::Result<()> {
    let Ok(settings) = Settings::new(1024, 4096, 10, 14, 3, 0) else {
        return Ok(());
    };
    for shape in SHAPES {
        for count in [8, 32, 64, LONG] {
            let pieces = list_of(rt.alloc(), shape, count)?;
            measure_pieces(rt, shape, count, &pieces, &settings)?;
        }
    }
    Ok(())
}
