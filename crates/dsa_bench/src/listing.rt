//! Lists planned whole: read, split, searched, and the bytes that submit the plan.

use crate::operation::operation_of;
use crate::timing::nanos_each;
use dsa_calls::plan_list;
use dsa_plan::Settings;
use std::alloc::{AllocError, Global};
use std::io;
use std::time::Instant;

/// How the moves of a list lie to each other. Each moves a page.
#[derive(Clone, Copy)]
enum Kind {
    /// From each page to the next one.
    Apart,
    /// From an area of rising sources to one of rising destinations.
    TwoAreas,
    /// From page to page, no page twice, in no order.
    Shuffled,
    /// Each reads what the one before writes.
    Chained,
    /// Between any of four pages for each move, so that some conflict.
    Random,
}

impl Kind {
    /// The kinds that are measured.
    const ALL: [Kind; 5] = [
        Kind::Apart,
        Kind::TwoAreas,
        Kind::Shuffled,
        Kind::Chained,
        Kind::Random,
    ];

    /// What is printed of it.
    fn name(self) -> &'static str {
        match self {
            Kind::Apart => "apart",
            Kind::TwoAreas => "two areas",
            Kind::Shuffled => "shuffled",
            Kind::Chained => "chained",
            Kind::Random => "random",
        }
    }

    /// The pages of source and destination of the move of this index, of `count`. Multiples of an odd number meet every
    /// page of a power of two once.
    fn pages(self, index: u64, count: u64) -> (u64, u64) {
        let twice = index.wrapping_mul(2);
        let all = count.wrapping_mul(2).max(1);
        match self {
            Kind::Apart => (twice, twice.wrapping_add(1)),
            Kind::TwoAreas => (index, count.wrapping_add(index)),
            Kind::Shuffled => (
                twice.wrapping_mul(0x9e35) % all,
                twice.wrapping_add(1).wrapping_mul(0x9e35) % all,
            ),
            Kind::Chained => (index, index.wrapping_add(1)),
            Kind::Random => (drawn(twice, count), drawn(twice.wrapping_add(1), count)),
        }
    }
}

/// A page of four for each move, by a hash.
fn drawn(number: u64, count: u64) -> u64 {
    let spread = number.wrapping_add(7).wrapping_mul(0x9e37_79b9_7f4a_7c15);
    let mixed = (spread ^ (spread >> 29)).wrapping_mul(0xbf58_476d_1ce4_e5b9);
    (mixed >> 33) % count.wrapping_mul(4).max(1)
}

/// The address of a page.
fn page(number: u64) -> u64 {
    number.wrapping_mul(4096).wrapping_add(0x1000_0000)
}

/// The bytes of so many moves of this kind.
fn moves(alloc: Global, count: u64, kind: Kind) -> Result<Vec<u8>, AllocError> {
    let mut list = Vec::new(alloc);
    let mut record_at = 0x1000u64;
    for index in 0..count {
        let (source, destination) = kind.pages(index, count);
        let bytes = operation_of(0x03, page(source), page(destination), 4096, record_at);
        list.extend_from_slice(&bytes)?;
        record_at = record_at.wrapping_add(32);
    }
    Ok(list)
}

/// Plans the list so many times, and says how long that took for each operation, in nanoseconds.
fn plan(rt: &HostRuntime, list: &[u8], settings: &Settings, times: u64) -> io::Result<u128> {
    let start = Instant::now(rt)?;
    for _ in 0..times {
        if plan_list(rt.alloc(), list, settings).is_err() {
            return Ok(0);
        }
    }
    Ok(nanos_each(start.elapsed(rt)?, times, list.len() / 64))
}

/// Copies the list so many times, and says how long that took for the list, in nanoseconds.
fn copy(rt: &HostRuntime, list: &[u8], times: u64) -> io::Result<u128> {
    let mut copied = Vec::from_slice(rt.alloc(), list)?;
    let start = Instant::now(rt)?;
    for _ in 0..times {
        copied.copy_from_slice(list);
    }
    Ok(nanos_each(start.elapsed(rt)?, times, 1))
}

/// Prints the best of several turns.
fn measure_list(rt: &HostRuntime, list: &[u8], kind: Kind, settings: &Settings) -> io::Result<()> {
    let mut planned = u128::MAX;
    let mut copied = u128::MAX;
    for _ in 0..200 {
        planned = planned.min(plan(rt, list, settings, 20)?);
        copied = copied.min(copy(rt, list, 20)?);
    }
    println!(rt;
        "{} moves, {}: planned in {planned} ns for each operation; the list is copied in {copied} ns",
        list.len() / 64,
        kind.name()
    )
}

/// Measures short lists of each kind: the best of several turns, beside a loop that only copies the descriptors.
pub(crate) fn measure_lists(rt: &HostRuntime) -> io::Result<()> {
    let Ok(settings) = Settings::new(32, 4096, 10, 14, 3, 1 << 40) else {
        return Ok(());
    };
    for kind in Kind::ALL {
        for count in [8, 32, 64] {
            let list = moves(rt.alloc(), count, kind)?;
            measure_list(rt, &list, kind, &settings)?;
        }
    }
    Ok(())
}
