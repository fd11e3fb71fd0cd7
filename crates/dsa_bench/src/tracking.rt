//! Submissions in flight: a tracker takes lists of moves, and completes them in no order.

use crate::timing::nanos_each;
use dsa_descriptor::Span;
use dsa_tracker::{Slots, words};
use std::alloc::{AllocError, Global};
use std::io;
use std::time::Instant;

/// How many operations all lists have together.
const OPERATIONS: u64 = 8192;

/// How often all lists are submitted and completed; the best time counts.
const ROUNDS: u32 = 50;

/// The length of a page.
const PAGE: u64 = 4096;

/// Which pages the moves of all lists take.
#[derive(Clone, Copy)]
enum Pages {
    /// From each page to the next one.
    Rising,
    /// From page to page, no page twice, in no order.
    Shuffled,
    /// Any of so few that lists often conflict.
    Few,
}

impl Pages {
    /// What is printed of them.
    fn name(self) -> &'static str {
        match self {
            Pages::Rising => "rising",
            Pages::Shuffled => "shuffled",
            Pages::Few => "few",
        }
    }

    /// The page of this index. Multiples of an odd number meet every page of a power of two once.
    fn page(self, index: u64) -> u64 {
        match self {
            Pages::Rising => index,
            Pages::Shuffled => index.wrapping_mul(0x9e35) % (2 * OPERATIONS),
            Pages::Few => (index.wrapping_mul(0x9e37_79b9_7f4a_7c15) >> 48) % 65521,
        }
    }
}

/// What a list reads and writes.
#[derive(Drop)]
struct Accesses {
    reads: Vec<Span>,
    writes: Vec<Span>,
}

/// The accesses of the list of this number: its moves, and their completion records in a row.
fn accesses_of(
    alloc: Global,
    pages: Pages,
    list: u64,
    length: u64,
) -> Result<Accesses, AllocError> {
    let mut reads = Vec::new(alloc);
    let mut writes = Vec::new(alloc);
    for index in 0..length {
        let twice = list
            .wrapping_mul(length)
            .wrapping_add(index)
            .wrapping_mul(2);
        let source = pages.page(twice).wrapping_mul(PAGE);
        let target = pages.page(twice.wrapping_add(1)).wrapping_mul(PAGE);
        reads.push(Span {
            first: source,
            len: PAGE,
        })?;
        writes.push(Span {
            first: target,
            len: PAGE,
        })?;
    }
    writes.push(Span {
        first: (1u64 << 40).wrapping_add(list.wrapping_mul(PAGE)),
        len: length.wrapping_mul(32),
    })?;
    Ok(Accesses { reads, writes })
}

/// Completes the submission at this place of those in flight.
fn complete(tracker: &mut [u64], flying: &mut Vec<u32>, place: usize) {
    if place < flying.len() {
        let slot = flying.swap_remove(place);
        let _ = words::complete(tracker, slot);
    }
}

/// Completes those that a submission waits for.
fn complete_awaited(tracker: &mut [u64], flying: &mut Vec<u32>, waits: Slots) {
    if waits.is_empty() {
        return;
    }
    for slot in 0..64u32 {
        if waits.contains(slot) {
            let place = flying.iter().position(|other| *other == slot).unwrap_or(0);
            complete(tracker, flying, place);
        }
    }
}

/// Submits each list, with so many in flight at most, and completes all.
fn fly(tracker: &mut [u64], lists: &[Accesses], flying: &mut Vec<u32>, most: usize) {
    let mut drawn = 1u64;
    for list in lists {
        drawn = drawn.wrapping_mul(0x5851_f42d_4c95_7f2d).wrapping_add(1);
        if flying.len() >= most {
            let place = ((drawn >> 33) as usize)
                .checked_rem(flying.len())
                .unwrap_or(0);
            complete(tracker, flying, place);
        }
        if let Ok(submitted) = words::submit_spans(
            tracker,
            &list.reads,
            &list.writes,
            Slots::EMPTY,
        ) {
            complete_awaited(tracker, flying, submitted.waits);
            let _ = flying.push(submitted.slot);
        }
    }
    for _ in 0..flying.len() {
        complete(tracker, flying, 0);
    }
}

/// Measures lists of this length, with so many in flight.
fn measure(rt: &HostRuntime, pages: Pages, length: u64, most: usize) -> io::Result<()> {
    let mut lists = Vec::new(rt.alloc());
    for list in 0..OPERATIONS.checked_div(length).unwrap_or(0) {
        lists.push(accesses_of(rt.alloc(), pages, list, length)?)?;
    }
    let mut tracker = words::begun(rt.alloc(), 64, 200, 14, 12)?;
    let mut flying = Vec::with_capacity(rt.alloc(), 64)?;
    let mut best = u128::MAX;
    for _ in 0..ROUNDS {
        let start = Instant::now(rt)?;
        fly(&mut tracker, &lists, &mut flying, most);
        let time = start.elapsed(rt)?;
        best = best.min(nanos_each(time, 1, OPERATIONS as usize));
    }
    let name = pages.name();
    println!(rt; "{name} pages, {length} moves a list, {most} in flight: {best} ns a move")
}

/// Measures submitting and completing lists of several lengths.
pub(crate) fn measure_tracker(rt: &HostRuntime) -> io::Result<()> {
    for pages in [Pages::Rising, Pages::Shuffled, Pages::Few] {
        for length in [8u64, 32, 64] {
            for most in [4usize, 32, 63] {
                measure(rt, pages, length, most)?;
            }
        }
    }
    Ok(())
}
