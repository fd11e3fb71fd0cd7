//! Stamps at places, and the greatest stamp of a range of places. A new stamp is never below an earlier one.

ghost use Rattle.std.specs.Prelude.{◌≡◌, ℕ, ◌+◌, ◌*◌, ◌/◌, ◌<◌, ◌≤◌, length, slice_index, IfOk};
ghost use Rattle.dsa_conflicts.specs.Latest.{FitAll, IsAmong, IsLatestOf, Stamped};
ghost use Rattle.dsa_conflicts.specs.Stamps.{AreAtMost, AreStamps, AtMost, Covered, Fits, IsGreater, IsLatest, IsMost, Sums, covers_at, join, places_of, points_at};

use std::alloc::{AllocError, Global};

/// How many places have a stamp of their own on the next level.
const BLOCK: usize = 64;

/// Places from `from` to before `to`.
#[derive(Clone, Copy, Default)]
pub(crate) struct Range {
    pub(crate) from: usize,
    pub(crate) to: usize,
}

/// Stamps for each place, for each block of places, and for each block of blocks.
#[derive(Drop)]
struct Levels {
    places: Vec<u32>,
    blocks: Vec<u32>,
    tops: Vec<u32>,
}

/// Stamps of ranges: the greatest one that begins at each place, and the greatest one that covers it.
#[derive(Drop)]
pub(crate) struct Stamps {
    /// A block has the greatest stamp of its places.
    points: Levels,
    /// A place has its own stamp and those of its block and of the block of that.
    covers: Levels,
}

/// Sets the stamps from `from` to before `to`.
fn cover(stamps: &mut [u32], from: usize, to: usize, stamp: u32)
    requires order { from ≤ to }
    requires bound { to ≤ length stamps.old }
    ensures { Covered (slice_index stamps.old) (slice_index stamps.new) from to stamp }
{
    for place in from..to {
        stamps[place] = stamp;
    }
}

/// The same if whole blocks have stamps of their own.
fn cover_blocks(places: &mut [u32], blocks: &mut [u32], from: usize, to: usize, stamp: u32)
    requires order { from ≤ to }
    requires bound { to ≤ length places.old }
    requires blocks { length places.old ≤ 64 * length blocks.old }
    requires most { AtMost (join (slice_index places.old) (slice_index blocks.old)) stamp }
    ensures { Covered (join (slice_index places.old) (slice_index blocks.old))
        (join (slice_index places.new) (slice_index blocks.new)) from to stamp }
{
    let first = from.div_ceil(BLOCK);
    let end = to / BLOCK;
    if first >= end {
        cover(places, from, to, stamp);
        return;
    }
    cover(places, from, first * BLOCK, stamp);
    cover(places, end * BLOCK, to, stamp);
    cover(blocks, first, end, stamp);
}

/// The same if blocks of blocks have stamps, too.
fn cover_levels(
    places: &mut [u32],
    blocks: &mut [u32],
    tops: &mut [u32],
    from: usize,
    to: usize,
    stamp: u32,
)
    requires order { from ≤ to }
    requires bound { to ≤ length places.old }
    requires blocks { length places.old ≤ 64 * length blocks.old }
    requires tops { length blocks.old ≤ 64 * length tops.old }
    requires most { AtMost (join
        (slice_index places.old) (join (slice_index blocks.old) (slice_index tops.old))) stamp }
    ensures { Covered (join (slice_index places.old)
        (join (slice_index blocks.old) (slice_index tops.old))) (join (slice_index places.new)
        (join (slice_index blocks.new) (slice_index tops.new))) from to stamp }
{
    let first = from.div_ceil(BLOCK);
    let end = to / BLOCK;
    if first >= end {
        cover(places, from, to, stamp);
        return;
    }
    cover(places, from, first * BLOCK, stamp);
    cover(places, end * BLOCK, to, stamp);
    cover_blocks(blocks, tops, first, end, stamp);
}

/// The greatest stamp from `from` to before `to`; 0 if there is none.
fn most(stamps: &[u32], from: usize, to: usize) -> u32
    requires order { from ≤ to }
    requires bound { to ≤ length stamps.now }
    ensures { IsMost (slice_index stamps.now) from to result }
{
    let mut most = 0;
    for place in from..to {
        most = stamps[place].max(most);
    }
    most
}

/// The greater of a known stamp and the greatest one of places within one block. The places are not looked at if the
/// stamp of their block is no greater.
fn greater_in_block(places: &[u32], blocks: &[u32], from: usize, to: usize, known: u32) -> u32
    requires order { from ≤ to }
    requires bound { to ≤ length places.now }
    requires near { to ≤ from / 64 * 64 + 64 }
    requires blocks { length places.now ≤ 64 * length blocks.now }
    requires sums { Sums (slice_index places.now) (slice_index blocks.now) }
    ensures { IsGreater (slice_index places.now) from to known result }
{
    if from == to {
        return known;
    }
    if blocks[from / BLOCK] <= known {
        return known;
    }
    known.max(most(places, from, to))
}

/// The greatest stamp from `from` to before `to`, if blocks have the greatest stamp of their places.
fn most_in_blocks(places: &[u32], blocks: &[u32], from: usize, to: usize) -> u32
    requires order { from ≤ to }
    requires bound { to ≤ length places.now }
    requires blocks { length places.now ≤ 64 * length blocks.now }
    requires sums { Sums (slice_index places.now) (slice_index blocks.now) }
    ensures { IsMost (slice_index places.now) from to result }
{
    let first = from.div_ceil(BLOCK);
    let end = to / BLOCK;
    if first >= end {
        return most(places, from, to);
    }
    let within = most(blocks, first, end);
    let before = greater_in_block(places, blocks, from, first * BLOCK, within);
    greater_in_block(places, blocks, end * BLOCK, to, before)
}

/// The same if blocks of blocks have, too.
fn most_in_levels(places: &[u32], blocks: &[u32], tops: &[u32], from: usize, to: usize) -> u32
    requires order { from ≤ to }
    requires bound { to ≤ length places.now }
    requires blocks { length places.now ≤ 64 * length blocks.now }
    requires tops { length blocks.now ≤ 64 * length tops.now }
    requires sums { Sums (slice_index places.now) (slice_index blocks.now) }
    requires tops_sum { Sums (slice_index blocks.now) (slice_index tops.now) }
    ensures { IsMost (slice_index places.now) from to result }
{
    let first = from.div_ceil(BLOCK);
    let end = to / BLOCK;
    if first >= end {
        return most(places, from, to);
    }
    let within = most_in_blocks(blocks, tops, first, end);
    let before = greater_in_block(places, blocks, from, first * BLOCK, within);
    greater_in_block(places, blocks, end * BLOCK, to, before)
}

impl Levels {
    /// No stamps at so many places.
    fn new(alloc: Global, count: usize) -> Result<Levels, AllocError>
        ensures fits { IfOk result (Fits count) }
        ensures places { IfOk result (λ l. (p : ℕ) → slice_index l.places.items p ≡ 0) }
        ensures blocks { IfOk result (λ l. (p : ℕ) → slice_index l.blocks.items p ≡ 0) }
        ensures tops { IfOk result (λ l. (p : ℕ) → slice_index l.tops.items p ≡ 0) }
    {
        let blocks = count.div_ceil(BLOCK);
        let tops = blocks.div_ceil(BLOCK);
        Ok(Levels {
            places: vec![in alloc; 0; count]?,
            blocks: vec![in alloc; 0; blocks]?,
            tops: vec![in alloc; 0; tops]?,
        })
    }
}

impl Stamps {
    /// No stamps at so many places.
    pub(crate) fn new(alloc: Global, count: usize) -> Result<Stamps, AllocError>
        ensures stamps { IfOk result AreStamps }
        ensures count { IfOk result (λ m. places_of m ≡ count) }
        ensures none { IfOk result (AreAtMost 0) }
    {
        Ok(Stamps {
            points: Levels::new(alloc, count)?,
            covers: Levels::new(alloc, count)?,
        })
    }

    /// The greatest stamp of a range that meets this one: one that begins in it, or covers where it begins.
    fn latest(&self, range: Range) -> u32
        requires stamps { AreStamps self.now }
        requires order { range.from < range.to }
        requires bound { range.to ≤ places_of self.now }
        ensures { IsLatest (points_at self.now) (covers_at self.now) range.from range.to result }
    {
        let Levels {
            places,
            blocks,
            tops,
        } = &self.points;
        let within = most_in_levels(places, blocks, tops, range.from, range.to);
        let block = range.from / BLOCK;
        let place = self.covers.places[range.from];
        let above = self.covers.blocks[block].max(self.covers.tops[block / BLOCK]);
        within.max(place.max(above))
    }

    /// Stamps the range.
    fn stamp(&mut self, range: Range, stamp: u32)
        requires stamps { AreStamps self.old }
        requires most { AreAtMost stamp self.old }
        requires order { range.from < range.to }
        requires bound { range.to ≤ places_of self.old }
        ensures stamps { AreStamps self.new }
        ensures most { AreAtMost stamp self.new }
        ensures count { places_of self.new ≡ places_of self.old }
        ensures points { Covered
            (points_at self.old) (points_at self.new) range.from (range.from + 1) stamp }
        ensures covers { Covered
            (covers_at self.old) (covers_at self.new) range.from range.to stamp }
    {
        let block = range.from / BLOCK;
        self.points.places[range.from] = stamp;
        self.points.blocks[block] = stamp;
        self.points.tops[block / BLOCK] = stamp;
        let Levels {
            places,
            blocks,
            tops,
        } = &mut self.covers;
        cover_levels(places, blocks, tops, range.from, range.to, stamp);
    }
}

/// The greatest stamp of a range that meets one of these.
pub(crate) fn latest_of(stamps: &Stamps, ranges: &[Range]) -> u32
    requires stamps { AreStamps stamps.now }
    requires fit { FitAll ranges.now (places_of stamps.now) }
    ensures { IsLatestOf
        (points_at stamps.now) (covers_at stamps.now) ranges.now (length ranges.now) result }
{
    let mut latest = 0;
    for range in ranges {
        if range.from < range.to {
            latest = stamps.latest(*range).max(latest);
        }
    }
    latest
}

/// Stamps the ranges.
pub(crate) fn stamp_all(stamps: &mut Stamps, ranges: &[Range], stamp: u32)
    requires stamps { AreStamps stamps.old }
    requires most { AreAtMost stamp stamps.old }
    requires fit { FitAll ranges.now (places_of stamps.old) }
    ensures stamps { AreStamps stamps.new }
    ensures most { AreAtMost stamp stamps.new }
    ensures count { places_of stamps.new ≡ places_of stamps.old }
    ensures stamped { Stamped (IsAmong ranges.now (length ranges.now)) stamp
        (points_at stamps.old) (points_at stamps.new)
        (covers_at stamps.old) (covers_at stamps.new) }
{
    for range in ranges {
        if range.from < range.to {
            stamps.stamp(*range, stamp);
        }
    }
}
