//! Whether regions in any order of their new bases have no address in common.

ghost use Rattle.std.specs.Prelude.{◌≡◌, ℕ, ◌<◌, ◌≤◌, length, map, slice_index, IsTrue};
ghost use Rattle.dsa_prepared.specs.Filling.{AllBelow, AreRising, IsApartFromEarlier};
ghost use Rattle.dsa_prepared.specs.Rows.{region_in};

use crate::filling::new_region;
use crate::row::Row;

/// The fewest regions that are sorted: for fewer, a look at each pair is faster.
const FEWEST_SORTED: usize = 17;

/// The most regions that are sorted. Their numbers lie on the stack, since filling allocates nothing.
const MOST_SORTED: usize = 1024;

/// The base of the region of that number.
fn base_of(bases: &[u64], region: u16) -> u64 {
    let region = region as usize;
    if region < bases.len() {
        bases[region]
    } else {
        0
    }
}

/// Makes the numbers of the regions, in the order of their bases. No clause says so: what relies on it tests it.
fn sort_by_base(order: &mut [u16], bases: &[u64])
    requires { length order.old ≤ 1024 }
    ensures { length order.new ≡ length order.old }
{
    for k in 0..order.len() {
        order[k] = k as u16;
    }
    order.sort_unstable_by_key(|region| base_of(bases, *region));
}

/// Whether these are numbers of regions, each of which ends before the next one begins.
fn are_rising(regions: &[Row], bases: &[u64], order: &[u16]) -> bool
    requires { length bases.now ≡ length regions.now }
    ensures { IsTrue result → AreRising (map region_in regions.now) bases.now
        order.now (length order.now) }
{
    let mut top = 0;
    for place in 0..order.len() {
        let number = order[place] as usize;
        if number >= regions.len() {
            return false;
        }
        let region = new_region(regions, bases, number);
        if u128::from(region.first) < top {
            return false;
        }
        top = region.end();
    }
    true
}

/// Notes for each number of the order its place.
fn set_ranks(order: &[u16], ranks: &mut [u16])
    requires { length order.now ≤ 1024 }
    ensures { length ranks.new ≡ length ranks.old }
{
    for place in 0..order.len() {
        let number = order[place] as usize;
        if number < ranks.len() {
            ranks[number] = place as u16;
        }
    }
}

/// Whether each number has the place in the order that is noted.
fn are_ranks(order: &[u16], ranks: &[u16]) -> bool
    requires { length ranks.now ≡ length order.now }
    ensures { IsTrue result → AllBelow (length order.now)
        (λ k. (p : ℕ) × (p < length order.now) × (slice_index order.now p ≡ k)) }
{
    for number in 0..order.len() {
        let place = ranks[number] as usize;
        if place >= order.len() {
            return false;
        }
        if order[place] as usize != number {
            return false;
        }
    }
    true
}

/// Whether no two regions have an address in common. The answer may also be no if there are too few or too many to
/// sort, or a region is empty.
#[inline(never)]
pub(crate) fn are_apart(regions: &[Row], bases: &[u64]) -> bool
    requires { length bases.now ≡ length regions.now }
    ensures { IsTrue result → AllBelow (length regions.now)
        (IsApartFromEarlier (map region_in regions.now) bases.now) }
{
    let count = regions.len();
    if count < FEWEST_SORTED {
        return false;
    }
    if count > MOST_SORTED {
        return false;
    }
    let mut numbers = [0u16; MOST_SORTED];
    let order = &mut numbers[..count];
    sort_by_base(order, bases);
    if !are_rising(regions, bases, order) {
        return false;
    }
    let mut places = [0u16; MOST_SORTED];
    let ranks = &mut places[..count];
    set_ranks(order, ranks);
    are_ranks(order, ranks)
}
