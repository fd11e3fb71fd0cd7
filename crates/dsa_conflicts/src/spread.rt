//! Last conflicts of a few pieces, without a sort: by units of addresses it is known which pieces to compare.

ghost use Rattle.std.specs.Prelude.{◌≡◌, ◌≢◌, ℕ, ◌+◌, ◌-◌, ◌<◌, ◌≤◌, ◌⊎◌, ◌↔◌, length, map, slice_index, false, IsTrue};
ghost use Rattle.dsa_descriptor.specs.Descriptors.{fields};
ghost use Rattle.dsa_descriptor.specs.Pieces.{most_pieces};
ghost use Rattle.dsa_descriptor.specs.Spans.{Meets, span};
ghost use Rattle.dsa_ranges.specs.Ranges.{Conflicts};
ghost use Rattle.dsa_conflicts.specs.Last.{HasLasts, IsBack};
ghost use Rattle.dsa_conflicts.specs.Overlaps.{last_at};
ghost use Rattle.dsa_conflicts.specs.Spread.{DataConflict, DataConflictAt, IsNoted, key_of};

use dsa_descriptor::{Descriptor, Op, data_at};
use dsa_ranges::{Touching, in_conflict};

/// How many places there are for the stamps of units.
const PLACES: usize = 2048;

/// The place of a unit: the highest bits of a product, so that units next to each other have places far apart.
#[tactic(auto, unfolding(crate::specs::Spread::key_of))]
fn key_of(unit: u64) -> usize
    ensures value { result ≡ key_of unit }
    ensures small { result < 2048 }
{
    (unit.wrapping_mul(0x9e37_79b9_7f4a_7c15) >> 53) as usize
}

/// Stamps the unit, and returns the stamp that it had.
fn mark(stamps: &mut [u8; PLACES], unit: u64, stamp: u8) -> u8
    requires { (k : ℕ) → slice_index stamps.old k ≤ stamp }
    ensures before { slice_index stamps.old (key_of unit) ≡ result }
    ensures set { slice_index stamps.new (key_of unit) ≡ stamp }
    ensures kept { (k : ℕ) → slice_index stamps.old k ≤ slice_index stamps.new k }
    ensures most { (k : ℕ) → slice_index stamps.new k ≤ stamp }
{
    let key = key_of(unit);
    let before = stamps[key];
    stamps[key] = stamp;
    before
}

/// Stamps the first and the last unit of a range. No stamp of theirs was greater than the answer.
fn mark_ends(stamps: &mut [u8; PLACES], first: u64, last: u64, stamp: u8) -> u8
    requires { (k : ℕ) → slice_index stamps.old k ≤ stamp }
    ensures first { slice_index stamps.old (key_of first) ≤ result }
    ensures last { slice_index stamps.old (key_of last) ≤ result }
    ensures set_first { stamp ≤ slice_index stamps.new (key_of first) }
    ensures set_last { stamp ≤ slice_index stamps.new (key_of last) }
    ensures kept { (k : ℕ) → slice_index stamps.old k ≤ slice_index stamps.new k }
    ensures most { (k : ℕ) → slice_index stamps.new k ≤ stamp }
{
    let before = mark(stamps, first, stamp);
    if last == first {
        return before;
    }
    mark(stamps, last, stamp).max(before)
}

/// The same of the units of two ranges.
fn mark_all(stamps: &mut [u8; PLACES], a: u64, b: u64, c: u64, d: u64, stamp: u8) -> u8
    requires { (k : ℕ) → slice_index stamps.old k ≤ stamp }
    ensures a { slice_index stamps.old (key_of a) ≤ result }
    ensures b { slice_index stamps.old (key_of b) ≤ result }
    ensures c { slice_index stamps.old (key_of c) ≤ result }
    ensures d { slice_index stamps.old (key_of d) ≤ result }
    ensures set_a { stamp ≤ slice_index stamps.new (key_of a) }
    ensures set_b { stamp ≤ slice_index stamps.new (key_of b) }
    ensures set_c { stamp ≤ slice_index stamps.new (key_of c) }
    ensures set_d { stamp ≤ slice_index stamps.new (key_of d) }
    ensures kept { (k : ℕ) → slice_index stamps.old k ≤ slice_index stamps.new k }
    ensures most { (k : ℕ) → slice_index stamps.new k ≤ stamp }
{
    let before = mark_ends(stamps, a, b, stamp);
    mark_ends(stamps, c, d, stamp).max(before)
}

/// The logarithm of a unit that is no shorter than any piece.
fn unit_of(pieces: &[Descriptor]) -> u32
    ensures { result < 64 }
{
    let mut most = 1;
    for d in pieces {
        most = d.size.max(most);
    }
    32u32
        .saturating_sub(most.saturating_sub(1).leading_zeros())
        .min(63)
}

/// Whether two spans that are not empty have an address in common: without a branch, since it is called often.
#[inline(always)]
fn overlap(first: u64, len: u32, other: u64, other_len: u32) -> bool
    requires some { 0 < len }
    requires other_some { 0 < other_len }
    ensures { IsTrue result ↔ Meets (span first len) (span other other_len) }
{
    let (gap, reach) = if first <= other {
        (other - first, len)
    } else {
        (first - other, other_len)
    };
    gap < u64::from(reach)
}

/// Whether two moves conflict by their data.
fn moves_conflict(
    src: u64,
    dst: u64,
    len: u32,
    other_src: u64,
    other_dst: u64,
    other_len: u32,
) -> bool
    requires some { 0 < len }
    requires other_some { 0 < other_len }
    ensures { IsTrue result ↔ (Meets (span dst len) (span other_src other_len)
        ⊎ Meets (span dst len) (span other_dst other_len)
        ⊎ Meets (span other_dst other_len) (span src len)) }
{
    overlap(dst, len, other_src, other_len)
        || overlap(dst, len, other_dst, other_len)
        || overlap(other_dst, other_len, src, len)
}

/// Whether the two conflict, for any operations.
#[cold]
#[inline(never)]
fn any_conflict(first: &Descriptor, second: &Descriptor) -> bool
    ensures known { IsTrue result → Conflicts (fields first.now) (fields second.now) }
    ensures none { result ≡ false → DataConflict (fields first.now) (fields second.now) → ⊥ }
{
    in_conflict(&first.touched_spans(), &second.touched_spans())
}

/// Whether the two are known to conflict: true if their data does. Most are moves.
fn conflict(first: &Descriptor, second: &Descriptor) -> bool
    ensures known { IsTrue result → Conflicts (fields first.now) (fields second.now) }
    ensures none { result ≡ false → DataConflict (fields first.now) (fields second.now) → ⊥ }
{
    let Op::Move { src, dst } = first.op else {
        return any_conflict(first, second);
    };
    let Op::Move {
        src: other_src,
        dst: other_dst,
    } = second.op
    else {
        return any_conflict(first, second);
    };
    moves_conflict(src, dst, first.size, other_src, other_dst, second.size)
}

/// The last piece before this one, at most `window` places back, that conflicts with it. No piece from `latest` on
/// conflicts with it by its data.
fn last_back(pieces: &[Descriptor], piece: usize, latest: usize, window: u32) -> Option<u32>
    requires few { length pieces.now ≤ most_pieces }
    requires inside { piece < length pieces.now }
    requires later { (other : ℕ) → latest ≤ other → other < piece →
        DataConflictAt (map fields pieces.now) other piece → ⊥ }
    ensures { IsNoted (map fields pieces.now) window piece result }
{
    let end = latest.min(piece);
    for back in 1..end + 1 {
        let other = end - back;
        if piece - other > window as usize {
            return None;
        }
        if conflict(&pieces[other], &pieces[piece]) {
            return Some(other as u32);
        }
    }
    None
}

/// Notes the last conflict of each piece; it is compared with pieces up to the last one that has a unit of its data, or
/// a place for one, in common with it. True only if that decides: the records have to rise, and to lie on one side of
/// all data. It stays a call, so that the loop has more registers.
#[inline(never)]
pub(crate) fn note_by_units(lasts: &mut [Option<u32>], pieces: &[Descriptor], window: u32) -> bool
    requires few { length pieces.now ≤ 64 }
    requires count { length lasts.old ≡ length pieces.now }
    requires blank { (b : ℕ) → last_at lasts.old b ≡ None }
    ensures { IsTrue result → HasLasts (map fields pieces.now) window lasts.new }
{
    let mut stamps = [0; PLACES];
    let shift = unit_of(pieces);
    let (mut low, mut high) = (u64::MAX, 0u64);
    let (mut from, mut to) = (u64::MAX, 0u64);
    for piece in 0..pieces.len() {
        let d = &pieces[piece];
        let Some((p, q)) = data_at(&d.op) else {
            return false;
        };
        let more = u64::from(d.size) - 1;
        if p > u64::MAX - more || q > u64::MAX - more || d.record_at > u64::MAX - 32 {
            return false;
        }
        if d.record_at < to {
            return false;
        }
        let (p_last, q_last) = (p + more, q + more);
        let (p_unit, q_unit) = (p >> shift, q >> shift);
        let (p_end, q_end) = (p_last >> shift, q_last >> shift);
        if p_end.saturating_sub(p_unit) > 1 || q_end.saturating_sub(q_unit) > 1 {
            return false;
        }
        let latest = mark_all(&mut stamps, p_unit, p_end, q_unit, q_end, piece as u8 + 1);
        lasts[piece] = last_back(pieces, piece, usize::from(latest), window);
        low = low.min(p).min(q);
        high = high.max(p_last).max(q_last);
        from = from.min(d.record_at);
        to = d.record_at + 32;
    }
    to <= low || high < from
}
