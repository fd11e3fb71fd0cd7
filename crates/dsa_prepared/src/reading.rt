//! Reading the rows of a prepared submission.

ghost use Rattle.std.specs.Prelude.{◌≡◌, ℕ, ◌+◌, ◌^◌, ◌<◌, ◌≤◌, ◌↔◌, All, IsTrue, MatchOption, length, map};
ghost use Rattle.dsa_descriptor.specs.Pieces.{most_pieces};
ghost use Rattle.dsa_prepared.specs.Rows.{AreBounds, ArePrepared, HaveHeader, IsBound, entry_in, header_word, portal_rows, region_in, region_rows, row_at, staging_at, staging_rows, tie_in, tie_rows, unit_in, word_in};
ghost use Rattle.dsa_prepared.specs.Preparing.{region_at};
ghost use Rattle.dsa_prepared.specs.Sound.{AreUnits, AreWithin, IsTieWithin, IsUnit, IsWithin};

use crate::row::Row;
use crate::writing::MAGIC;

/// The most pieces that a planned list has.
const MOST_PIECES: usize = 65_536;

/// Offsets in the staging area of the most pieces are below this.
const STAGING_END: u64 = 1 << 23;

/// The header's word of that number.
#[inline(always)]
pub(crate) fn header_word(rows: &[Row], k: usize) -> usize
    requires some { 0 < length rows.now }
    requires known { k < 10 }
    ensures { result ≡ header_word rows.now k }
{
    rows[0].words[k] as usize
}

/// The rows of the regions.
#[inline(always)]
pub(crate) fn region_rows(rows: &[Row]) -> &[Row]
    requires { HaveHeader rows.now }
    ensures value { result.now ≡ region_rows rows.now }
    ensures len { length result.now ≡ header_word rows.now 1 }
{
    &rows[1..1 + header_word(rows, 1)]
}

/// The rows of the ties.
#[inline(always)]
pub(crate) fn tie_rows(rows: &[Row]) -> &[Row]
    requires { HaveHeader rows.now }
    ensures value { result.now ≡ tie_rows rows.now }
    ensures len { length result.now ≡ header_word rows.now 2 }
{
    let start = 1 + header_word(rows, 1);
    &rows[start..start + header_word(rows, 2)]
}

/// The rows of the entries of the portal.
#[inline(always)]
pub(crate) fn portal_rows(rows: &[Row]) -> &[Row]
    requires { HaveHeader rows.now }
    ensures value { result.now ≡ portal_rows rows.now }
    ensures len { length result.now ≡ header_word rows.now 3 }
{
    let start = 1 + header_word(rows, 1) + header_word(rows, 2);
    &rows[start..start + header_word(rows, 3)]
}

/// The rows of the entries of the staging area.
#[inline(always)]
pub(crate) fn staging_rows(rows: &[Row]) -> &[Row]
    requires { HaveHeader rows.now }
    ensures value { result.now ≡ staging_rows rows.now }
    ensures len { length result.now ≡ header_word rows.now 4 }
{
    let start = 1 + header_word(rows, 1) + header_word(rows, 2) + header_word(rows, 3);
    &rows[start..start + header_word(rows, 4)]
}

/// Whether the header fits the number of rows.
fn has_count(rows: &[Row]) -> bool
    requires { 0 < length rows.now }
    ensures { IsTrue result ↔ ((staging_at rows.now + header_word rows.now 4) ≡ length rows.now) }
{
    let rest = rows.len() - 1;
    let regions = header_word(rows, 1);
    if regions > rest {
        return false;
    }
    let ties = header_word(rows, 2);
    if ties > rest - regions {
        return false;
    }
    let portal = header_word(rows, 3);
    if portal > rest - regions - ties {
        return false;
    }
    header_word(rows, 4) == rest - regions - ties - portal
}

/// Whether the first row is a header.
fn have_header(rows: &[Row]) -> bool
    ensures { IsTrue result ↔ HaveHeader rows.now }
{
    if rows.is_empty() {
        return false;
    }
    if rows[0].words[0] != MAGIC {
        return false;
    }
    if !has_count(rows) {
        return false;
    }
    header_word(rows, 3) <= MOST_PIECES
        && header_word(rows, 4) <= MOST_PIECES
        && header_word(rows, 5) <= MOST_PIECES
        && header_word(rows, 6) <= MOST_PIECES
}

/// Whether regions may have to be aligned to it.
fn is_unit(unit: u64) -> bool
    ensures { IsTrue result ↔ IsUnit unit }
{
    unit == 1 || unit == 8 || unit == 32
}

/// Whether each region's unit is one.
fn are_units(regions: &[Row]) -> bool
    ensures { IsTrue result ↔ AreUnits (map unit_in regions.now) }
{
    for i in 0..regions.len() {
        if !is_unit(regions[i].unit()) {
            return false;
        }
    }
    true
}

/// Whether the offset lies in the region of that number.
#[inline(always)]
fn is_within(regions: &[Row], region: u64, offset: u64) -> bool
    ensures yes { IsTrue result →
        (region < length regions.now)
        × (offset < (region_at (map region_in regions.now) region).len) }
    ensures no { (region < length regions.now) →
        (offset < (region_at (map region_in regions.now) region).len) → IsTrue result }
{
    if region >= regions.len() as u64 {
        return false;
    }
    offset < regions[region as usize].words[1]
}

/// The greatest value that words of one kind may have.
#[derive(Clone, Copy)]
struct Bound {
    kind: u64,
    last: u64,
}

/// The bound of words of this kind; none if they may have no value. One comparison separates the kinds of regions from
/// the others, since 0 and 1 less 2 wrap to numbers that no region has.
#[inline(always)]
fn bound_of(regions: &[Row], kind: u64) -> Option<Bound>
    requires { length regions.now + 1 < 2 ^ 64 }
    ensures { MatchOption result
        ((value : ℕ) → ¬ IsWithin (map region_in regions.now) (word_in kind value))
        (λ b. IsBound (map region_in regions.now) kind b.last × (b.kind ≡ kind)) }
{
    if kind.wrapping_sub(2) < regions.len() as u64 {
        let len = regions[(kind - 2) as usize].words[1];
        if len == 0 {
            return None;
        }
        return Some(Bound {
            kind,
            last: len - 1,
        });
    }
    match kind {
        0 => Some(Bound {
            kind,
            last: u64::MAX,
        }),
        1 => Some(Bound {
            kind,
            last: STAGING_END - 1,
        }),
        _ => None,
    }
}

/// The bound of a word of this kind and value, if its offset lies in its region or in the staging area.
#[inline(always)]
fn bound_of_word(regions: &[Row], kind: u64, value: u64) -> Option<Bound>
    requires { length regions.now + 1 < 2 ^ 64 }
    ensures { MatchOption result (¬ IsWithin (map region_in regions.now) (word_in kind value))
        (λ b. IsBound (map region_in regions.now) b.kind b.last
        × IsWithin (map region_in regions.now) (word_in kind value)) }
{
    let bound = bound_of(regions, kind)?;
    if value > bound.last {
        return None;
    }
    Some(bound)
}

/// The bounds of an entry's words.
#[derive(Clone, Copy)]
struct Bounds {
    completion: Bound,
    first: Bound,
    second: Bound,
    own: Bound,
}

/// The bounds of the entry's words, if each word's offset lies in its region or in the staging area.
#[inline(always)]
fn bounds_of(regions: &[Row], entry: &Row) -> Option<Bounds>
    requires { length regions.now + 1 < 2 ^ 64 }
    ensures { MatchOption result (¬ AreWithin (map region_in regions.now) (entry_in entry.now))
        (λ b. AreBounds (map region_in regions.now) b
        × AreWithin (map region_in regions.now) (entry_in entry.now)) }
{
    let words = &entry.words;
    let completion = bound_of_word(regions, words[2], words[3])?;
    let first = bound_of_word(regions, words[4], words[5])?;
    let second = bound_of_word(regions, words[6], words[7])?;
    let own = bound_of_word(regions, words[8], words[9])?;
    Some(Bounds {
        completion,
        first,
        second,
        own,
    })
}

/// Whether the word is of the kind of the bound, and within it.
#[inline(always)]
fn is_bounded(bound: Bound, kind: u64, value: u64) -> bool
    ensures kind { IsTrue result → kind ≡ bound.kind }
    ensures value { IsTrue result → value ≤ bound.last }
{
    kind == bound.kind && value <= bound.last
}

/// Whether the entry's words are of the kinds of the bounds, and within them.
#[inline(always)]
fn are_bounded(regions: &[Row], bounds: Bounds, entry: &Row) -> bool
    requires { AreBounds (map region_in regions.now) bounds }
    ensures { IsTrue result → AreWithin (map region_in regions.now) (entry_in entry.now) }
{
    let words = &entry.words;
    if !is_bounded(bounds.completion, words[2], words[3]) {
        return false;
    }
    if !is_bounded(bounds.first, words[4], words[5]) {
        return false;
    }
    if !is_bounded(bounds.second, words[6], words[7]) {
        return false;
    }
    is_bounded(bounds.own, words[8], words[9])
}

/// The first entry from `start` on whose words are not of the kinds of the bounds, or not within them. Most lists have
/// the same regions in entry after entry.
#[inline(always)]
fn first_unbounded(regions: &[Row], bounds: Bounds, entries: &[Row], start: usize) -> usize
    requires bounds { AreBounds (map region_in regions.now) bounds }
    requires inside { start ≤ length entries.now }
    ensures further { start ≤ result }
    ensures inside { result ≤ length entries.now }
    ensures lie { (k : ℕ) → start ≤ k → k < result → AreWithin (map region_in regions.now)
        (entry_in (row_at entries.now k)) }
{
    for k in start..entries.len() {
        if !are_bounded(regions, bounds, &entries[k]) {
            return k;
        }
    }
    entries.len()
}

/// Whether the offsets of the words of each entry lie in their regions or in the staging area.
fn entries_lie(regions: &[Row], entries: &[Row]) -> bool
    requires { length regions.now + 1 < 2 ^ 64 }
    ensures { IsTrue result ↔
        All (AreWithin (map region_in regions.now)) (map entry_in entries.now) }
{
    let mut k = 0;
    while k < entries.len() {
        match bounds_of(regions, &entries[k]) {
            Some(bounds) => k = first_unbounded(regions, bounds, entries, k + 1),
            None => return false,
        }
    }
    true
}

/// Whether both offsets of the tie lie in their regions.
fn tie_lies(regions: &[Row], tie: &Row) -> bool
    ensures { IsTrue result ↔ IsTieWithin (map region_in regions.now) (tie_in tie.now) }
{
    if !is_within(regions, tie.words[0], tie.words[1]) {
        return false;
    }
    is_within(regions, tie.words[2], tie.words[3])
}

/// Whether the offsets of each tie do.
fn ties_lie(regions: &[Row], ties: &[Row]) -> bool
    ensures { IsTrue result ↔ All (IsTieWithin (map region_in regions.now)) (map tie_in ties.now) }
{
    for k in 0..ties.len() {
        if !tie_lies(regions, &ties[k]) {
            return false;
        }
    }
    true
}

/// Whether the rows are a prepared submission that can be filled. This tests the form, which filling relies on: no
/// damage makes it read or write outside its arrays. It does not test that the entries are those of one list.
pub fn are_prepared(rows: &[Row]) -> bool
    ensures { IsTrue result ↔ ArePrepared rows.now }
{
    if !have_header(rows) {
        return false;
    }
    let regions = region_rows(rows);
    if !are_units(regions) {
        return false;
    }
    if !ties_lie(regions, tie_rows(rows)) {
        return false;
    }
    if !entries_lie(regions, portal_rows(rows)) {
        return false;
    }
    entries_lie(regions, staging_rows(rows))
}
