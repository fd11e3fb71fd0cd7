//! Filling a prepared submission for new bases.

ghost use Rattle.std.specs.Prelude.{◌≡◌, ◌⊎◌, ℕ, ◌+◌, ◌*◌, ◌%◌, ◌<◌, ◌≤◌, ◌↔◌, ◌++◌, All, drop, length, List, map, MatchOption, IsTrue, IfOk, IfErr, Err, replicate, take};
ghost use Rattle.dsa_descriptor.specs.declared.descriptor.Descriptor.{Descriptor};
ghost use Rattle.dsa_descriptor.specs.Spans.{Apart};
ghost use Rattle.dsa_operations.specs.declared.operation.Operation.{Operation};
ghost use Rattle.dsa_settings.specs.Settings.{Limits};
ghost use Rattle.dsa_settings.specs.Staging.{staging_area};
ghost use Rattle.dsa_prepared.specs.declared.fault.FillFault.{FillFault};
ghost use Rattle.dsa_prepared.specs.Rows.{AreOrigins, ArePrepared, HasKinds, HaveHeader, entry_in, header_word, region_in, row_at, template_in, tie_in, unit_in};
ghost use Rattle.dsa_prepared.specs.Sound.{ArePut, AreUnits, HasValues, IsUnit};
ghost use Rattle.dsa_prepared.specs.Templates.{filled_portal, filled_staging};
ghost use Rattle.dsa_prepared.specs.Preparing.{IsAnyPreparedOf, IsPreparedOf, region_at};
ghost use Rattle.dsa_prepared.specs.Filling.{AllBelow, IsFirstNot, LiesBetween, FitsAt, IsAlignedBase, IsTied, IsTiedAt, AreApartAt, IsApartFromEarlier, IsClearAt, HasBases, HasRoom, HasBuffers, CanFill, IsAnyPlannedInto, IsFirstFillFault, IsPlannedInto, new_region, tie_at, written};

use crate::fault::FillFault;
use crate::reading::{header_word, portal_rows, region_rows, staging_rows, tie_rows};
use crate::row::{Origins, Row};
use crate::sorted::are_apart;
use crate::tie::Tie;
use dsa_descriptor::Span;
use dsa_settings::{STAGED_LEN, Setting};

/// The region of that number at its new base.
#[inline(always)]
pub(crate) fn new_region(regions: &[Row], bases: &[u64], region: usize) -> Span
    requires inside { region < length regions.now }
    requires based { region < length bases.now }
    ensures { result ≡ new_region (map region_in regions.now) bases.now region }
{
    Span {
        first: bases[region],
        len: regions[region].region().len,
    }
}

/// The first region that goes past 2^64 at its new base.
fn first_wrap(regions: &[Row], bases: &[u64]) -> Option<usize>
    requires { length bases.now ≡ length regions.now }
    ensures { MatchOption result
        (AllBelow (length regions.now) (FitsAt (map region_in regions.now) bases.now))
        (IsFirstNot (length regions.now) (FitsAt (map region_in regions.now) bases.now)) }
{
    for i in 0..regions.len() {
        if !new_region(regions, bases, i).is_addressable() {
            return Some(i);
        }
    }
    None
}

/// Whether the two addresses are congruent modulo the unit.
#[inline(always)]
fn is_aligned(base: u64, first: u64, unit: u64) -> bool
    requires { IsUnit unit }
    ensures { IsTrue result ↔ (base % unit ≡ first % unit) }
{
    if unit == 32 {
        return base % 32 == first % 32;
    }
    if unit == 8 {
        return base % 8 == first % 8;
    }
    true
}

/// The first region whose new base is not congruent to its old one modulo its unit.
fn first_misaligned(regions: &[Row], bases: &[u64]) -> Option<usize>
    requires based { length bases.now ≡ length regions.now }
    requires units { AreUnits (map unit_in regions.now) }
    ensures { MatchOption result
        (AllBelow (length regions.now)
        (IsAlignedBase (map region_in regions.now) (map unit_in regions.now) bases.now))
        (IsFirstNot (length regions.now)
        (IsAlignedBase (map region_in regions.now) (map unit_in regions.now) bases.now)) }
{
    for i in 0..regions.len() {
        if !is_aligned(bases[i], regions[i].region().first, regions[i].unit()) {
            return Some(i);
        }
    }
    None
}

/// The first two addresses that have to agree in their low 12 bits and do not.
fn first_untied(ties: &[Row], bases: &[u64]) -> Option<usize>
    requires inside { AllBelow (length ties.now) (λ k.
        ((tie_at (map tie_in ties.now) k).region < length bases.now)
        × ((tie_at (map tie_in ties.now) k).other < length bases.now)) }
    ensures { MatchOption result
        (AllBelow (length ties.now) (IsTiedAt (map tie_in ties.now) bases.now))
        (IsFirstNot (length ties.now) (IsTiedAt (map tie_in ties.now) bases.now)) }
{
    for i in 0..ties.len() {
        if !is_tied(&ties[i].tie(), bases) {
            return Some(i);
        }
    }
    None
}

/// Whether the two addresses agree in their low 12 bits.
fn is_tied(tie: &Tie, bases: &[u64]) -> bool
    requires region { tie.now.region < length bases.now }
    requires other { tie.now.other < length bases.now }
    ensures { IsTrue result ↔ IsTied bases.now tie.now }
{
    let first = bases[tie.region] % 0x1000 + tie.offset % 0x1000;
    let second = bases[tie.other] % 0x1000 + tie.other_offset % 0x1000;
    first % 0x1000 == second % 0x1000
}

/// The first earlier region that the region has an address in common with, at their new bases.
fn first_earlier(regions: &[Row], bases: &[u64], region: usize) -> Option<usize>
    requires inside { region < length regions.now }
    requires based { length bases.now ≡ length regions.now }
    ensures { MatchOption result (IsApartFromEarlier (map region_in regions.now) bases.now region)
        (IsFirstNot region (AreApartAt (map region_in regions.now) bases.now region)) }
{
    let here = new_region(regions, bases, region);
    for j in 0..region {
        if !here.is_apart_from(new_region(regions, bases, j)) {
            return Some(j);
        }
    }
    None
}

/// Whether the region lies above or below all others, which lie from `bottom` to before `top`.
#[inline(always)]
fn is_beside(region: Span, bottom: u64, top: u128) -> bool
    ensures { IsTrue result ↔
        ((top ≤ region.first) ⊎ (region.first + region.len ≤ bottom)) }
{
    if u128::from(region.first) >= top {
        return true;
    }
    region.end() <= u128::from(bottom)
}

/// The same as [`first_earlier`]; the earlier regions lie from `bottom` to before `top`. It looks at them only if the
/// region does not lie beside all of them: not at all, if bases rise or fall with the regions.
#[inline(always)]
fn first_met(regions: &[Row], bases: &[u64], region: usize, bottom: u64, top: u128) -> Option<usize>
    requires inside { region < length regions.now }
    requires based { length bases.now ≡ length regions.now }
    requires between { AllBelow region
        (LiesBetween (map region_in regions.now) bases.now bottom top) }
    ensures { MatchOption result
        (IsApartFromEarlier (map region_in regions.now) bases.now region)
        (IsFirstNot region (AreApartAt (map region_in regions.now) bases.now region)) }
{
    if is_beside(new_region(regions, bases, region), bottom, top) {
        return None;
    }
    first_earlier(regions, bases, region)
}

/// The first region that has an address in common with an earlier one, and the first such earlier one.
fn first_meeting(regions: &[Row], bases: &[u64]) -> Option<(usize, usize)>
    requires { length bases.now ≡ length regions.now }
    ensures { MatchOption result
        (AllBelow (length regions.now)
        (IsApartFromEarlier (map region_in regions.now) bases.now))
        (λ p. IsFirstNot (length regions.now)
        (IsApartFromEarlier (map region_in regions.now) bases.now) p.0
        × IsFirstNot p.0 (AreApartAt (map region_in regions.now) bases.now p.0) p.1) }
{
    if are_apart(regions, bases) {
        return None;
    }
    first_meeting_by_pairs(regions, bases)
}

/// The same, by a look at each pair of regions, unless the later one lies beside all earlier ones.
fn first_meeting_by_pairs(regions: &[Row], bases: &[u64]) -> Option<(usize, usize)>
    requires { length bases.now ≡ length regions.now }
    ensures { MatchOption result
        (AllBelow (length regions.now)
        (IsApartFromEarlier (map region_in regions.now) bases.now))
        (λ p. IsFirstNot (length regions.now)
        (IsApartFromEarlier (map region_in regions.now) bases.now) p.0
        × IsFirstNot p.0 (AreApartAt (map region_in regions.now) bases.now p.0) p.1) }
{
    let mut bottom = u64::MAX;
    let mut top = 0;
    for i in 0..regions.len() {
        match first_met(regions, bases, i, bottom, top) {
            Some(j) => return Some((i, j)),
            None => (),
        }
        let region = new_region(regions, bases, i);
        bottom = bottom.min(region.first);
        top = top.max(region.end());
    }
    None
}

/// The first region that has an address in the staging area.
fn first_in_area(regions: &[Row], bases: &[u64], area: Span) -> Option<usize>
    requires { length bases.now ≡ length regions.now }
    ensures { MatchOption result
        (AllBelow (length regions.now) (IsClearAt (map region_in regions.now) bases.now area))
        (IsFirstNot (length regions.now) (IsClearAt (map region_in regions.now) bases.now area)) }
{
    for i in 0..regions.len() {
        if !area.is_apart_from(new_region(regions, bases, i)) {
            return Some(i);
        }
    }
    None
}

/// Writes the bytes of the entries from `start` on, as long as their words are of these kinds, and returns where that
/// ends. Most lists have the same regions in entry after entry.
#[inline(always)]
fn put_alike(
    buffer: &mut [u8],
    entries: &[Row],
    start: usize,
    origins: &Origins,
    bases: &[u64],
    staging: u64,
) -> usize
    requires room { 64 * length entries.now ≤ length buffer.old }
    requires inside { start < length entries.now }
    requires kinds { HasKinds (row_at entries.now start) origins.now }
    requires origins { AreOrigins bases.now staging origins.now }
    requires values { All (HasValues bases.now staging) (map entry_in entries.now) }
    ensures further { start < result }
    ensures inside { result ≤ length entries.now }
    ensures count { length buffer.new ≡ length buffer.old }
    ensures put { (before : List ℕ) →
        ArePut bases.now staging (map entry_in entries.now) start before buffer.old →
        ArePut bases.now staging (map entry_in entries.now) result before buffer.new }
{
    for k in start..entries.len() {
        if !entries[k].has_kinds(origins) {
            return k;
        }
        entries[k].fill(origins, bases, staging, buffer, 64 * k);
    }
    entries.len()
}

/// Writes the bytes of the entries at the front of the buffer, and leaves the rest of it. It stays a call, so that
/// its loop has all registers: in the caller it would read the bases' place from the stack for each word.
#[inline(never)]
fn put_entries(buffer: &mut [u8], entries: &[Row], bases: &[u64], staging: u64)
    requires room { 64 * length entries.now ≤ length buffer.old }
    requires values { All (HasValues bases.now staging) (map entry_in entries.now) }
    ensures { ArePut bases.now staging (map entry_in entries.now) (length entries.now)
        buffer.old buffer.new }
{
    let mut k = 0;
    while k < entries.len() {
        let origins = entries[k].origins(bases, staging);
        k = put_alike(buffer, entries, k, &origins, bases, staging);
    }
}

/// Writes so many zeros from the place on.
fn put_zeros(buffer: &mut [u8], place: usize, count: usize)
    requires { place + count ≤ length buffer.old }
    ensures { buffer.new ≡
        take place buffer.old ++ replicate count 0 ++ drop (place + count) buffer.old }
{
    buffer[place..place + count].fill(0);
}

/// The first cause of the bases and buffers.
fn buffer_fault(
    rows: &[Row],
    bases: &[u64],
    portal_len: usize,
    staging_len: usize,
) -> Option<FillFault>
    requires { ArePrepared rows.now }
    ensures { MatchOption result
        (HasBuffers (template_in rows.now) bases.now portal_len staging_len)
        (λ fault. (staging : ℕ) →
        IsFirstFillFault (template_in rows.now) bases.now staging portal_len staging_len fault) }
{
    if bases.len() != region_rows(rows).len() {
        return Some(FillFault::Bases);
    }
    let batched = 64 * staging_rows(rows).len();
    if portal_len < 64 * portal_rows(rows).len()
        || staging_len < batched + 32 * header_word(rows, 5)
    {
        return Some(FillFault::Room);
    }
    None
}

/// Whether all regions go where they may, by one look at each: the bases rise or fall with the regions, and the
/// staging area lies above or below them all. The answer may be no for regions that may go there.
#[inline(always)]
fn are_in_place(regions: &[Row], bases: &[u64], area: Span) -> bool
    requires based { length bases.now ≡ length regions.now }
    requires units { AreUnits (map unit_in regions.now) }
    ensures { IsTrue result →
        AllBelow (length regions.now) (FitsAt (map region_in regions.now) bases.now)
        × AllBelow (length regions.now)
        (IsAlignedBase (map region_in regions.now) (map unit_in regions.now) bases.now)
        × AllBelow (length regions.now)
        (IsApartFromEarlier (map region_in regions.now) bases.now)
        × AllBelow (length regions.now) (IsClearAt (map region_in regions.now) bases.now area) }
{
    let (mut bottom, mut top) = (u64::MAX, 0);
    for i in 0..regions.len() {
        let region = new_region(regions, bases, i);
        let Some(end) = region.first.checked_add(region.len) else {
            return false;
        };
        if region.first < top && end > bottom {
            return false;
        }
        if !is_aligned(bases[i], regions[i].region().first, regions[i].unit()) {
            return false;
        }
        bottom = bottom.min(region.first);
        top = top.max(end);
    }
    is_beside(area, bottom, u128::from(top))
}

/// Where the descriptors of the pieces may be staged.
#[inline(always)]
fn area_of(rows: &[Row], staging: u64) -> Span
    requires { HaveHeader rows.now }
    ensures { result ≡ staging_area staging (header_word rows.now 6) }
{
    Span {
        first: staging,
        len: STAGED_LEN * header_word(rows, 6) as u64,
    }
}

/// Whether the submission can be filled, by one look at each region and each tie. The answer may be no for one that
/// can.
#[inline(always)]
fn can_fill(rows: &[Row], bases: &[u64], staging: u64) -> bool
    requires prepared { ArePrepared rows.now }
    requires based { HasBases (template_in rows.now) bases.now }
    ensures { IsTrue result → CanFill (template_in rows.now) bases.now staging }
{
    if !Setting::Staging.allows(staging) {
        return false;
    }
    match first_untied(tie_rows(rows), bases) {
        Some(_) => return false,
        None => (),
    }
    are_in_place(region_rows(rows), bases, area_of(rows, staging))
}

/// The first cause of where the regions and the staging area go.
fn base_fault(rows: &[Row], bases: &[u64], staging: u64) -> Option<FillFault>
    requires prepared { ArePrepared rows.now }
    requires based { HasBases (template_in rows.now) bases.now }
    ensures { MatchOption result (CanFill (template_in rows.now) bases.now staging)
        (λ fault. (portal_len staging_len : ℕ) →
        HasRoom (template_in rows.now) portal_len staging_len →
        IsFirstFillFault (template_in rows.now) bases.now staging portal_len staging_len fault) }
{
    if can_fill(rows, bases, staging) {
        return None;
    }
    first_base_fault(rows, bases, staging)
}

/// The same, by a look at all regions for each cause in its order.
#[inline(never)]
fn first_base_fault(rows: &[Row], bases: &[u64], staging: u64) -> Option<FillFault>
    requires prepared { ArePrepared rows.now }
    requires based { HasBases (template_in rows.now) bases.now }
    ensures { MatchOption result (CanFill (template_in rows.now) bases.now staging)
        (λ fault. (portal_len staging_len : ℕ) →
        HasRoom (template_in rows.now) portal_len staging_len →
        IsFirstFillFault (template_in rows.now) bases.now staging portal_len staging_len fault) }
{
    let regions = region_rows(rows);
    match first_wrap(regions, bases) {
        Some(region) => return Some(FillFault::RegionWrap(region)),
        None => (),
    }
    match first_misaligned(regions, bases) {
        Some(region) => return Some(FillFault::Misaligned(region)),
        None => (),
    }
    let ties = tie_rows(rows);
    match first_untied(ties, bases) {
        Some(k) => {
            let tie = ties[k].tie();
            return Some(FillFault::DualcastBits(tie.region, tie.other));
        }
        None => (),
    }
    match first_meeting(regions, bases) {
        Some((region, earlier)) => return Some(FillFault::RegionsMeet(region, earlier)),
        None => (),
    }
    let area = area_of(rows, staging);
    match first_in_area(regions, bases, area) {
        Some(region) => return Some(FillFault::StagingMeets(region)),
        None => (),
    }
    if Setting::Staging.allows(staging) {
        None
    } else {
        Some(FillFault::Staging)
    }
}

/// Writes what is submitted if the regions have these bases and the staging area this address: the portal's bytes at
/// the front of `portal`, those of the staging area at the front of `area`. They are those that
/// [`plan_any_list`](dsa_lists::plan_any_list()) returns for the list on the new buffers. The rows are prepared:
/// [`are_prepared`](crate::are_prepared) tests that. Nothing is allocated.
///
/// # Errors
/// The first of these, and nothing is written: [`FillFault::Bases`]; `Room`; for the least region `RegionWrap`;
/// `Misaligned`; for the first dualcast `DualcastBits`; for the least region `RegionsMeet`, with the least earlier one
/// that it meets; `StagingMeets`; `Staging`.
pub fn fill_rows(
    rows: &[Row],
    bases: &[u64],
    staging: u64,
    portal: &mut [u8],
    area: &mut [u8],
) -> Result<(), FillFault>
    requires { ArePrepared rows.now }
    // The bytes are those of the rows' template at the new addresses.
    ensures written { IfOk result (λ _.
        (portal.new ≡ written (filled_portal (template_in rows.now) bases.now staging) portal.old)
        × (area.new ≡ written (filled_staging (template_in rows.now) bases.now staging) area.old)) }
    // They are what planning the list on the new buffers answers.
    ensures planned { (list : List ℕ) (s : Limits) (ds : List Descriptor) →
        IsPreparedOf list s (template_in rows.now).regions ds (template_in rows.now) → IfOk result
        (λ _. IsPlannedInto (template_in rows.now).regions bases.now staging s list ds
        portal.old portal.new area.old area.new) }
    // The same of a list that may have checksums.
    ensures planned_any { (list : List ℕ) (s : Limits) (operations : List Operation) →
        IsAnyPreparedOf list s (template_in rows.now).regions operations
        (template_in rows.now) → IfOk result (λ _. IsAnyPlannedInto (template_in rows.now).regions
        bases.now staging s list operations portal.old portal.new area.old area.new) }
    ensures can { IfOk result (λ _. CanFill (template_in rows.now) bases.now staging) }
    // A refusal is the first cause, and if there is a cause, it is the answer.
    ensures fault { IfErr result (IsFirstFillFault (template_in rows.now) bases.now staging
        (length portal.old) (length area.old)) }
    ensures refused { (fault : FillFault) → IsFirstFillFault (template_in rows.now) bases.now
        staging (length portal.old) (length area.old) fault → result ≡ Err fault }
    // Then nothing is written.
    ensures unchanged { IfErr result (λ _. (portal.new ≡ portal.old) × (area.new ≡ area.old)) }
{
    match buffer_fault(rows, bases, portal.len(), area.len()) {
        Some(fault) => return Err(fault),
        None => (),
    }
    match base_fault(rows, bases, staging) {
        Some(fault) => return Err(fault),
        None => (),
    }
    let staged = staging_rows(rows);
    put_entries(portal, portal_rows(rows), bases, staging);
    put_entries(area, staged, bases, staging);
    put_zeros(area, 64 * staged.len(), 32 * header_word(rows, 5));
    Ok(())
}
