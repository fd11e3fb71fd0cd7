//! The entries of a plan's groups.

ghost use Rattle.std.specs.Prelude.{◌≡◌, ℕ, ◌+◌, ◌*◌, ◌≤◌, ◌<◌, ◌++◌, ◌∷◌, [], take, drop, length, IfOk, OnOk, replicate, if◌then◌else◌};
ghost use Rattle.std.specs.Int.{w32, to_le_bytes};
ghost use Rattle.dsa_descriptor.specs.Pieces.{most_pieces};
ghost use Rattle.dsa_operations.specs.Operations.{spelling_of};
ghost use Rattle.dsa_emission.specs.declared.place.Place.{Place};
ghost use Rattle.dsa_settings.specs.Plan.{piece_count};
ghost use Rattle.dsa_emission.specs.Emission.{batch_count, batched, batched_count, is_batch};
ghost use Rattle.dsa_prepared.specs.declared.word.Word.TheVariants.{InStaging, Fixed};
ghost use Rattle.dsa_prepared.specs.Entries.{fenced_entries};
ghost use Rattle.dsa_prepared.specs.Preparing.{AreRegions};
ghost use Rattle.dsa_prepared.specs.Sound.{AreNonempty};
ghost use Rattle.dsa_prepared.specs.Templates.{group_entries, portal_entries, staging_entries};

use crate::entry::Entry;
use crate::template::entry_of;
use crate::word::Word;
use dsa_descriptor::Span;
use dsa_operations::Operation;
use dsa_plan::Group;
use std::alloc::{AllocError, Global};

/// The entry of a batch of this owner, whose record and descriptors are at these offsets of the staging area.
fn batch_entry(first: &Operation, record_at: u64, list_at: u64, count: u32) -> Entry
    ensures { result ≡ record {
      head = take 4 (spelling_of first.now) ++ to_le_bytes w32 0x0100000c;
      completion = InStaging record_at;
      first = InStaging list_at;
      second = Fixed 0;
      middle = to_le_bytes w32 count ++ replicate 4 0;
      own = Fixed 0;
    } }
{
    let bytes = first.write();
    let size = count.to_le_bytes();
    Entry {
        head: [bytes[0], bytes[1], bytes[2], bytes[3], 0x0c, 0, 0, 1],
        completion: Word::InStaging(record_at),
        first: Word::InStaging(list_at),
        second: Word::Fixed(0),
        middle: [size[0], size[1], size[2], size[3], 0, 0, 0, 0],
        own: Word::Fixed(0),
    }
}

/// How many batches the group is: one, or none if it is a single piece.
fn batches_of(group: &Group) -> usize
    ensures { result ≡ if is_batch group.now then 1 else 0 }
{
    if group.len() > 1 { 1 } else { 0 }
}

/// How many of its pieces are in a batch.
fn batched_of(group: &Group) -> usize
    ensures { result ≡ batched group.now }
{
    if group.len() > 1 { group.len() } else { 0 }
}

/// How many batches there are.
pub(crate) fn batch_count(groups: &[Group]) -> usize
    requires { piece_count groups.now ≤ most_pieces }
    ensures { result ≡ batch_count groups.now }
{
    let mut count = 0;
    for group in groups {
        count += batches_of(group);
    }
    count
}

/// How many pieces are in batches.
fn batched_total(groups: &[Group]) -> usize
    requires { piece_count groups.now ≤ most_pieces }
    ensures { result ≡ batched_count groups.now }
{
    let mut total = 0;
    for group in groups {
        total += batched_of(group);
    }
    total
}

/// The entry of the group whose pieces begin at `start`: of its piece, or of its batch, whose record and descriptors
/// are at these offsets of the staging area.
fn group_entry(
    regions: &[Span],
    group: &Group,
    pieces: &[Operation],
    start: usize,
    record_at: u64,
    list_at: u64,
) -> Entry
    requires rising { AreRegions regions.now }
    requires nonempty { 0 < length group.now }
    requires within { start + length group.now ≤ length pieces.now }
    requires few { length pieces.now ≤ most_pieces }
    ensures { (total : ℕ) (place : Place) → place.start ≡ start →
        64 * total + 32 * place.batches ≡ record_at → 64 * place.batched ≡ list_at →
        group_entries regions.now total place group.now pieces.now ≡ result ∷ [] }
{
    if group.len() > 1 {
        batch_entry(&pieces[0], record_at, list_at, group.len() as u32)
    } else {
        entry_of(regions, false, &pieces[start])
    }
}

/// One entry for each group.
pub(crate) fn portal_entries(
    alloc: Global,
    regions: &[Span],
    groups: &[Group],
    pieces: &[Operation],
) -> Result<Vec<Entry>, AllocError>
    requires rising { AreRegions regions.now }
    requires covers { piece_count groups.now ≡ length pieces.now }
    requires few { length pieces.now ≤ most_pieces }
    requires nonempty { AreNonempty groups.now }
    ensures { IfOk result (λ entries.
        entries.items ≡ portal_entries regions.now groups.now pieces.now) }
{
    let total = batched_total(groups);
    let mut entries = Vec::with_capacity(alloc, groups.len())?;
    let (mut start, mut batches, mut batched) = (0, 0, 0);
    for group in groups {
        let record_at = 64 * total as u64 + 32 * batches as u64;
        let list_at = 64 * batched as u64;
        entries.push(group_entry(regions, group, pieces, start, record_at, list_at))?;
        start += group.len();
        batches += batches_of(group);
        batched += batched_of(group);
    }
    Ok(entries)
}

/// Adds the entries of the pieces of a batch, each fenced if the group says so.
fn stage_batch(
    entries: &mut Vec<Entry>,
    regions: &[Span],
    group: &Group,
    pieces: &[Operation],
) -> Result<(), AllocError>
    requires rising { AreRegions regions.now }
    requires within { length group.now ≤ length pieces.now }
    ensures { OnOk result (entries.new.items ≡
        entries.old.items ++ fenced_entries regions.now group.now pieces.now) }
{
    let fences = group.fences();
    for k in 0..fences.len() {
        entries.push(entry_of(regions, fences[k], &pieces[k]))?;
    }
    Ok(())
}

/// Adds the entries that the group whose pieces begin at `start` has in the staging area.
fn stage_group(
    entries: &mut Vec<Entry>,
    regions: &[Span],
    group: &Group,
    pieces: &[Operation],
    start: usize,
) -> Result<(), AllocError>
    requires rising { AreRegions regions.now }
    requires within { start + length group.now ≤ length pieces.now }
    ensures { OnOk result (entries.new.items ≡ entries.old.items ++
        (if is_batch group.now
        then fenced_entries regions.now group.now (drop start pieces.now)
        else [])) }
{
    if group.len() > 1 {
        return stage_batch(entries, regions, group, &pieces[start..]);
    }
    Ok(())
}

/// The entries of the pieces in batches.
pub(crate) fn staging_entries(
    alloc: Global,
    regions: &[Span],
    groups: &[Group],
    pieces: &[Operation],
) -> Result<Vec<Entry>, AllocError>
    requires rising { AreRegions regions.now }
    requires covers { piece_count groups.now ≡ length pieces.now }
    requires few { length pieces.now ≤ most_pieces }
    ensures { IfOk result (λ entries.
        entries.items ≡ staging_entries regions.now groups.now pieces.now) }
{
    let mut entries = Vec::with_capacity(alloc, batched_total(groups))?;
    let mut start = 0;
    for group in groups {
        stage_group(&mut entries, regions, group, pieces, start)?;
        start += group.len();
    }
    Ok(entries)
}
