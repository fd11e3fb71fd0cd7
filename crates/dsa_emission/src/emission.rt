//! The bytes that submit a plan.

ghost use Rattle.std.specs.Prelude.{◌≡◌, ◌+◌, ◌*◌, ◌<◌, ◌≤◌, ◌++◌, drop, map, length, take, IfOk, OnOk, replicate};
ghost use Rattle.dsa_descriptor.specs.Descriptors.{fields};
ghost use Rattle.dsa_descriptor.specs.Lists.{AreOfOneOwner};
ghost use Rattle.dsa_descriptor.specs.Pieces.{most_pieces};
ghost use Rattle.dsa_emission.specs.Emission.{place_of, batch_spelling, group_entry, fenced_pieces, group_staged, portal_of, staging_of, portal_bytes, staging_bytes, CanBeEmitted};
ghost use Rattle.dsa_settings.specs.Plan.{piece_count};
ghost use Rattle.dsa_settings.specs.Shapes.{HasGroupShapes};

use crate::place::Place;
use dsa_descriptor::{Descriptor, Entry, write_fenced_entry};
use dsa_settings::{Group, Plan, Settings};
use std::alloc::{AllocError, Global};

/// The flags 0x00000c and the operation code 0x01 of a batch descriptor.
const BATCH: u32 = 0x0100_000c;

/// The bytes that submit a plan.
#[derive(Drop)]
pub struct Emission {
    /// What is written to the portal, in this order: for each group 64 bytes.
    pub portal: Vec<u8>,
    /// What has to be at the staging address: the pieces of the batches, and room for their completion records.
    pub staging: Vec<u8>,
}

/// The PASID and the privilege of the piece, as its first bytes have them.
fn owner_bytes<E: Entry>(piece: &E) -> [u8; 4]
    ensures { result ≡ take 4 (E.spelling piece.now) }
{
    let bytes = piece.write_entry();
    [bytes[0], bytes[1], bytes[2], bytes[3]]
}

/// Writes the part over the bytes from the place on.
fn put(bytes: &mut [u8; 64], place: usize, part: &[u8])
    requires { place + length part.now ≤ 64 }
    ensures { bytes.new ≡
        take place bytes.old ++ part.now ++ drop (place + length part.now) bytes.old }
{
    bytes[place..place + part.len()].copy_from_slice(part);
}

/// The bytes of a batch descriptor of this owner.
pub(crate) fn batch_entry(owner: &[u8; 4], record_at: u64, list_at: u64, count: u32) -> [u8; 64]
    ensures { result ≡ batch_spelling owner.now record_at list_at count }
{
    let mut bytes = [0; 64];
    put(&mut bytes, 0, owner);
    put(&mut bytes, 4, &BATCH.to_le_bytes());
    put(&mut bytes, 8, &record_at.to_le_bytes());
    put(&mut bytes, 16, &list_at.to_le_bytes());
    put(&mut bytes, 32, &count.to_le_bytes());
    bytes
}

/// The bytes of a batch descriptor of the owner of `first`.
fn batch_bytes<E: Entry>(first: &E, record_at: u64, list_at: u64, count: u32) -> [u8; 64]
    ensures { result ≡ batch_spelling
        (take 4 (E.spelling first.now)) record_at list_at count }
{
    batch_entry(&owner_bytes(first), record_at, list_at, count)
}

/// What comes before the end of the groups.
fn end_of(groups: &[Group]) -> Place
    requires { piece_count groups.now ≤ most_pieces }
    ensures { result ≡ place_of groups.now (length groups.now) }
{
    let mut place = Place::default();
    for group in groups {
        place = place.after(group);
    }
    place
}

/// The entry of the group at this place, where `total` pieces are in batches.
fn entry_bytes<E: Entry>(
    group: &Group,
    pieces: &[E],
    place: Place,
    total: usize,
    settings: &Settings,
) -> [u8; 64]
    requires nonempty { 0 < length group.now }
    requires within { place.start + length group.now ≤ length pieces.now }
    requires few { length pieces.now ≤ most_pieces }
    requires batches { place.batches ≤ most_pieces }
    requires batched { place.batched ≤ most_pieces }
    requires total { total ≤ most_pieces }
    ensures { result ≡ group_entry E.spelling settings.now total place group.now pieces.now }
{
    E::are_entries();
    if group.len() > 1 {
        let staging = settings.staging();
        let record_at = staging + 64 * total as u64 + 32 * place.batches as u64;
        let list_at = staging + 64 * place.batched as u64;
        batch_bytes(&pieces[0], record_at, list_at, group.len() as u32)
    } else {
        pieces[place.start].write_entry()
    }
}

/// One entry for each group.
fn portal_bytes<E: Entry>(
    alloc: Global,
    groups: &[Group],
    pieces: &[E],
    settings: &Settings,
) -> Result<Vec<u8>, AllocError>
    requires covers { piece_count groups.now ≡ length pieces.now }
    requires few { length pieces.now ≤ most_pieces }
    requires shapes { HasGroupShapes settings.now.greatest_batch groups.now }
    ensures { IfOk result (λ portal.
        portal.items ≡ portal_of E.spelling settings.now groups.now pieces.now) }
{
    let total = end_of(groups).batched;
    let mut portal = Vec::with_capacity(alloc, 64 * groups.len())?;
    let mut place = Place::default();
    for group in groups {
        portal.extend_from_slice(&entry_bytes(group, pieces, place, total, settings))?;
        place = place.after(group);
    }
    Ok(portal)
}

/// Adds the pieces of a batch, each fenced if the group says so.
fn stage_batch<E: Entry>(
    staging: &mut Vec<u8>,
    group: &Group,
    pieces: &[E],
) -> Result<(), AllocError>
    requires { length group.now ≤ length pieces.now }
    ensures { OnOk result (staging.new.items ≡
        staging.old.items ++ fenced_pieces E.spelling group.now pieces.now) }
{
    let fences = group.fences();
    for k in 0..fences.len() {
        staging.extend_from_slice(&write_fenced_entry(&pieces[k], fences[k]))?;
    }
    Ok(())
}

/// Adds what the group at this place has in the staging area.
fn stage_group<E: Entry>(
    staging: &mut Vec<u8>,
    group: &Group,
    pieces: &[E],
    place: Place,
) -> Result<(), AllocError>
    requires { place.start + length group.now ≤ length pieces.now }
    ensures { OnOk result (staging.new.items ≡
        staging.old.items ++ group_staged E.spelling place group.now pieces.now) }
{
    if group.len() > 1 {
        return stage_batch(staging, group, &pieces[place.start..]);
    }
    Ok(())
}

/// Adds room for so many completion records.
fn stage_records(staging: &mut Vec<u8>, batches: usize) -> Result<(), AllocError>
    ensures { OnOk result (staging.new.items ≡
        staging.old.items ++ replicate (32 * batches) 0) }
{
    for batch in 0..batches {
        staging.extend_from_slice(&[0; 32])?;
    }
    Ok(())
}

/// The pieces of each batch, and room for its completion record.
fn staging_bytes<E: Entry>(
    alloc: Global,
    groups: &[Group],
    pieces: &[E],
) -> Result<Vec<u8>, AllocError>
    requires covers { piece_count groups.now ≡ length pieces.now }
    requires few { length pieces.now ≤ most_pieces }
    ensures { IfOk result
        (λ staging. staging.items ≡ staging_of E.spelling groups.now pieces.now) }
{
    let end = end_of(groups);
    let mut staging = Vec::with_capacity(alloc, 64 * end.batched + 32 * end.batches)?;
    let mut place = Place::default();
    for group in groups {
        stage_group(&mut staging, group, pieces, place)?;
        place = place.after(group);
    }
    stage_records(&mut staging, end.batches)?;
    Ok(staging)
}

/// The bytes that submit a plan of entries of any kind and of one owner: a portal entry for each group, and the staging
/// area that the batch entries point to. A device takes them only if no piece is longer than `greatest_transfer`, and
/// they arrive whole only if none touches the staging area.
///
/// # Errors
/// An allocation failure.
pub fn emit_entries<E: Entry>(
    alloc: Global,
    plan: &Plan,
    pieces: &[E],
    settings: &Settings,
) -> Result<Emission, AllocError>
    requires covers { piece_count plan.now ≡ length pieces.now }
    requires few { length pieces.now ≤ most_pieces }
    requires shapes { HasGroupShapes settings.now.greatest_batch plan.now }
    requires owner { AreOfOneOwner E.spelling pieces.now }
    ensures portal { IfOk result (λ e.
        e.portal.items ≡ portal_of E.spelling settings.now plan.now pieces.now) }
    ensures staging { IfOk result (λ e.
        e.staging.items ≡ staging_of E.spelling plan.now pieces.now) }
{
    let groups = plan.groups();
    let portal = portal_bytes(alloc, groups, pieces, settings)?;
    let staging = staging_bytes(alloc, groups, pieces)?;
    Ok(Emission { portal, staging })
}

/// The bytes that submit a plan of descriptors, as [`emit_entries`] writes them. The pieces have one owner, are no
/// longer than `greatest_transfer`, and touch no byte of the staging area.
pub fn emit(
    alloc: Global,
    plan: &Plan,
    pieces: &[Descriptor],
    settings: &Settings,
) -> Result<Emission, AllocError>
    requires { CanBeEmitted settings.now plan.now (map fields pieces.now) }
    ensures portal { IfOk result (λ e.
        e.portal.items ≡ portal_bytes settings.now plan.now (map fields pieces.now)) }
    ensures staging { IfOk result (λ e.
        e.staging.items ≡ staging_bytes plan.now (map fields pieces.now)) }
{
    emit_entries(alloc, plan, pieces, settings)
}
