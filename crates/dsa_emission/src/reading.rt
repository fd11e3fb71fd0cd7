//! Reading back the bytes that submit a plan.

ghost use Rattle.std.specs.Prelude.{◌≡◌, ◌≢◌, ℕ, true, ◌+◌, ◌*◌, ◌<◌, ◌≤◌, ◌⊎◌, ◌↔◌, ◌++◌, List, [], length, slice_index_or, IsTrue, IfOk, IfErr, MatchResult, Bool};
ghost use Rattle.dsa_descriptor.specs.declared.descriptor.Descriptor.{Descriptor};
ghost use Rattle.dsa_descriptor.specs.Lists.{AgreeOnOwner};
ghost use Rattle.dsa_descriptor.specs.Spans.{InSome, InSpan};
ghost use Rattle.dsa_descriptor.specs.Pieces.{most_pieces};
ghost use Rattle.dsa_ranges.specs.Pieces.{kind_of};
ghost use Rattle.dsa_emission.specs.declared.emission_fault.EmissionFault.{EmissionFault};
ghost use Rattle.dsa_emission.specs.declared.emission_fault.EmissionFault.TheVariants.{Memory};
ghost use Rattle.dsa_emission.specs.EmissionFaults.{is_batch_entry, entry_size, bytes_at, Spells, IsFit, IsFirstEntryFault, IsFirstGroupFault, IsFirstPortalFault, IsGroupRead, IsRead, place_at_end, IsEmission, IsEmissionAs, IsFirstEmissionFault, IsFirstEmissionFaultAs};

use crate::demands::Demands;
use crate::emission_fault::{EmissionFault, EntryFault};
use crate::place::Place;
use crate::portal::{
    after_entry, end_of_portal, entry_size, first_owner, is_batch_entry, wrong_batch, wrong_record,
};
use dsa_descriptor::{Descriptor, Span, is_fenced, unfenced};
use dsa_ranges::{Piece, meets_some};
use dsa_settings::{Group, Plan, STAGED_LEN, Settings};
use std::alloc::Global;

/// Whether the bytes of a piece have the PASID and the privilege that are demanded.
#[tactic(auto, unfolding(dsa_descriptor::specs::Places::u32_at))]
fn is_owned(bytes: &[u8; 64], demands: &Demands) -> bool
    ensures { IsTrue result ↔ AgreeOnOwner demands.now.owner bytes.now }
{
    let owner = u32::from_le_bytes(demands.owner);
    let own = u32::from_le_bytes([bytes[0], bytes[1], bytes[2], bytes[3]]);
    owner % (1 << 20) == own % (1 << 20) && (owner >> 31 == 1) == (own >> 31 == 1)
}

/// Whether the piece reads or writes an address of the area.
fn touches<P: Piece>(piece: &P, area: Span) -> bool
    ensures { IsTrue result ↔ ((address : ℕ) × InSpan area address ×
        (InSome (P.reads piece.now) address ⊎ InSome (P.writes piece.now) address)) }
{
    let touched = piece.touched_spans();
    if meets_some(area, &touched.reads) {
        return true;
    }
    meets_some(area, &touched.writes)
}

/// The piece that the bytes spell, fenced or not, if it meets the demands.
fn read_piece<P: Piece>(bytes: &[u8; 64], demands: &Demands) -> Result<P, EntryFault>
    ensures found { let kind = kind_of P.spelling P.keeps P.size P.reads P.writes in
        IfOk result (λ piece. Spells kind bytes.now piece × IsFit kind demands.now piece) }
    ensures fault { let kind = kind_of P.spelling P.keeps P.size P.reads P.writes in
        IfErr result (IsFirstEntryFault kind demands.now bytes.now) }
{
    let plain = unfenced(bytes);
    let piece = P::read_entry(&plain)?;
    if u64::from(piece.transfer_size()) > demands.greatest {
        return Err(EntryFault::OverTransfer);
    }
    if !is_owned(&plain, demands) {
        return Err(EntryFault::MixedPasid);
    }
    if touches(&piece, demands.area) {
        return Err(EntryFault::StagingMeets);
    }
    Ok(piece)
}

/// The bytes of piece `k` of the group with this entry.
fn piece_bytes<'a>(
    staged: &'a [[u8; 64]],
    place: Place,
    entry: &'a [u8; 64],
    k: usize,
) -> &'a [u8; 64]
    requires { is_batch_entry entry.now ≡ true → place.batched + k < length staged.now }
    ensures { result.now ≡ bytes_at staged.now place entry.now k }
{
    if is_batch_entry(entry) {
        &staged[place.batched + k]
    } else {
        entry
    }
}

/// Reads the group with this entry, and adds its pieces.
fn read_group<P: Piece>(
    alloc: Global,
    pieces: &mut Vec<P>,
    number: usize,
    place: Place,
    entry: &[u8; 64],
    staged: &[[u8; 64]],
    demands: &Demands,
) -> Result<Group, EmissionFault>
    requires nonempty { 0 < entry_size entry.now }
    requires few { place.start + entry_size entry.now ≤ most_pieces }
    requires inside { is_batch_entry entry.now ≡ true →
        place.batched + entry_size entry.now ≤ length staged.now }
    ensures ok { let kind = kind_of P.spelling P.keeps P.size P.reads P.writes in
        IfOk result (λ group. (ps : List P) × (pieces.new.items ≡ pieces.old.items ++ ps) ×
        IsGroupRead kind demands.now
        (bytes_at staged.now place entry.now) (entry_size entry.now) group ps) }
    ensures err { let kind = kind_of P.spelling P.keeps P.size P.reads P.writes in
        IfErr result (λ fault. (fault ≡ Memory) ⊎ IsFirstGroupFault kind demands.now
        (bytes_at staged.now place entry.now) number place.start (entry_size entry.now) fault) }
{
    if is_fenced(piece_bytes(staged, place, entry, 0)) {
        return Err(EmissionFault::EntryFence(number));
    }
    let size = entry_size(entry);
    let mut fences = Vec::with_capacity(alloc, size)?;
    for k in 0..size {
        let bytes = piece_bytes(staged, place, entry, k);
        let piece = match read_piece(bytes, demands) {
            Ok(piece) => piece,
            Err(fault) => return Err(EmissionFault::Entry(place.start + k, fault)),
        };
        fences.push(is_fenced(bytes))?;
        pieces.push(piece)?;
    }
    Ok(Group::new(fences))
}

/// The plan and the pieces of entries that are right.
fn read_groups<P: Piece>(
    alloc: Global,
    all: &[[u8; 64]],
    staged: &[[u8; 64]],
    demands: &Demands,
) -> Result<(Plan, Vec<P>), EmissionFault>
    requires few { (place_at_end all.now).start ≤ most_pieces }
    requires inside { (place_at_end all.now).batched ≤ length staged.now }
    requires sized { (g : ℕ) → g < length all.now → 0 < entry_size (slice_index_or all.now g []) }
    ensures ok { let kind = kind_of P.spelling P.keeps P.size P.reads P.writes in IfOk result
        (λ read. IsRead kind demands.now all.now staged.now (length all.now) read.0 read.1.items) }
    ensures err { let kind = kind_of P.spelling P.keeps P.size P.reads P.writes in
        IfErr result (λ fault. (fault ≡ Memory) ⊎
        IsFirstPortalFault kind demands.now all.now staged.now fault) }
{
    let mut groups = Vec::with_capacity(alloc, all.len())?;
    let mut pieces = Vec::new(alloc);
    let mut place = Place::default();
    for (number, entry) in all.iter().enumerate() {
        let group = read_group(alloc, &mut pieces, number, place, entry, staged, demands)?;
        groups.push(group)?;
        place = after_entry(place, entry);
    }
    Ok((Plan::new(groups), pieces))
}

/// The plan and the pieces that these bytes submit. The bytes are read exactly if they are what
/// [`emit_entries`](crate::emit_entries) makes of a plan and pieces of that kind.
///
/// # Errors
/// The first of these: [`EmissionFault::PortalLength`]; [`EmissionFault::StagingLength`]; for the least group
/// [`EmissionFault::BatchFields`]; for the least piece [`EmissionFault::EntryFence`], or else
/// [`EmissionFault::Entry`] with its first fault; for the least batch [`EmissionFault::RecordBytes`]. Once the entries
/// of batches are right, [`EmissionFault::Memory`] is reported if an allocation fails, before the faults not yet found.
pub fn read_submitted<P: Piece>(
    alloc: Global,
    portal: &[u8],
    staging: &[u8],
    settings: &Settings,
) -> Result<(Plan, Vec<P>), EmissionFault>
    ensures found { let kind = kind_of P.spelling P.keeps P.size P.reads P.writes in IfOk result
        (λ read. IsEmissionAs kind settings.now portal.now staging.now read.0 read.1.items) }
    ensures only { let kind = kind_of P.spelling P.keeps P.size P.reads P.writes in
        (plan : List (List Bool)) (ps : List P) →
        IsEmissionAs kind settings.now portal.now staging.now plan ps → MatchResult result
        (λ read. (read.0 ≡ plan) × (read.1.items ≡ ps)) (λ fault. fault ≡ Memory) }
    ensures fault { let kind = kind_of P.spelling P.keeps P.size P.reads P.writes in
        IfErr result (IsFirstEmissionFaultAs kind settings.now portal.now staging.now) }
    ensures refused { let kind = kind_of P.spelling P.keeps P.size P.reads P.writes in
        (fault : EmissionFault) → fault ≢ Memory →
        IsFirstEmissionFaultAs kind settings.now portal.now staging.now fault →
        MatchResult result (λ _. ⊥) (λ told. (told ≡ fault) ⊎ (told ≡ Memory)) }
{
    P::are_entries();
    let end = end_of_portal(portal, staging)?;
    let (all, _) = portal.as_chunks::<64>();
    let (staged, _) = staging.as_chunks::<64>();
    let owner = first_owner(all, staged);
    if let Some(number) = wrong_batch(all, end.batched, &owner, settings) {
        return Err(EmissionFault::BatchFields(number));
    }
    let demands = Demands {
        owner,
        area: Span {
            first: settings.staging(),
            len: STAGED_LEN * end.start as u64,
        },
        greatest: settings.greatest_transfer(),
    };
    let read = read_groups(alloc, all, staged, &demands)?;
    if let Some(batch) = wrong_record(&staging[64 * end.batched..], end.batches) {
        return Err(EmissionFault::RecordBytes(batch));
    }
    Ok(read)
}

/// The plan and the pieces that these bytes submit. The bytes are read exactly if they are what [`emit`](crate::emit)
/// makes of a plan and pieces.
///
/// # Errors
/// The first of these: [`EmissionFault::PortalLength`]; [`EmissionFault::StagingLength`]; for the least group
/// [`EmissionFault::BatchFields`]; for the least piece [`EmissionFault::EntryFence`], or else
/// [`EmissionFault::Entry`] with its first fault; for the least batch [`EmissionFault::RecordBytes`]. Once the entries
/// of batches are right, [`EmissionFault::Memory`] is reported if an allocation fails, before the faults not yet found.
pub fn read_emission(
    alloc: Global,
    portal: &[u8],
    staging: &[u8],
    settings: &Settings,
) -> Result<(Plan, Vec<Descriptor>), EmissionFault>
    ensures found { IfOk result
        (λ read. IsEmission settings.now portal.now staging.now read.0 read.1.items) }
    ensures only { (plan : List (List Bool)) (ds : List Descriptor) →
        IsEmission settings.now portal.now staging.now plan ds → MatchResult result
        (λ read. (read.0 ≡ plan) × (read.1.items ≡ ds)) (λ fault. fault ≡ Memory) }
    ensures fault { IfErr result (IsFirstEmissionFault settings.now portal.now staging.now) }
    ensures refused { (fault : EmissionFault) →
        fault ≢ Memory → IsFirstEmissionFault settings.now portal.now staging.now fault →
        MatchResult result (λ _. ⊥) (λ told. (told ≡ fault) ⊎ (told ≡ Memory)) }
{
    read_submitted(alloc, portal, staging, settings)
}
