//! What the entries of a portal say, and whether those of the batches are right.

ghost use Rattle.std.specs.Prelude.{◌≡◌, ◌≢◌, ℕ, true, ◌+◌, ◌*◌, ◌<◌, ◌≤◌, ◌^◌, ◌↔◌, length, IsTrue, IfOk, IfErr, MatchOption};
ghost use Rattle.dsa_descriptor.specs.Faults.{AreZero};
ghost use Rattle.dsa_descriptor.specs.Lists.{entries};
ghost use Rattle.dsa_descriptor.specs.Places.{u32_at};
ghost use Rattle.dsa_descriptor.specs.Pieces.{most_pieces};
ghost use Rattle.dsa_emission.specs.declared.emission_fault.EmissionFault.TheVariants.{Memory};
ghost use Rattle.dsa_emission.specs.Emission.{batch_spelling};
ghost use Rattle.dsa_emission.specs.EmissionFaults.{is_batch_entry, entry_size, after_entry, place_at_end, piece_bytes, owner_at, IsBatchAt, IsRightAt, HasLengths, HasZeroRecord, IsFirstLengthFault};

use crate::emission::batch_entry;
use crate::emission_fault::EmissionFault;
use crate::place::Place;
use dsa_descriptor::MOST_PIECES;
use dsa_settings::Settings;

/// Whether the entry is that of a batch.
pub(crate) fn is_batch_entry(entry: &[u8; 64]) -> bool
    ensures { result ≡ is_batch_entry entry.now }
{
    entry[7] == 1
}

/// How many pieces the entry of a batch names.
#[tactic(auto, unfolding(dsa_descriptor::specs::Places::u32_at))]
fn count_at(entry: &[u8; 64]) -> u32
    ensures { result ≡ u32_at 32 entry.now }
{
    u32::from_le_bytes([entry[32], entry[33], entry[34], entry[35]])
}

/// How many pieces the entry submits.
pub(crate) fn entry_size(entry: &[u8; 64]) -> usize
    ensures size { result ≡ entry_size entry.now }
    ensures small { result < 2 ^ 32 }
{
    if is_batch_entry(entry) {
        count_at(entry) as usize
    } else {
        1
    }
}

/// What comes before the entry after this one.
pub(crate) fn after_entry(place: Place, entry: &[u8; 64]) -> Place
    requires few { place.start ≤ most_pieces }
    requires batches { place.batches < 2 ^ 60 }
    requires batched { place.batched ≤ place.start }
    ensures { result ≡ after_entry place entry.now }
{
    let size = entry_size(entry);
    if is_batch_entry(entry) {
        Place {
            start: place.start + size,
            batches: place.batches + 1,
            batched: place.batched + size,
        }
    } else {
        Place {
            start: place.start + 1,
            batches: place.batches,
            batched: place.batched,
        }
    }
}

/// What all entries have, if that is not too much.
pub(crate) fn place_at_end(all: &[[u8; 64]]) -> Option<Place>
    requires { length all.now < 2 ^ 58 }
    ensures { MatchOption result (most_pieces < (place_at_end all.now).start)
        (λ end. (end ≡ place_at_end all.now) × (end.start ≤ most_pieces)) }
{
    let mut place = Place::default();
    for entry in all {
        place = after_entry(place, entry);
        if place.start > MOST_PIECES {
            return None;
        }
    }
    Some(place)
}

/// What all entries have, if the lengths are right; else the first fault.
pub(crate) fn end_of_portal(portal: &[u8], staging: &[u8]) -> Result<Place, EmissionFault>
    ensures ok { IfOk result (λ end. (end ≡ place_at_end (entries portal.now)) ×
        HasLengths portal.now staging.now) }
    ensures err { IfErr result (λ fault. (fault ≢ Memory) ×
        IsFirstLengthFault portal.now staging.now fault) }
{
    if portal.len() % 64 != 0 {
        return Err(EmissionFault::PortalLength);
    }
    let (all, _) = portal.as_chunks::<64>();
    if let Some(end) = place_at_end(all) {
        if 64 * end.batched + 32 * end.batches == staging.len() {
            return Ok(end);
        }
    }
    Err(EmissionFault::StagingLength)
}

/// The PASID and the privilege of the first piece, as its first bytes have them.
pub(crate) fn first_owner(all: &[[u8; 64]], staged: &[[u8; 64]]) -> [u8; 4]
    ensures { result ≡ owner_at (piece_bytes all.now staged.now 0 0) }
{
    let mut first = all.first();
    if all.first().is_some_and(|entry| entry[7] == 1) {
        first = staged.first();
    }
    match first {
        Some(bytes) => [bytes[0], bytes[1], bytes[2], bytes[3]],
        None => [0; 4],
    }
}

/// Whether a batch's entry has a size that it may have, and the bytes of its place.
fn is_batch_at(
    entry: &[u8; 64],
    place: Place,
    total: usize,
    owner: &[u8; 4],
    settings: &Settings,
) -> bool
    requires total { total ≤ most_pieces }
    requires batches { place.batches ≤ most_pieces }
    requires batched { place.batched ≤ most_pieces }
    ensures { IsTrue result ↔ IsBatchAt settings.now owner.now total place entry.now }
{
    let count = count_at(entry);
    if count < 2 || u64::from(count) > settings.greatest_batch() {
        return false;
    }
    let staging = settings.staging();
    let record_at = staging + 64 * total as u64 + 32 * place.batches as u64;
    let list_at = staging + 64 * place.batched as u64;
    *entry == batch_entry(owner, record_at, list_at, count)
}

/// Whether the entry is that of a piece, or of a batch with the bytes of its place.
fn is_right_at(
    entry: &[u8; 64],
    place: Place,
    total: usize,
    owner: &[u8; 4],
    settings: &Settings,
) -> bool
    requires total { total ≤ most_pieces }
    requires batches { place.batches ≤ most_pieces }
    requires batched { place.batched ≤ most_pieces }
    ensures { IsTrue result ↔
        (is_batch_entry entry.now ≡ true → IsBatchAt settings.now owner.now total place entry.now) }
{
    if is_batch_entry(entry) {
        return is_batch_at(entry, place, total, owner, settings);
    }
    true
}

/// The first group with a wrong batch entry.
pub(crate) fn wrong_batch(
    all: &[[u8; 64]],
    total: usize,
    owner: &[u8; 4],
    settings: &Settings,
) -> Option<usize>
    requires few { (place_at_end all.now).start ≤ most_pieces }
    requires total { total ≡ (place_at_end all.now).batched }
    ensures { MatchOption result ((number : ℕ) → number < length all.now →
        IsRightAt settings.now all.now owner.now number) (λ number. (number < length all.now) ×
        ((g : ℕ) → g < number → IsRightAt settings.now all.now owner.now g) ×
        ¬ IsRightAt settings.now all.now owner.now number) }
{
    let mut place = Place::default();
    for (number, entry) in all.iter().enumerate() {
        if !is_right_at(entry, place, total, owner, settings) {
            return Some(number);
        }
        place = after_entry(place, entry);
    }
    None
}

/// Whether all of the bytes are zero.
fn are_zero(bytes: &[u8]) -> bool
    ensures { IsTrue result ↔ AreZero bytes.now }
{
    bytes.iter().all(|byte| *byte == 0)
}

/// The first of so many batches whose 32 record bytes aren't all zero.
pub(crate) fn wrong_record(records: &[u8], batches: usize) -> Option<usize>
    requires { 32 * batches ≤ length records.now }
    ensures { MatchOption result
        ((batch : ℕ) → batch < batches → HasZeroRecord records.now batch)
        (λ batch. (batch < batches) × ((b : ℕ) → b < batch → HasZeroRecord records.now b) ×
        ¬ HasZeroRecord records.now batch) }
{
    for batch in 0..batches {
        if !are_zero(&records[32 * batch..32 * batch + 32]) {
            return Some(batch);
        }
    }
    None
}
