//! How much room the bytes to submit need.

ghost use Rattle.std.specs.Prelude.{◌≡◌, ◌<◌, ◌≤◌, ◌^◌, length, Ok};
ghost use Rattle.dsa_calls.specs.Fenced.{PlansFenced};
ghost use Rattle.dsa_calls.specs.Planned.{Submission};
ghost use Rattle.dsa_c.specs.Raw.{limits_of, AreSettings};
ghost use Rattle.dsa_c.specs.Counting.{size_of, pieces_of, CountsEntries, IsCount, HasRoom};

use crate::settings::{RawSettings, settings_of};
use dsa_calls::MOST_PIECES;

/// The transfer size of the entry.
#[tactic(auto, unfolding(dsa_descriptor::specs::Places::u32_at))]
fn size_of(entry: &[u8; 64]) -> u32
    ensures { result ≡ size_of entry.now }
{
    u32::from_le_bytes([entry[32], entry[33], entry[34], entry[35]])
}

/// How many pieces an operation of this entry has.
#[tactic(auto, unfolding(dsa_image::specs::Lines::quotient_up))]
fn pieces_of(entry: &[u8; 64], greatest: u64) -> u64
    requires { 8 ≤ greatest }
    ensures value { result ≡ pieces_of greatest entry.now }
    ensures few { result < 2 ^ 32 }
{
    u64::from(size_of(entry)).div_ceil(greatest)
}

/// How many pieces the operations of the entries have, or None for more than may be planned.
fn count(entries: &[[u8; 64]], greatest: u64) -> Option<u64>
    requires { 8 ≤ greatest }
    ensures { CountsEntries greatest entries.now result }
{
    let mut total = 0;
    for entry in entries {
        total += pieces_of(entry, greatest);
        if total > MOST_PIECES as u64 {
            return None;
        }
    }
    Some(total)
}

/// How many pieces a planned list has: 64 bytes for each are enough room for the portal, and 80 for the staging area.
/// It returns 65,537 for a list of more pieces than may be planned, and 0 for numbers that are no settings. It
/// allocates nothing, and looks only at the sizes.
#[unsafe(no_mangle)]
pub extern "C" fn dsa_count_pieces(settings: &RawSettings, table: &[u64], list: &[u8]) -> u64
    ensures counted { IsCount settings.now table.now list.now result }
    ensures planned { (p : Submission) → AreSettings settings.now table.now →
        PlansFenced list.now (limits_of settings.now table.now) (Ok p) →
        (result ≡ length p.pieces) × HasRoom p }
{
    let Some(checked) = settings_of(settings, table) else {
        return 0;
    };
    let (entries, _) = list.as_chunks::<64>();
    match count(entries, checked.greatest_transfer()) {
        Some(pieces) => pieces,
        None => MOST_PIECES as u64 + 1,
    }
}
