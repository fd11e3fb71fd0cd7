//! Preparing a list into an array of the caller.

ghost use Rattle.std.specs.Prelude.{◌≡◌, ◌≢◌, ℕ, ◌<◌, ◌≤◌, List, length, MatchResult};
ghost use Rattle.dsa_prepared.specs.Rows.{rows_of};
ghost use Rattle.dsa_c.specs.declared.settings.RawSettings.{RawSettings};
ghost use Rattle.dsa_c.specs.Raw.{AreSettings, limits_of};
ghost use Rattle.dsa_c.specs.Preparing.{IsPreparedFor, IsPreparedInto, RefusesPrepare, info_of, no_room_for_rows, prepare_refusal_of, prepared_room};

use crate::buffer::put;
use crate::refusal::{RawRefusal, refusal, refusal_at};
use crate::settings::{RawSettings, settings_of, settings_refusal};
use dsa_descriptor::Span;
use dsa_plan::Settings;
use dsa_prepared::{Costed, PrepareFault, Row, prepare_any_list};
use std::alloc::Global;

/// The number of the refusal of an array that is too small for the rows.
pub const NO_ROOM_FOR_ROWS: u32 = 92;

/// `struct dsa_prepared_info`: what was prepared, and what filling writes.
#[repr(C)]
#[derive(Clone, Copy)]
pub struct RawInfo {
    /// What the plan costs, in the unit of the settings' prices.
    pub cost: u64,
    /// The number of pieces.
    pub pieces: u64,
    /// The rows that were written.
    pub rows: u64,
    /// The bytes that filling writes to the portal, 64 for each group.
    pub portal_len: u64,
    /// The bytes that filling writes to the staging area.
    pub staging_len: u64,
}

/// The refusal of this cause.
fn prepare_refusal(fault: PrepareFault) -> RawRefusal
    ensures value { result ≡ prepare_refusal_of fault }
    ensures some { 0 < result.number }
{
    match fault {
        PrepareFault::Plan(cause) => refusal(cause),
        PrepareFault::RegionWrap(place)
        | PrepareFault::RegionOrder(place)
        | PrepareFault::Outside(place) => refusal_at(fault.number() as u32, place as u64, 0),
    }
}

/// What was prepared, and what filling writes.
fn info_of(costed: &Costed) -> RawInfo
    ensures { result ≡ info_of costed.now.prepared costed.now.cost }
{
    RawInfo {
        cost: costed.cost,
        pieces: costed.prepared.piece_count() as u64,
        rows: costed.prepared.as_rows().len() as u64,
        portal_len: costed.prepared.portal_len() as u64,
        staging_len: costed.prepared.staging_len() as u64,
    }
}

/// The prepared list under given settings, if it is prepared and its rows fit.
fn prepare_under(
    alloc: Global,
    settings: &Settings,
    list: &[u8],
    regions: &[Span],
    room: usize,
) -> Result<Costed, RawRefusal>
    ensures { (raw : RawSettings) (table : List ℕ) → settings.now ≡ limits_of raw table →
        AreSettings raw table → MatchResult result
        (λ x. IsPreparedFor raw table list.now regions.now x.prepared x.cost
        × (length (rows_of x.prepared) ≤ room))
        (λ r. (0 < r.number)
        × RefusesPrepare raw table list.now regions.now room r) }
{
    match prepare_any_list(alloc, list, settings, regions) {
        Ok(costed) => {
            let rows = costed.prepared.as_rows().len();
            if rows <= room {
                Ok(costed)
            } else {
                Err(refusal_at(NO_ROOM_FOR_ROWS, rows as u64, 0))
            }
        }
        Err(fault) => Err(prepare_refusal(fault)),
    }
}

/// The prepared list, if it is prepared and its rows fit.
fn prepare_for(
    alloc: Global,
    settings: &RawSettings,
    table: &[u64],
    list: &[u8],
    regions: &[Span],
    room: usize,
) -> Result<Costed, RawRefusal>
    ensures { MatchResult result
        (λ x. IsPreparedFor settings.now table.now list.now regions.now
        x.prepared x.cost × (length (rows_of x.prepared) ≤ room))
        (λ r. (0 < r.number) × RefusesPrepare settings.now table.now list.now
        regions.now room r) }
{
    match &settings_of(settings, table) {
        Some(checked) => prepare_under(alloc, checked, list, regions, room),
        None => Err(settings_refusal(settings)),
    }
}

/// Plans a list as [`dsa_plan_list`](crate::dsa_plan_list) does, and writes its submission to `rows`, with each address
/// as a region and an offset, for [`dsa_fill`](crate::dsa_fill). It returns 0 then; else it returns the number of the
/// refusal, and has written only `refusal`.
#[unsafe(no_mangle)]
pub extern "C" fn dsa_prepare(
    alloc: Global,
    settings: &RawSettings,
    table: &[u64],
    list: &[u8],
    regions: &[Span],
    rows: &mut [Row],
    info: &mut RawInfo,
    refusal: &mut RawRefusal,
) -> u32
    // What is written are the rows of the prepared list, at the front of the array, and its rest is unchanged.
    ensures prepared { result ≡ 0 → IsPreparedInto settings.now table.now list.now
        regions.now rows.old rows.new info.new }
    // So many rows are enough.
    ensures room { result ≡ 0 →
        info.new.rows ≤ prepared_room (length regions.now) info.new.pieces }
    // Otherwise the array is unchanged, and the refusal has its cause.
    ensures unchanged { result ≢ 0 → (rows.new ≡ rows.old) × (info.new ≡ info.old) }
    ensures refused { result ≢ 0 → (result ≡ refusal.new.number)
        × RefusesPrepare settings.now table.now list.now regions.now
        (length rows.old) refusal.new }
    ensures quiet { result ≡ 0 → refusal.new ≡ refusal.old }
{
    match prepare_for(alloc, settings, table, list, regions, rows.len()) {
        Ok(costed) => {
            put(rows, costed.prepared.as_rows());
            *info = info_of(&costed);
            0
        }
        Err(cause) => {
            *refusal = cause;
            cause.number
        }
    }
}
