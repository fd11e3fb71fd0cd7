//! What is worth a warning about the plan of a list, into an array of the caller.

ghost use Rattle.std.specs.Prelude.{◌≡◌, ◌≢◌, ◌<◌, ◌≤◌, IfOk, length, map, MatchResult, take};
ghost use Rattle.dsa_descriptor.specs.Pieces.{most_pieces};
ghost use Rattle.dsa_settings.specs.Plan.{piece_count};
ghost use Rattle.dsa_c.specs.Planning.{AreOfPlan};
ghost use Rattle.dsa_c.specs.Raw.{written};
ghost use Rattle.dsa_c.specs.Warnings.{AreRawWarningsOf, AreWarningsInto, RefusesWarn, concern_in, raw_warning_of, warning_words_of};

use crate::buffer::put;
use crate::planning::planned_for;
use crate::refusal::{RawRefusal, refusal, refusal_at};
use crate::settings::RawSettings;
use crate::texts::put_front;
use dsa_calls::PlanFault;
use dsa_lists::AnyPlanned;
use dsa_warnings::{Concern, Warning, warning_text, warnings_of};
use std::alloc::{AllocError, Global};

/// The number of the refusal of an array that is too small for the warnings.
pub const NO_ROOM_FOR_WARNINGS: u32 = 95;

/// `struct dsa_warning`: what is worth a warning about a piece.
#[repr(C)]
#[derive(Clone, Copy)]
pub struct RawWarning {
    /// What it is, 1 to 4.
    pub kind: u64,
    /// The piece.
    pub piece: u64,
    /// Of the first kind the earlier piece, else 0.
    pub other: u64,
}

/// A warning as C lays it out.
fn raw_warning(warning: &Warning) -> RawWarning
    ensures { result ≡ raw_warning_of warning.now }
{
    let (kind, other) = match warning.concern {
        Concern::SharedRecord(earlier) => (1, earlier as u64),
        Concern::Unchecked => (2, 0),
        Concern::Unguarded => (3, 0),
        Concern::Overlap => (4, 0),
    };
    RawWarning {
        kind,
        piece: warning.piece as u64,
        other,
    }
}

/// What a warning of C is, if it is one.
fn concern_in(raw: &RawWarning) -> Option<Concern>
    ensures { result ≡ concern_in raw.now }
{
    if raw.kind == 1 {
        return Some(Concern::SharedRecord(raw.other as usize));
    }
    if raw.kind == 2 {
        return Some(Concern::Unchecked);
    }
    if raw.kind == 3 {
        return Some(Concern::Unguarded);
    }
    if raw.kind == 4 {
        return Some(Concern::Overlap);
    }
    None
}

/// The warnings as C lays them out.
fn raw_warnings(alloc: Global, warnings: &[Warning]) -> Result<Vec<RawWarning>, AllocError>
    ensures { IfOk result (λ raw. raw.items ≡ map raw_warning_of warnings.now) }
{
    let mut raw = Vec::with_capacity(alloc, warnings.len())?;
    for warning in warnings {
        raw.push(raw_warning(warning))?;
    }
    Ok(raw)
}

/// What is worth a warning about what is planned.
fn warnings_in(alloc: Global, planned: &AnyPlanned) -> Result<Vec<RawWarning>, AllocError>
    requires all { piece_count planned.now.plan ≡ length planned.now.operations.items }
    requires few { length planned.now.operations.items ≤ most_pieces }
    ensures { IfOk result (λ raw. AreRawWarningsOf planned.now.operations.items
        planned.now.barriers.items planned.now.plan raw.items) }
{
    let (plan, operations) = (&planned.plan, planned.operations.as_slice());
    let warnings = warnings_of(alloc, plan, operations, &planned.barriers)?;
    raw_warnings(alloc, &warnings)
}

/// What is worth a warning about the plan of a list, if it is planned and there is room.
fn warnings_for(
    alloc: Global,
    settings: &RawSettings,
    table: &[u64],
    list: &[u8],
    room: usize,
) -> Result<Vec<RawWarning>, RawRefusal>
    ensures { MatchResult result
        (λ warnings. AreOfPlan AreRawWarningsOf settings.now table.now list.now warnings.items
        × (length warnings.items ≤ room))
        (λ r. (0 < r.number) × RefusesWarn settings.now table.now list.now room r) }
{
    let planned = match planned_for(alloc, settings, table, list) {
        Ok(planned) => planned,
        Err(cause) => return Err(cause),
    };
    let Ok(warnings) = warnings_in(alloc, &planned) else {
        return Err(refusal(PlanFault::Memory));
    };
    if warnings.len() > room {
        return Err(refusal_at(NO_ROOM_FOR_WARNINGS, warnings.len() as u64, 0));
    }
    Ok(warnings)
}

/// Plans a list as [`dsa_plan_list`](crate::dsa_plan_list) does, and writes to `warnings` what is worth a warning about
/// its pieces, in their order, and to `count` how much it is: that one writes into the completion record of another,
/// that the result of a compare does not stop all that comes after it, that a move's source and destination overlap. It
/// returns 0 then; else it returns the number of the refusal, and has written only `refusal`.
#[unsafe(no_mangle)]
pub extern "C" fn dsa_warn_list(
    alloc: Global,
    settings: &RawSettings,
    table: &[u64],
    list: &[u8],
    warnings: &mut [RawWarning],
    count: &mut u64,
    refusal: &mut RawRefusal,
) -> u32
    // What is written are the warnings, at the front of the array, and its rest is unchanged.
    ensures warned { result ≡ 0 → AreWarningsInto settings.now table.now list.now
        warnings.old warnings.new count.new }
    ensures unchanged { result ≢ 0 → (warnings.new ≡ warnings.old) × (count.new ≡ count.old) }
    ensures refused { result ≢ 0 → (result ≡ refusal.new.number)
        × RefusesWarn settings.now table.now list.now (length warnings.old) refusal.new }
    ensures quiet { result ≡ 0 → refusal.new ≡ refusal.old }
{
    match warnings_for(alloc, settings, table, list, warnings.len()) {
        Ok(found) => {
            put(warnings, &found);
            *count = found.len() as u64;
            0
        }
        Err(cause) => {
            *refusal = cause;
            cause.number
        }
    }
}

/// Writes what a warning says, to the front of `text`, as far as there is room, and leaves the rest of it. It returns
/// how many bytes the sentence has; 0, and then `text` is unchanged, if an allocation failed, or if it is no warning.
#[unsafe(no_mangle)]
pub extern "C" fn dsa_warning_text(alloc: Global, warning: &RawWarning, text: &mut [u8]) -> u64
    ensures len { result ≢ 0 → result ≡ length (warning_words_of warning.now) }
    ensures written { result ≢ 0 →
        text.new ≡ written (take (length text.old) (warning_words_of warning.now)) text.old }
    ensures unchanged { result ≡ 0 → text.new ≡ text.old }
{
    let Some(concern) = concern_in(warning) else {
        return 0;
    };
    let piece = warning.piece as usize;
    let Ok(said) = warning_text(alloc, &Warning { piece, concern }) else {
        return 0;
    };
    let bytes = said.as_bytes();
    put_front(text, bytes);
    bytes.len() as u64
}
