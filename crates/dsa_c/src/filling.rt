//! Filling a prepared list from the caller's rows into the caller's buffers.

ghost use Rattle.std.specs.Prelude.{◌≡◌, ◌≢◌, ℕ, ◌<◌, List, length};
ghost use Rattle.dsa_descriptor.specs.declared.descriptor.Descriptor.{Descriptor};
ghost use Rattle.dsa_operations.specs.declared.operation.Operation.{Operation};
ghost use Rattle.dsa_settings.specs.Settings.{Limits};
ghost use Rattle.dsa_prepared.specs.Filling.{IsAnyPlannedInto, IsPlannedInto};
ghost use Rattle.dsa_prepared.specs.Preparing.{IsAnyPreparedOf, IsPreparedOf};
ghost use Rattle.dsa_prepared.specs.Rows.{template_in};
ghost use Rattle.dsa_c.specs.declared.refusal.RawRefusal.{RawRefusal};
ghost use Rattle.dsa_c.specs.Preparing.{IsFilledInto, RefusesFill, fill_refusal_of};

use crate::refusal::{RawRefusal, first_two, refusal_at};
use dsa_prepared::{FillFault, Row, are_prepared, fill_rows};

/// The number of the refusal of rows that are no prepared list.
pub const NOT_PREPARED: u32 = 111;

/// The refusal of this cause.
fn fill_refusal(fault: FillFault) -> RawRefusal
    ensures value { result ≡ fill_refusal_of fault }
    ensures some { 0 < result.number }
{
    let (first, second) = first_two(fault.indices());
    refusal_at(fault.number() as u32, first, second)
}

/// Writes what submits the prepared list if its regions have these bases and the staging area this address: the
/// portal's bytes at the front of `portal`, those of the staging area at the front of `area`. It allocates nothing. It
/// returns 0 then; else it returns the number of the refusal, and has written only `refusal`.
#[unsafe(no_mangle)]
pub extern "C" fn dsa_fill(
    rows: &[Row],
    bases: &[u64],
    staging: u64,
    portal: &mut [u8],
    area: &mut [u8],
    refusal: &mut RawRefusal,
) -> u32
    // What is written are the bytes of the rows' template at the new addresses, and the rest of the buffers is
    // unchanged.
    ensures filled { result ≡ 0 → IsFilledInto rows.now bases.now staging
        portal.old portal.new area.old area.new }
    // They are what planning the list on the new buffers answers.
    ensures planned { (list : List ℕ) (s : Limits) (ds : List Descriptor) →
        IsPreparedOf list s (template_in rows.now).regions ds (template_in rows.now) →
        result ≡ 0 → IsPlannedInto (template_in rows.now).regions bases.now staging s list ds
        portal.old portal.new area.old area.new }
    // The same of a list that may have checksums.
    ensures planned_any { (list : List ℕ) (s : Limits) (operations : List Operation) →
        IsAnyPreparedOf list s (template_in rows.now).regions operations (template_in rows.now) →
        result ≡ 0 → IsAnyPlannedInto (template_in rows.now).regions bases.now staging s list
        operations portal.old portal.new area.old area.new }
    // A refusal is the first cause, and if there is a cause, it is the answer.
    ensures refused { result ≢ 0 → (result ≡ refusal.new.number)
        × RefusesFill rows.now bases.now staging (length portal.old) (length area.old) refusal.new }
    ensures exact { (r : RawRefusal) → RefusesFill rows.now bases.now staging
        (length portal.old) (length area.old) r → (result ≡ r.number) × (refusal.new ≡ r) }
    // Then nothing else is written.
    ensures unchanged { result ≢ 0 → (portal.new ≡ portal.old) × (area.new ≡ area.old) }
    ensures quiet { result ≡ 0 → refusal.new ≡ refusal.old }
{
    if !are_prepared(rows) {
        *refusal = refusal_at(NOT_PREPARED, 0, 0);
        return NOT_PREPARED;
    }
    match fill_rows(rows, bases, staging, portal, area) {
        Ok(()) => 0,
        Err(fault) => {
            let cause = fill_refusal(fault);
            *refusal = cause;
            cause.number
        }
    }
}
