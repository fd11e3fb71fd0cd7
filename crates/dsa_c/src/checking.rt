//! Checking bytes to submit, with a certificate: by themselves, or for a list.

ghost use Rattle.std.specs.Prelude.{◌≡◌, ◌≢◌, ◌<◌, MatchResult};
ghost use Rattle.dsa_c.specs.Certificates.{contents_of};
ghost use Rattle.dsa_c.specs.Checking.{IsCheckedCost, IsCheckedListCost, RefusesCheck, RefusesCheckList, list_refusal_of};

use crate::certificate::{RawPair, certificate_of};
use crate::refusal::{RawRefusal, refusal, refusal_at};
use crate::settings::{RawSettings, settings_of, settings_refusal};
use dsa_calls::{FencedFault, PlanFault, check_submitted};
use dsa_lists::check_any_list;
use dsa_operations::Operation;
use std::alloc::Global;

/// The number of the refusal of a piece that is not the list's.
pub const OTHER_PIECE: u32 = 66;

/// A certificate in the arrays of the caller.
#[derive(Clone, Copy)]
struct RawCertificate<'a> {
    version: u64,
    prices: &'a [u64],
    pairs: &'a [RawPair],
}

/// The cost of the bytes, if the certificate checks.
fn check_for(
    alloc: Global,
    settings: &RawSettings,
    table: &[u64],
    portal: &[u8],
    staging: &[u8],
    given: &RawCertificate<'_>,
) -> Result<u64, RawRefusal>
    ensures { let s = settings.now in let t = table.now in
        let c = contents_of given.now.version given.now.prices.now given.now.pairs.now in
        MatchResult result
        (λ cost. IsCheckedCost s t portal.now staging.now c cost)
        (λ r. (0 < r.number) × RefusesCheck s t portal.now staging.now c r) }
{
    let Some(checked) = settings_of(settings, table) else {
        return Err(settings_refusal(settings));
    };
    let Ok(certificate) = certificate_of(alloc, given.version, given.prices, given.pairs) else {
        return Err(refusal(PlanFault::Memory));
    };
    match check_submitted::<Operation>(alloc, portal, staging, &checked, &certificate) {
        Ok(cost) => Ok(cost),
        Err(fault) => Err(refusal(fault)),
    }
}

/// Checks the bytes of a portal and a staging area, which may submit checksums, with a certificate of this version, and
/// writes the cost of their plan to `cost` if no legal plan of their pieces costs less. It returns 0 then; else it
/// returns the number of the refusal, and has written only `refusal`.
#[unsafe(no_mangle)]
pub extern "C" fn dsa_check(
    alloc: Global,
    settings: &RawSettings,
    table: &[u64],
    portal: &[u8],
    staging: &[u8],
    version: u64,
    prices: &[u64],
    pairs: &[RawPair],
    cost: &mut u64,
    refusal: &mut RawRefusal,
) -> u32
    ensures checked { result ≡ 0 →
        IsCheckedCost settings.now table.now portal.now staging.now
        (contents_of version prices.now pairs.now) cost.new }
    ensures unchanged { result ≢ 0 → cost.new ≡ cost.old }
    ensures refused { result ≢ 0 → (result ≡ refusal.new.number)
        × RefusesCheck settings.now table.now portal.now staging.now
        (contents_of version prices.now pairs.now) refusal.new }
    ensures quiet { result ≡ 0 → refusal.new ≡ refusal.old }
{
    let given = RawCertificate {
        version,
        prices,
        pairs,
    };
    match check_for(alloc, settings, table, portal, staging, &given) {
        Ok(found) => {
            *cost = found;
            0
        }
        Err(cause) => {
            *refusal = cause;
            cause.number
        }
    }
}

/// The refusal of this cause.
fn list_refusal(fault: FencedFault) -> RawRefusal
    ensures value { result ≡ list_refusal_of fault }
    ensures some { 0 < result.number }
{
    match fault {
        FencedFault::Call(fault) => refusal(fault),
        FencedFault::OtherPiece(piece) => refusal_at(OTHER_PIECE, piece as u64, 0),
    }
}

/// The cost of the bytes for the list, if the certificate checks.
fn check_list_for(
    alloc: Global,
    settings: &RawSettings,
    table: &[u64],
    list: &[u8],
    portal: &[u8],
    staging: &[u8],
    given: &RawCertificate<'_>,
) -> Result<u64, RawRefusal>
    ensures { let s = settings.now in let t = table.now in
        let c = contents_of given.now.version given.now.prices.now given.now.pairs.now in
        MatchResult result
        (λ cost. IsCheckedListCost s t list.now portal.now staging.now c cost)
        (λ r. (0 < r.number)
        × RefusesCheckList s t list.now portal.now staging.now c r) }
{
    let Some(checked) = settings_of(settings, table) else {
        return Err(settings_refusal(settings));
    };
    let Ok(certificate) = certificate_of(alloc, given.version, given.prices, given.pairs) else {
        return Err(refusal(PlanFault::Memory));
    };
    match check_any_list(alloc, list, portal, staging, &checked, &certificate) {
        Ok(cost) => Ok(cost),
        Err(fault) => Err(list_refusal(fault)),
    }
}

/// Checks the bytes of a portal and a staging area as [`dsa_check`] does, for a list whose fences are barriers and that
/// may have checksums: writes the cost of their plan to `cost` if they submit the pieces of the list, the plan keeps
/// each barrier, and no legal plan that does costs less. It returns 0 then; else it returns the number of the refusal,
/// and has written only `refusal`.
#[unsafe(no_mangle)]
pub extern "C" fn dsa_check_list(
    alloc: Global,
    settings: &RawSettings,
    table: &[u64],
    list: &[u8],
    portal: &[u8],
    staging: &[u8],
    version: u64,
    prices: &[u64],
    pairs: &[RawPair],
    cost: &mut u64,
    refusal: &mut RawRefusal,
) -> u32
    ensures checked { result ≡ 0 →
        IsCheckedListCost settings.now table.now list.now portal.now staging.now
        (contents_of version prices.now pairs.now) cost.new }
    ensures unchanged { result ≢ 0 → cost.new ≡ cost.old }
    ensures refused { result ≢ 0 → (result ≡ refusal.new.number)
        × RefusesCheckList settings.now table.now list.now portal.now staging.now
        (contents_of version prices.now pairs.now) refusal.new }
    ensures quiet { result ≡ 0 → refusal.new ≡ refusal.old }
{
    let given = RawCertificate {
        version,
        prices,
        pairs,
    };
    match check_list_for(alloc, settings, table, list, portal, staging, &given) {
        Ok(found) => {
            *cost = found;
            0
        }
        Err(cause) => {
            *refusal = cause;
            cause.number
        }
    }
}
