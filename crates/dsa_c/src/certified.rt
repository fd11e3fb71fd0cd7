//! Planning a list, with the certificate of the plan and the marks of its groups and fences.

ghost use Rattle.std.specs.Prelude.{◌≡◌, ◌≢◌, ◌⊎◌, ◌<◌, length, MatchResult};
ghost use Rattle.dsa_c.specs.Marks.{marks_of};
ghost use Rattle.dsa_calls.specs.declared.fault.PlanFault.TheVariants.{Memory};
ghost use Rattle.dsa_lists.specs.Submissions.{operation_submission_of};
ghost use Rattle.dsa_c.specs.Raw.{no_room_for_certificate, refusal_of};
ghost use Rattle.dsa_c.specs.Planning.{IsPlannedList, FitsIn, CertificateFitsIn, IsCertifiedWritten, RefusesCertified};

use crate::buffer::put;
use crate::certificate::{RawPair, put_pairs};
use crate::marks::marks_of;
use crate::planning::{RawPlanned, plan_for, summary};
use crate::refusal::{RawRefusal, no_room_for_certificate, refusal};
use crate::settings::RawSettings;
use dsa_calls::PlanFault;
use dsa_lists::PlannedOperations;
use std::alloc::Global;

/// A planned list, and the marks of its pieces.
#[derive(Drop)]
struct Certified {
    planned: PlannedOperations,
    marks: Vec<u8>,
}

/// How many items each of the caller's arrays has room for.
#[derive(Clone, Copy)]
struct Rooms {
    portal: usize,
    staging: usize,
    prices: usize,
    pairs: usize,
    marks: usize,
}

/// What is planned with the marks of its pieces, if these and the certificate fit.
fn certified_of(
    alloc: Global,
    planned: PlannedOperations,
    rooms: Rooms,
) -> Result<Certified, RawRefusal>
    ensures { MatchResult result
        (λ x. (x.planned ≡ planned)
        × CertificateFitsIn (operation_submission_of planned) rooms.prices rooms.pairs rooms.marks
        × (x.marks.items ≡ marks_of planned.plan))
        (λ r. (0 < r.number)
        × ((r ≡ refusal_of Memory)
        ⊎ ((¬ CertificateFitsIn (operation_submission_of planned)
        rooms.prices rooms.pairs rooms.marks) × (r ≡ no_room_for_certificate planned.pieces)))) }
{
    let pieces = planned.pieces;
    if rooms.prices <= pieces || rooms.pairs < pieces || rooms.marks < pieces {
        return Err(no_room_for_certificate(pieces));
    }
    let Ok(marks) = marks_of(alloc, &planned.plan) else {
        return Err(refusal(PlanFault::Memory));
    };
    Ok(Certified { planned, marks })
}

/// The planned list, if it is planned and all fits.
fn certified_for(
    alloc: Global,
    settings: &RawSettings,
    table: &[u64],
    list: &[u8],
    rooms: Rooms,
) -> Result<Certified, RawRefusal>
    ensures { MatchResult result
        (λ x. IsPlannedList settings.now table.now list.now (operation_submission_of x.planned)
        × FitsIn (operation_submission_of x.planned) rooms.portal rooms.staging
        × CertificateFitsIn (operation_submission_of x.planned) rooms.prices rooms.pairs rooms.marks
        × (x.marks.items ≡ marks_of x.planned.plan))
        (λ r. (0 < r.number)
        × RefusesCertified settings.now table.now list.now
        rooms.portal rooms.staging rooms.prices rooms.pairs rooms.marks r) }
{
    match plan_for(alloc, settings, table, list, rooms.portal, rooms.staging) {
        Ok(planned) => match certified_of(alloc, planned, rooms) {
            Ok(certified) => Ok(certified),
            Err(short) => Err(short),
        },
        Err(cause) => Err(cause),
    }
}

/// Plans a list as [`dsa_plan_list`](crate::dsa_plan_list) does, and writes the plan's certificate too, to `prices`
/// and `pairs`, for [`dsa_check_list`](crate::dsa_check_list), and for each piece a mark to `marks`: 1 if it begins a
/// group, and 2 more if it is fenced.
#[unsafe(no_mangle)]
pub extern "C" fn dsa_plan_list_certified(
    alloc: Global,
    settings: &RawSettings,
    table: &[u64],
    list: &[u8],
    portal: &mut [u8],
    staging: &mut [u8],
    prices: &mut [u64],
    pairs: &mut [RawPair],
    marks: &mut [u8],
    planned: &mut RawPlanned,
    refusal: &mut RawRefusal,
) -> u32
    ensures planned { result ≡ 0 →
        IsCertifiedWritten settings.now table.now list.now
        portal.old portal.new staging.old staging.new prices.old prices.new
        pairs.old pairs.new marks.old marks.new planned.new }
    ensures unchanged { result ≢ 0 →
        (portal.new ≡ portal.old) × (staging.new ≡ staging.old) × (prices.new ≡ prices.old)
        × (pairs.new ≡ pairs.old) × (marks.new ≡ marks.old) × (planned.new ≡ planned.old) }
    ensures refused { result ≢ 0 → (result ≡ refusal.new.number)
        × RefusesCertified settings.now table.now list.now (length portal.old)
        (length staging.old) (length prices.old) (length pairs.old) (length marks.old)
        refusal.new }
    ensures quiet { result ≡ 0 → refusal.new ≡ refusal.old }
{
    let rooms = Rooms {
        portal: portal.len(),
        staging: staging.len(),
        prices: prices.len(),
        pairs: pairs.len(),
        marks: marks.len(),
    };
    match certified_for(alloc, settings, table, list, rooms) {
        Ok(answer) => {
            put(portal, &answer.planned.emission.portal);
            put(staging, &answer.planned.emission.staging);
            put(prices, &answer.planned.certificate.prices);
            put_pairs(pairs, &answer.planned.certificate.pairs);
            put(marks, &answer.marks);
            *planned = summary(&answer.planned);
            0
        }
        Err(cause) => {
            *refusal = cause;
            cause.number
        }
    }
}
