//! What is left of a list, into a buffer of the caller.

ghost use Rattle.std.specs.Prelude.{◌≡◌, ◌≢◌, ◌<◌, ◌≤◌, IfOk, length, MatchResult};
ghost use Rattle.dsa_resume.specs.Rest.{remainder_of};
ghost use Rattle.dsa_lists.specs.Resuming.{rest_bytes};
ghost use Rattle.dsa_c.specs.Resuming.{IsLeftIn, IsResumedInto, RefusesResume, order_of, resume_refusal_of, resumed_of};

use crate::buffer::put;
use crate::refusal::{RawRefusal, refusal, refusal_at};
use crate::settings::{RawSettings, settings_of, settings_refusal};
use dsa_calls::PlanFault;
use dsa_descriptor::write_entries;
use dsa_lists::resume_any_list;
use dsa_operations::Operation;
use dsa_resume::{LeftOrder, Rest, ResumeFault};
use std::alloc::{AllocError, Global};

/// The number of the refusal of a buffer that is too small for the list.
pub const NO_ROOM_FOR_LIST: u32 = 93;

/// `struct dsa_resumed`: what was written, and what may not be done any more.
#[repr(C)]
#[derive(Clone, Copy)]
pub struct RawResumed {
    /// The bytes of the list that were written, 64 for each piece.
    pub rest_len: u64,
    /// How many pieces after a barrier are left out, because one before it will not succeed.
    pub left_out: u64,
    /// The first piece that will not; 0 if none is left out.
    pub stopped_by: u64,
}

/// What the caller says of a list that has stopped.
#[derive(Clone, Copy)]
pub(crate) struct RawStopped<'a> {
    /// The bytes of the list.
    pub list: &'a [u8],
    /// The completion records of its pieces.
    pub records: &'a [u8],
    /// A byte for each piece, not 0 if it is not to be done again; no bytes for none.
    pub given_up: &'a [u8],
    /// Whether the pieces that failed come first.
    pub failed_first: u32,
}

/// What is left, in bytes.
#[derive(Drop)]
struct Left {
    bytes: Vec<u8>,
    resumed: RawResumed,
}

/// The refusal of this cause.
fn resume_refusal(fault: ResumeFault) -> RawRefusal
    ensures value { result ≡ resume_refusal_of fault }
    ensures some { 0 < result.number }
{
    match fault {
        ResumeFault::Plan(cause) => refusal(cause),
        ResumeFault::Records => refusal_at(fault.number() as u32, 0, 0),
        ResumeFault::NotFailed(i) => refusal_at(fault.number() as u32, i as u64, 0),
        ResumeFault::SharedRecord(i, j) | ResumeFault::PassedBarrier(i, j) => {
            refusal_at(fault.number() as u32, i as u64, j as u64)
        }
    }
}

/// The order that the number asks for.
fn order_of(failed_first: u32) -> LeftOrder
    ensures { result ≡ order_of failed_first }
{
    if failed_first == 0 {
        LeftOrder::AsListed
    } else {
        LeftOrder::FailedFirst
    }
}

/// The bytes of what is left, with what is left out.
fn written_rest(alloc: Global, rest: &Rest<Operation>) -> Result<Left, AllocError>
    ensures { IfOk result (λ left. (left.bytes.items ≡ rest_bytes (remainder_of rest.now))
        × (left.resumed ≡ resumed_of (remainder_of rest.now))) }
{
    let bytes = write_entries(alloc, &rest.pieces, &rest.barriers)?;
    let (left_out, stopped_by) = match rest.left_out {
        Some(out) => (out.pieces as u64, out.stopped_by as u64),
        None => (0, 0),
    };
    let resumed = RawResumed {
        rest_len: bytes.len() as u64,
        left_out,
        stopped_by,
    };
    Ok(Left { bytes, resumed })
}

/// The bytes of what is left, if there is room for them.
fn left_for(
    alloc: Global,
    settings: &RawSettings,
    table: &[u64],
    stopped: RawStopped<'_>,
    room: usize,
) -> Result<Left, RawRefusal>
    ensures { let s = settings.now in let t = table.now in let l = stopped.entry in
        MatchResult result
        (λ left. (length left.bytes.items ≤ room) × IsLeftIn s t l.list.now l.records.now
        l.given_up.now l.failed_first left.bytes.items left.resumed)
        (λ r. (0 < r.number) × RefusesResume s t l.list.now l.records.now l.given_up.now
        l.failed_first room r) }
{
    let Some(checked) = settings_of(settings, table) else {
        return Err(settings_refusal(settings));
    };
    let order = order_of(stopped.failed_first);
    let (records, given_up) = (stopped.records, stopped.given_up);
    let rest = match resume_any_list(alloc, stopped.list, &checked, records, given_up, order) {
        Ok(rest) => rest,
        Err(fault) => return Err(resume_refusal(fault)),
    };
    let Ok(left) = written_rest(alloc, &rest) else {
        return Err(refusal(PlanFault::Memory));
    };
    if left.bytes.len() > room {
        return Err(refusal_at(NO_ROOM_FOR_LIST, left.bytes.len() as u64, 0));
    }
    Ok(left)
}

/// Writes to `rest` what is left of a list that was planned with these settings and submitted, and to `resumed` its
/// length and what is left out: the pieces that have not finished, by their completion records, 32 bytes each in the
/// order of the pieces, with their barriers. A piece that has failed is not done again if its byte of `given_up` is
/// not 0. They come as they are listed, or, if `failed_first` is not 0, those that failed before those that wait. It
/// returns 0 then; else it returns the number of the refusal, and has written only `refusal`.
#[unsafe(no_mangle)]
pub extern "C" fn dsa_resume(
    alloc: Global,
    settings: &RawSettings,
    table: &[u64],
    list: &[u8],
    records: &[u8],
    given_up: &[u8],
    failed_first: u32,
    rest: &mut [u8],
    resumed: &mut RawResumed,
    refusal: &mut RawRefusal,
) -> u32
    // What is written is at the front of the buffer, and its rest is unchanged.
    ensures resumed { result ≡ 0 → IsResumedInto settings.now table.now list.now records.now
        given_up.now failed_first rest.old rest.new resumed.new }
    ensures unchanged { result ≢ 0 → (rest.new ≡ rest.old) × (resumed.new ≡ resumed.old) }
    ensures refused { result ≢ 0 → (result ≡ refusal.new.number)
        × RefusesResume settings.now table.now list.now records.now given_up.now failed_first
        (length rest.old) refusal.new }
    ensures quiet { result ≡ 0 → refusal.new ≡ refusal.old }
{
    let stopped = RawStopped {
        list,
        records,
        given_up,
        failed_first,
    };
    match left_for(alloc, settings, table, stopped, rest.len()) {
        Ok(left) => {
            put(rest, left.bytes.as_slice());
            *resumed = left.resumed;
            0
        }
        Err(cause) => {
            *refusal = cause;
            cause.number
        }
    }
}
