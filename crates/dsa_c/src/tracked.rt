//! What a tracker in the caller's words answers about its submissions, and taking them off.

ghost use Rattle.std.specs.Prelude.{◌≡◌, ◌≢◌};
ghost use Rattle.dsa_c.specs.Tracking.{Asks, Awaits, Completes, RefusesAsk, RefusesComplete, RefusesSlot, Withdraws, retired_of, slots_of};

use crate::refusal::RawRefusal;
use crate::tracking::track_refusal;
use dsa_descriptor::Span;
use dsa_tracker::words;

/// Writes the slots of the outstanding submissions that conflict with accesses to these spans to `waits`, a bit for
/// each: with none the accesses may be done at once, by the host too. It allocates nothing. It returns 0 then; else it
/// returns the number of the refusal, and has written only `refusal`.
#[unsafe(no_mangle)]
pub extern "C" fn dsa_track_ask(
    words: &[u64],
    reads: &[Span],
    writes: &[Span],
    waits: &mut u64,
    refusal: &mut RawRefusal,
) -> u32
    ensures asked { result ≡ 0 → Asks words.now reads.now writes.now (slots_of waits.new) }
    ensures refused { result ≢ 0 → (result ≡ refusal.new.number)
        × RefusesAsk words.now refusal.new }
    ensures unchanged { result ≢ 0 → waits.new ≡ waits.old }
    ensures quiet { result ≡ 0 → refusal.new ≡ refusal.old }
{
    match words::ask(words, reads, writes) {
        Ok(found) => {
            *waits = found.0;
            0
        }
        Err(fault) => {
            let cause = track_refusal(fault);
            *refusal = cause;
            cause.number
        }
    }
}

/// Writes the slots that the submission of this slot waits for to `waits`, a bit for each: with none it is ready.
/// It allocates nothing. It returns 0 then; else it returns the number of the refusal, and has written only `refusal`.
#[unsafe(no_mangle)]
pub extern "C" fn dsa_track_waits(
    words: &[u64],
    slot: u32,
    waits: &mut u64,
    refusal: &mut RawRefusal,
) -> u32
    ensures told { result ≡ 0 → Awaits words.now slot (slots_of waits.new) }
    ensures refused { result ≢ 0 → (result ≡ refusal.new.number)
        × RefusesSlot words.now slot refusal.new }
    ensures unchanged { result ≢ 0 → waits.new ≡ waits.old }
    ensures quiet { result ≡ 0 → refusal.new ≡ refusal.old }
{
    match words::waits(words, slot) {
        Ok(found) => {
            *waits = found.0;
            0
        }
        Err(fault) => {
            let cause = track_refusal(fault);
            *refusal = cause;
            cause.number
        }
    }
}

/// Takes off the submission of this slot, which was ready and has ended: writes the slots of those that waited for it
/// to `waited`, and the slots of those of them that wait for nothing more to `ready`. It allocates nothing. It returns
/// 0 then; else it returns the number of the refusal, and has written only `refusal`.
#[unsafe(no_mangle)]
pub extern "C" fn dsa_track_complete(
    words: &mut [u64],
    slot: u32,
    waited: &mut u64,
    ready: &mut u64,
    refusal: &mut RawRefusal,
) -> u32
    ensures completed { result ≡ 0 →
        Completes words.old slot (retired_of waited.new ready.new) words.new }
    ensures refused { result ≢ 0 → (result ≡ refusal.new.number)
        × RefusesComplete words.old slot refusal.new }
    ensures unchanged { result ≢ 0 →
        (words.new ≡ words.old) × (waited.new ≡ waited.old) × (ready.new ≡ ready.old) }
    ensures quiet { result ≡ 0 → refusal.new ≡ refusal.old }
{
    match words::complete(words, slot) {
        Ok(retired) => {
            *waited = retired.waited.0;
            *ready = retired.ready.0;
            0
        }
        Err(fault) => {
            let cause = track_refusal(fault);
            *refusal = cause;
            cause.number
        }
    }
}

/// The same for a submission that was not rung, ready or not.
#[unsafe(no_mangle)]
pub extern "C" fn dsa_track_withdraw(
    words: &mut [u64],
    slot: u32,
    waited: &mut u64,
    ready: &mut u64,
    refusal: &mut RawRefusal,
) -> u32
    ensures withdrawn { result ≡ 0 →
        Withdraws words.old slot (retired_of waited.new ready.new) words.new }
    ensures refused { result ≢ 0 → (result ≡ refusal.new.number)
        × RefusesSlot words.old slot refusal.new }
    ensures unchanged { result ≢ 0 →
        (words.new ≡ words.old) × (waited.new ≡ waited.old) × (ready.new ≡ ready.old) }
    ensures quiet { result ≡ 0 → refusal.new ≡ refusal.old }
{
    match words::withdraw(words, slot) {
        Ok(retired) => {
            *waited = retired.waited.0;
            *ready = retired.ready.0;
            0
        }
        Err(fault) => {
            let cause = track_refusal(fault);
            *refusal = cause;
            cause.number
        }
    }
}
