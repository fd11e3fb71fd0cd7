//! Last conflicts from overlaps of spans, if those are few.

ghost use Rattle.std.specs.Prelude.{◌≡◌, ℕ, ◌<◌, ◌≤◌, ◌↔◌, ◌⊎◌, All, length, IfSome, IsTrue};
ghost use Rattle.std.specs.List.Sorted.{IsNonDecreasingBy};
ghost use Rattle.dsa_conflicts.specs.declared.access.Access.TheVariants.{Write as WriteAccess};
ghost use Rattle.dsa_conflicts.specs.Overlaps.{BeginsIn, Clash, ClashAmong, ClashFrom, Notes};

use crate::access::{Access, later};
use crate::touches::Touch;

/// How many overlaps are looked at for each span, on average.
const OVERLAPS: usize = 4;
/// How many overlaps may be looked at in any list, however short.
const ALWAYS: usize = 1024;

/// Whether one of the two writes.
fn either_writes(here: Touch, there: Touch) -> bool
    ensures { IsTrue result ↔ ((here.access ≡ WriteAccess) ⊎ (there.access ≡ WriteAccess)) }
{
    match (here.access, there.access) {
        (Access::Read, Access::Read) => false,
        (Access::Read, Access::Write) => true,
        (Access::Write, Access::Read) => true,
        (Access::Write, Access::Write) => true,
    }
}

/// Whether the second, which begins no earlier, begins in the first.
fn begins_in(here: Touch, there: Touch) -> bool
    requires { here.span.first ≤ there.span.first }
    ensures { IsTrue result ↔ BeginsIn here there }
{
    there.span.first - here.span.first < here.span.len
}

/// Notes the conflict of two accesses, if they have one; the second begins in the first.
fn note(lasts: &mut [Option<u32>], here: Touch, there: Touch, window: u32)
    requires here { here.piece < length lasts.old }
    requires there { there.piece < length lasts.old }
    ensures { Notes (Clash window here there) lasts.old lasts.new }
{
    if there.span.len == 0 {
        return;
    }
    if !either_writes(here, there) {
        return;
    }
    let first = here.piece.min(there.piece);
    let second = here.piece.max(there.piece);
    if first < second && second - first <= window {
        lasts[second as usize] = later(lasts[second as usize], Some(first));
    }
}

/// Notes the conflicts of the access at this place with those that begin in it. The answer is how many more may be
/// looked at, or none if there are too many.
fn note_from(
    lasts: &mut [Option<u32>],
    touches: &[Touch],
    place: usize,
    window: u32,
    budget: usize,
) -> Option<usize>
    requires bound { place < length touches.now }
    requires sorted { IsNonDecreasingBy (λ t. t.span.first) touches.now }
    requires known { All (λ t. t.piece < length lasts.old) touches.now }
    ensures { IfSome result (λ left.
        Notes (ClashFrom touches.now window place (length touches.now)) lasts.old lasts.new) }
{
    let here = touches[place];
    let mut left = budget;
    for next in place + 1..touches.len() {
        let there = touches[next];
        if !begins_in(here, there) {
            return Some(left);
        }
        if left == 0 {
            return None;
        }
        left -= 1;
        note(lasts, here, there, window);
    }
    Some(left)
}

/// Notes the conflicts of all accesses, if few of them overlap.
pub(crate) fn note_all(lasts: &mut [Option<u32>], touches: &[Touch], window: u32) -> bool
    requires sorted { IsNonDecreasingBy (λ t. t.span.first) touches.now }
    requires known { All (λ t. t.piece < length lasts.old) touches.now }
    ensures { IsTrue result →
        Notes (ClashAmong touches.now window (length touches.now)) lasts.old lasts.new }
{
    let mut left = touches
        .len()
        .saturating_mul(OVERLAPS)
        .saturating_add(ALWAYS);
    for place in 0..touches.len() {
        let Some(rest) = note_from(lasts, touches, place, window, left) else {
            return false;
        };
        left = rest;
    }
    true
}
