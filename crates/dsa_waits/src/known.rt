//! Which waits of one entry are accepted: each key is looked up once, and not for each earlier entry.

ghost use Rattle.std.specs.Prelude.{◌≡◌, ◌↔◌, ◌<◌, All, IfOk, IsTrue, MatchOption, OnOk};
ghost use Rattle.std.specs.List.{Contains};
ghost use Rattle.dsa_audit.specs.Members.{KnownConflict};
ghost use Rattle.dsa_recording.specs.Uses.{AddsKeys};
ghost use Rattle.dsa_waits.specs.Keys.{IsWaitAccepted, key_between};
ghost use Rattle.dsa_waits.specs.Steps.{HasKeyOf, IsAcceptedKey, IsKnown, IsSettled, IsUsedPair, Remembers, looked_up};

use crate::course::Course;
use crate::keys::{Keyed, are_alike, conflict_in_order, key_between};
use dsa_audit::{Hazards, hazards_between};
use dsa_recording::Accepted;
use std::alloc::AllocError;

/// How many waits of one entry are known at most.
const MOST: usize = 16;

/// A wait of an entry whose key was looked up.
#[derive(Clone, Copy)]
pub(crate) struct Known {
    /// The earlier entry.
    pub earlier: usize,
    /// The hazards of the two.
    pub hazards: Hazards,
    /// Whether the key is accepted.
    pub is_accepted: bool,
}

/// Whether these are the same hazards.
fn are_same(first: Hazards, second: Hazards) -> bool
    ensures { IsTrue result → first ≡ second }
{
    if first.read_after_write != second.read_after_write {
        return false;
    }
    if first.write_after_write != second.write_after_write {
        return false;
    }
    first.write_after_read == second.write_after_read
}

/// Whether a wait for this earlier entry with these hazards has the key of a known one.
fn has_key_of(
    keyed: Keyed<'_>,
    course: &Course,
    one: Known,
    earlier: usize,
    hazards: Hazards,
) -> bool
    ensures { IsTrue result → HasKeyOf keyed.entry.all.now keyed.entry.submissions.now
        course.now one earlier hazards }
{
    if !are_same(one.hazards, hazards) {
        return false;
    }
    are_alike(keyed, course, one.earlier, earlier)
}

/// A known wait that has the key of one for this earlier entry with these hazards.
fn known_of(
    keyed: Keyed<'_>,
    course: &Course,
    known: &[Known],
    earlier: usize,
    hazards: Hazards,
) -> Option<Known>
    ensures { MatchOption result Unit (λ one. Contains known.now one
        × HasKeyOf keyed.entry.all.now keyed.entry.submissions.now course.now one earlier
        hazards) }
{
    for at in 0..known.len() {
        if has_key_of(keyed, course, known[at], earlier, hazards) {
            return Some(known[at]);
        }
    }
    None
}

/// Adds a wait to those that are known, if they are few.
fn remember(known: &mut Vec<Known>, one: Known) -> Result<(), AllocError>
    ensures { OnOk result (Remembers one known.old.items known.new.items) }
{
    if known.len() < MOST {
        known.push(one)?;
    }
    Ok(())
}

/// The key of a wait between two entries with these hazards, if it is accepted. Whether it is, is known from then on.
fn look_up(
    keyed: Keyed<'_>,
    course: &Course,
    known: &mut Vec<Known>,
    earlier: usize,
    later: usize,
    hazards: Hazards,
) -> Result<Option<String>, AllocError>
    ensures key { IfOk result (IsAcceptedKey keyed.entry.accepted.now (key_between
        keyed.entry.all.now keyed.entry.submissions.now course.now earlier later hazards)) }
    ensures known { OnOk result (Remembers (looked_up keyed.entry.accepted.now
        keyed.entry.all.now keyed.entry.submissions.now course.now earlier later hazards)
        known.old.items known.new.items) }
{
    let (all, submissions) = (keyed.all, keyed.submissions);
    let key = key_between(
        keyed.alloc,
        all,
        submissions,
        course,
        earlier,
        later,
        hazards,
    )?;
    let is_accepted = keyed.accepted.has(&key);
    remember(
        known,
        Known {
            earlier,
            hazards,
            is_accepted,
        },
    )?;
    if !is_accepted {
        return Ok(None);
    }
    Ok(Some(key))
}

/// Whether the wait of an entry for an earlier one with which it conflicts is accepted, where these are known.
pub(crate) fn is_accepted(
    keyed: Keyed<'_>,
    course: &Course,
    known: &mut Vec<Known>,
    earlier: usize,
    later: usize,
) -> Result<bool, AllocError>
    requires before { earlier < later }
    requires conflict { KnownConflict course.now.members.items earlier later }
    requires known { All (IsKnown keyed.accepted.now keyed.all.now keyed.submissions.now
        course.now later) known.old.items }
    ensures accepted { IfOk result (λ yes. IsTrue yes ↔ IsWaitAccepted keyed.entry.accepted.now
        keyed.entry.all.now keyed.entry.submissions.now course.now earlier later) }
    ensures known { OnOk result (All (IsKnown keyed.entry.accepted.now keyed.entry.all.now
        keyed.entry.submissions.now course.now later) known.new.items) }
{
    let hazards = hazards_between(&course.members, earlier, later);
    match known_of(keyed, course, known, earlier, hazards) {
        Some(one) => Ok(one.is_accepted),
        None => {
            let found = look_up(keyed, course, known, earlier, later, hazards)?;
            Ok(found.is_some())
        }
    }
}

/// Adds the key of two entries, if they conflict and it is accepted; where one with this key is known, it is there.
pub(crate) fn use_wait(
    used: &mut Accepted,
    course: &Course,
    keyed: Keyed<'_>,
    known: &mut Vec<Known>,
    earlier: usize,
    later: usize,
) -> Result<(), AllocError>
    requires known { All (IsSettled keyed.accepted.now keyed.all.now keyed.submissions.now
        course.now later used.old) known.old.items }
    ensures used { OnOk result (AddsKeys (IsUsedPair keyed.entry.accepted.now
        keyed.entry.all.now keyed.entry.submissions.now course.now earlier later)
        used.old used.new) }
    ensures known { OnOk result (All (IsSettled keyed.entry.accepted.now keyed.entry.all.now
        keyed.entry.submissions.now course.now later used.new) known.new.items) }
{
    if !conflict_in_order(course, earlier, later) {
        return Ok(());
    }
    let hazards = hazards_between(&course.members, earlier, later);
    match known_of(keyed, course, known, earlier, hazards) {
        Some(_) => Ok(()),
        None => match look_up(keyed, course, known, earlier, later, hazards)? {
            Some(key) => used.add(keyed.alloc, &key),
            None => Ok(()),
        },
    }
}
