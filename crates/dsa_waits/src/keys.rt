//! What missing waits of one kind have in common, and which of them are accepted.

ghost use Rattle.std.specs.Prelude.{◌≡◌, ◌↔◌, ◌<◌, ℕ, IfOk, IsTrue, List, MatchOption, None, get_or, length, slice_get, string_bytes};
ghost use Rattle.dsa_audit.specs.Members.{KnownConflict};
ghost use Rattle.dsa_recording.specs.EntryKeys.{entry_key};
ghost use Rattle.dsa_waits.specs.Recorded.{submission_at};
ghost use Rattle.dsa_waits.specs.Keys.{IsWaitKey, key_at, key_between, wait_key};

use crate::course::{Course, entry_at};
use crate::fitting::Found;
use dsa_audit::{Hazards, KnownConflicts, Relation, hazard_between, hazards_between};
use dsa_ranges::Hazard;
use dsa_recording::{
    Accepted, Header, Records, Submission, hazard_names, is_in_record, key_of_entry, overlap,
};
use std::alloc::{AllocError, Global};

/// What the keys of waits rest on, and which of them are accepted.
#[derive(Clone, Copy)]
pub struct Keyed<'a> {
    /// Where their texts are.
    pub alloc: Global,
    /// The entries.
    pub all: &'a [[u8; 64]],
    /// Their submissions.
    pub submissions: &'a [Submission],
    /// The keys that are accepted.
    pub accepted: &'a Accepted,
}

/// Submission n; one that is not there has no entries.
fn submission_at(submissions: &[Submission], n: usize) -> Submission
    ensures { result ≡ submission_at submissions.now n }
{
    match submissions.get(n) {
        Some(submission) => *submission,
        None => Submission {
            first: 0,
            size: 0,
            is_batch: false,
        },
    }
}

/// The key of a missing wait of an entry of submission `second` for an earlier one of submission `first`, which have
/// these hazards.
fn wait_key(
    alloc: Global,
    all: &[[u8; 64]],
    first: Submission,
    second: Submission,
    earlier: usize,
    later: usize,
    hazards: Hazards,
) -> Result<String, AllocError>
    ensures { IfOk result (λ s. string_bytes s ≡
        wait_key all.now first second earlier later hazards) }
{
    let mut text = String::from_str(alloc, "missing wait")?;
    text.push_str(&hazard_names(alloc, hazards)?)?;
    text.push_str(&key_of_entry(alloc, all, second, later)?)?;
    text.push_str(&key_of_entry(alloc, all, first, earlier)?)?;
    Ok(text)
}

/// The key of a missing wait between two entries of these submissions, which have these hazards.
pub(crate) fn key_between(
    alloc: Global,
    all: &[[u8; 64]],
    submissions: &[Submission],
    course: &Course,
    earlier: usize,
    later: usize,
    hazards: Hazards,
) -> Result<String, AllocError>
    ensures { IfOk result (λ s. string_bytes s ≡
        key_between all.now submissions.now course.now earlier later hazards) }
{
    let first = submission_at(submissions, entry_at(course, earlier).submission);
    let second = submission_at(submissions, entry_at(course, later).submission);
    wait_key(alloc, all, first, second, earlier, later, hazards)
}

/// Whether an entry conflicts with a later one.
pub(crate) fn conflict_in_order(course: &Course, earlier: usize, later: usize) -> bool
    ensures { IsTrue result ↔ ((earlier < later)
        × KnownConflict course.now.members.items earlier later) }
{
    if earlier >= later {
        return false;
    }
    if later >= course.members.len() {
        return false;
    }
    let relation = KnownConflicts {
        members: &course.members,
    };
    relation.conflicts(earlier, later)
}

/// The key of a missing wait between two entries of these submissions, if they conflict.
pub(crate) fn key_of_wait(
    alloc: Global,
    all: &[[u8; 64]],
    submissions: &[Submission],
    course: &Course,
    earlier: usize,
    later: usize,
) -> Result<Option<String>, AllocError>
    ensures { IfOk result (λ found. MatchOption found
        ((key : List ℕ) → ¬ IsWaitKey all.now submissions.now course.now earlier later key)
        (λ s. IsWaitKey all.now submissions.now course.now earlier later (string_bytes s))) }
{
    if !conflict_in_order(course, earlier, later) {
        return Ok(None);
    }
    let hazards = hazards_between(&course.members, earlier, later);
    let key = key_between(alloc, all, submissions, course, earlier, later, hazards)?;
    Ok(Some(key))
}

/// Whether keys name these entries by one operation and size.
fn have_same_words(all: &[[u8; 64]], first: usize, second: usize) -> bool
    ensures { IsTrue result →
        entry_key (slice_get all.now first) ≡ entry_key (slice_get all.now second) }
{
    let Some(one) = all.get(first) else {
        return false;
    };
    let Some(other) = all.get(second) else {
        return false;
    };
    let (one, other) = (Header::of(one), Header::of(other));
    if one.code != other.code {
        return false;
    }
    one.size == other.size
}

/// Whether keys name two entries in the same words.
pub(crate) fn are_alike(keyed: Keyed<'_>, course: &Course, first: usize, second: usize) -> bool
    ensures { IsTrue result →
        key_at keyed.entry.all.now keyed.entry.submissions.now course.now first ≡
        key_at keyed.entry.all.now keyed.entry.submissions.now course.now second }
{
    let one = submission_at(keyed.submissions, entry_at(course, first).submission);
    let other = submission_at(keyed.submissions, entry_at(course, second).submission);
    if one.is_batch != other.is_batch {
        return false;
    }
    if one.size != other.size {
        return false;
    }
    if (first < one.first) != (second < other.first) {
        return false;
    }
    if first.saturating_sub(one.first) != second.saturating_sub(other.first) {
        return false;
    }
    have_same_words(keyed.all, first, second)
}

/// Whether no entry has a wait.
pub(crate) fn are_none(waits: &[Option<usize>]) -> bool
    ensures { IsTrue result ↔
        ((k : ℕ) → k < length waits.now → get_or waits.now k None ≡ None) }
{
    for wait in waits {
        if wait.is_some() {
            return false;
        }
    }
    true
}

/// A missing wait that is shown.
#[derive(Drop)]
pub(crate) struct Shown {
    /// The entry that is waited for.
    pub earlier: usize,
    /// The entry that has to wait.
    pub later: usize,
    /// Where they conflict, and how.
    pub hazard: Hazard,
    /// At how many bytes.
    pub bytes: u64,
    /// Whose completion record has the first of them.
    pub records: Records,
    /// The key of both.
    pub key: String,
    /// Whether it is accepted.
    pub is_accepted: bool,
}

/// Where an entry conflicts with a later one and how, and at how many bytes.
fn hazard_of(course: &Course, earlier: usize, later: usize) -> Option<(Hazard, u64)> {
    if earlier >= later || later >= course.members.len() {
        return None;
    }
    let hazard = hazard_between(&course.members, earlier, later)?;
    let bytes = overlap(hazard, &course.members[earlier], &course.members[later]);
    Some((hazard, bytes))
}

/// Which of two entries have a completion record with this address.
fn records_at(all: &[[u8; 64]], earlier: usize, later: usize, address: u64) -> Records {
    let has = |number: usize| {
        all.get(number)
            .is_some_and(|entry| is_in_record(entry, address))
    };
    Records {
        earlier: has(earlier),
        later: has(later),
    }
}

/// Adds the missing wait of an entry for an earlier one, if it is accepted or not as asked.
fn push_shown(
    shown: &mut Vec<Shown>,
    keyed: Keyed<'_>,
    course: &Course,
    wait: Option<usize>,
    later: usize,
    is_accepted: bool,
) -> Result<(), AllocError> {
    let Some(earlier) = wait else {
        return Ok(());
    };
    let Some((hazard, bytes)) = hazard_of(course, earlier, later) else {
        return Ok(());
    };
    let (all, submissions) = (keyed.all, keyed.submissions);
    let Some(key) = key_of_wait(keyed.alloc, all, submissions, course, earlier, later)? else {
        return Ok(());
    };
    if keyed.accepted.has(&key) == is_accepted {
        shown.push(Shown {
            earlier,
            later,
            hazard,
            bytes,
            records: records_at(all, earlier, later, hazard.address),
            key,
            is_accepted,
        })?;
    }
    Ok(())
}

/// The missing waits that are shown: of each entry the last one, if it is accepted, and the last one that is not.
pub(crate) fn shown_waits(keyed: Keyed<'_>, found: &Found) -> Result<Vec<Shown>, AllocError> {
    let mut shown = Vec::new(keyed.alloc);
    for (later, left) in found.left.iter().enumerate() {
        let wait = found.waits.get(later).copied().unwrap_or(None);
        push_shown(&mut shown, keyed, &found.course, wait, later, true)?;
        push_shown(&mut shown, keyed, &found.course, *left, later, false)?;
    }
    Ok(shown)
}
