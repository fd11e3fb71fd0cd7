//! The search for missing waits.

ghost use Rattle.std.specs.Prelude.{◌≡◌, ◌+◌, ◌≤◌, ◌<◌, ◌↔◌, All, IfOk, IsTrue, OnOk, Some, filter, get_or, length, not};
ghost use Rattle.std.specs.List.{Contains};
ghost use Rattle.dsa_audit.specs.Members.{KnownConflict};
ghost use Rattle.dsa_audit.specs.Steps.{AreLasts};
ghost use Rattle.dsa_conflicts.specs.Access.{IsGreatest};
ghost use Rattle.dsa_waits.specs.Keys.{AreUsedKeys, IsLeftConflict, IsLeftWait};
ghost use Rattle.dsa_recording.specs.Uses.{AddsKeys};
ghost use Rattle.dsa_waits.specs.Waits.{IsCourse, event_at, is_made, is_told};
ghost use Rattle.dsa_waits.specs.Steps.{AreBelow, AreOutstanding, HasSubmission, IsFlying, IsKnown, IsRising, UsesBetween, UsesFirst, WithRange};

use crate::course::{Course, Told, is_told, made_at, told_by};
use crate::event::{Event, mark};
use crate::keys::Keyed;
use crate::known::{Known, is_accepted, use_wait};
use dsa_audit::{KnownConflicts, Relation, all_lasts};
use dsa_recording::Accepted;
use std::alloc::{AllocError, Global};

/// What is in flight after some events.
#[derive(Drop)]
struct Flying {
    /// How many submissions are made.
    number: usize,
    /// Their entries that may not have ended, for all that the program knows, in order.
    outstanding: Vec<usize>,
    /// For each of their entries the last one for which a wait is missing.
    waits: Vec<Option<usize>>,
    /// The accepted keys of missing waits so far.
    used: Accepted,
    /// Of each submission of the course, whether it has ended.
    ended: Vec<bool>,
}

/// The missing waits of a course.
#[derive(Drop)]
pub struct Missing {
    /// For each entry the last one for which a wait is missing that is not accepted.
    pub waits: Vec<Option<usize>>,
    /// The accepted keys of all missing waits.
    pub used: Accepted,
}

/// Whether the earlier of two entries conflicts with the later one so that a wait is not accepted; `last` is the last
/// that conflicts with the later.
fn is_left(
    course: &Course,
    keyed: Keyed<'_>,
    known: &mut Vec<Known>,
    last: usize,
    earlier: usize,
    entry: usize,
) -> Result<bool, AllocError>
    requires before { earlier < entry }
    requires within { entry < length course.now.members.items }
    requires last { IsGreatest
        (λ a. (a < entry) × KnownConflict course.now.members.items a entry) (Some last) }
    requires known { All (IsKnown keyed.accepted.now keyed.all.now keyed.submissions.now
        course.now entry) known.old.items }
    ensures left { IfOk result (λ yes. IsTrue yes ↔ IsLeftConflict keyed.entry.accepted.now
        keyed.entry.all.now keyed.entry.submissions.now course.now earlier entry) }
    ensures known { OnOk result (All (IsKnown keyed.entry.accepted.now keyed.entry.all.now
        keyed.entry.submissions.now course.now entry) known.new.items) }
{
    if earlier > last {
        return Ok(false);
    }
    let relation = KnownConflicts {
        members: &course.members,
    };
    if !relation.conflicts(earlier, entry) {
        return Ok(false);
    }
    Ok(!is_accepted(keyed, course, known, earlier, entry)?)
}

/// The last of the outstanding entries that conflicts with a later one so that a wait is not accepted; `last` is the
/// last of all earlier ones that conflicts.
fn last_outstanding(
    course: &Course,
    keyed: Keyed<'_>,
    outstanding: &[usize],
    last: Option<usize>,
    entry: usize,
) -> Result<Option<usize>, AllocError>
    requires within { entry < length course.now.members.items }
    requires last { IsGreatest
        (λ a. (a < entry) × KnownConflict course.now.members.items a entry) last }
    requires rising { IsRising outstanding.now }
    requires below { AreBelow entry outstanding.now }
    ensures { IfOk result (IsGreatest (λ a. Contains outstanding.now a
        × IsLeftConflict keyed.entry.accepted.now keyed.entry.all.now keyed.entry.submissions.now
        course.now a entry)) }
{
    let Some(last) = last else {
        return Ok(None);
    };
    let mut known = Vec::new(keyed.alloc);
    let mut i = outstanding.len();
    while i > 0 {
        i -= 1;
        if is_left(course, keyed, &mut known, last, outstanding[i], entry)? {
            return Ok(Some(outstanding[i]));
        }
    }
    Ok(None)
}

/// Adds the missing waits of the entries up to `end`, which are those of submission `number`.
fn push_waits(
    waits: &mut Vec<Option<usize>>,
    course: &Course,
    keyed: Keyed<'_>,
    lasts: &[Option<usize>],
    outstanding: &[usize],
    number: usize,
    end: usize,
) -> Result<(), AllocError>
    requires course { IsCourse course.now }
    requires lasts { AreLasts (KnownConflict course.now.members.items) lasts.now }
    requires all { length lasts.now ≡ length course.now.entries.items }
    requires rising { IsRising outstanding.now }
    requires below { AreBelow (length waits.old.items) outstanding.now }
    requires exact { AreOutstanding course.now number outstanding.now }
    requires begun { length waits.old.items ≤ end }
    requires within { end ≤ length course.now.entries.items }
    requires own { HasSubmission course.now number (length waits.old.items) end }
    requires sofar { AreLasts (IsLeftWait keyed.accepted.now keyed.all.now
        keyed.submissions.now course.now) waits.old.items }
    ensures count { OnOk result (length waits.new.items ≡ end) }
    ensures waits { OnOk result (AreLasts (IsLeftWait keyed.entry.accepted.now
        keyed.entry.all.now keyed.entry.submissions.now course.now) waits.new.items) }
{
    for entry in waits.len()..end {
        let wait = last_outstanding(course, keyed, outstanding, lasts[entry], entry)?;
        waits.push(wait)?;
    }
    Ok(())
}

/// Adds the keys of the missing waits of an entry for the outstanding ones that are accepted.
fn use_waits(
    used: &mut Accepted,
    course: &Course,
    keyed: Keyed<'_>,
    outstanding: &[usize],
    entry: usize,
) -> Result<(), AllocError>
    ensures { OnOk result (AddsKeys (UsesFirst keyed.entry.accepted.now keyed.entry.all.now
        keyed.entry.submissions.now course.now outstanding.now (length outstanding.now) entry)
        used.old used.new) }
{
    let mut known = Vec::new(keyed.alloc);
    for i in 0..outstanding.len() {
        use_wait(used, course, keyed, &mut known, outstanding[i], entry)?;
    }
    Ok(())
}

/// Adds those of the entries from `from` up to `end`.
fn use_all_waits(
    used: &mut Accepted,
    course: &Course,
    keyed: Keyed<'_>,
    outstanding: &[usize],
    from: usize,
    end: usize,
) -> Result<(), AllocError>
    requires { from ≤ end }
    ensures { OnOk result (AddsKeys (UsesBetween keyed.entry.accepted.now keyed.entry.all.now
        keyed.entry.submissions.now course.now outstanding.now from end) used.old used.new) }
{
    if keyed.accepted.keys.is_empty() {
        return Ok(());
    }
    for entry in from..end {
        use_waits(used, course, keyed, outstanding, entry)?;
    }
    Ok(())
}

/// Adds the entries from `from` up to `end`.
fn push_entries(outstanding: &mut Vec<usize>, from: usize, end: usize) -> Result<(), AllocError>
    requires rising { IsRising outstanding.old.items }
    requires below { AreBelow from outstanding.old.items }
    requires begun { from ≤ end }
    ensures { OnOk result
        (WithRange outstanding.old.items from end outstanding.new.items) }
{
    for entry in from..end {
        outstanding.push(entry)?;
    }
    Ok(())
}

/// Drops those entries that were told.
fn drop_told(outstanding: &mut Vec<usize>, course: &Course, told: Told)
    ensures { outstanding.new.items ≡
        filter (λ e. not (is_told course.now told e)) outstanding.old.items }
{
    outstanding.retain(|entry| !is_told(course, told, *entry));
}

/// How many submissions the event makes.
fn made_by(event: Event) -> usize
    ensures { result ≡ is_made event }
{
    match event {
        Event::Submitted => 1,
        Event::Watched(_) | Event::MemberEnded(_, _) | Event::Ended(_, _) | Event::Known(_) => 0,
    }
}

impl Flying {
    /// The next submission is made by event k.
    fn submit(
        &mut self,
        course: &Course,
        keyed: Keyed<'_>,
        lasts: &[Option<usize>],
        k: usize,
    ) -> Result<(), AllocError>
        requires course { IsCourse course.now }
        requires lasts { AreLasts (KnownConflict course.now.members.items) lasts.now }
        requires all { length lasts.now ≡ length course.now.entries.items }
        requires within { k < length course.now.events.items }
        requires event { is_made (event_at course.now k) ≡ 1 }
        requires sofar { IsFlying keyed.accepted.now keyed.all.now
            keyed.submissions.now course.now k self.old }
        ensures { OnOk result (IsFlying keyed.entry.accepted.now keyed.entry.all.now
            keyed.entry.submissions.now course.now (k + 1) self.new) }
    {
        let end = made_at(&course.made, self.number).end;
        let from = self.waits.len();
        push_waits(
            &mut self.waits,
            course,
            keyed,
            lasts,
            &self.outstanding,
            self.number,
            end,
        )?;
        use_all_waits(&mut self.used, course, keyed, &self.outstanding, from, end)?;
        push_entries(&mut self.outstanding, from, end)?;
        self.number += 1;
        Ok(())
    }

    /// Event k comes.
    fn follow(
        &mut self,
        course: &Course,
        keyed: Keyed<'_>,
        lasts: &[Option<usize>],
        k: usize,
    ) -> Result<(), AllocError>
        requires course { IsCourse course.now }
        requires lasts { AreLasts (KnownConflict course.now.members.items) lasts.now }
        requires all { length lasts.now ≡ length course.now.entries.items }
        requires within { k < length course.now.events.items }
        requires sofar { IsFlying keyed.accepted.now keyed.all.now
            keyed.submissions.now course.now k self.old }
        ensures { OnOk result (IsFlying keyed.entry.accepted.now keyed.entry.all.now
            keyed.entry.submissions.now course.now (k + 1) self.new) }
    {
        let event = course.events[k];
        if made_by(event) == 1 {
            return self.submit(course, keyed, lasts, k);
        }
        let told = told_by(course, &self.ended, event);
        drop_told(&mut self.outstanding, course, told);
        mark(&mut self.ended, event.ended_number());
        Ok(())
    }
}

/// For each entry of a course the last one for which a wait is missing that is not accepted: it conflicts, and is of an
/// earlier submission that the program could not know to have ended.
pub fn missing_waits(
    alloc: Global,
    course: &Course,
    keyed: Keyed<'_>,
) -> Result<Missing, AllocError>
    requires { IsCourse course.now }
    ensures count { IfOk result
        (λ missing. length missing.waits.items ≡ length course.now.entries.items) }
    ensures waits { IfOk result (λ missing. AreLasts (IsLeftWait keyed.entry.accepted.now
        keyed.entry.all.now keyed.entry.submissions.now course.now) missing.waits.items) }
    ensures used { IfOk result (λ missing. AreUsedKeys keyed.entry.accepted.now
        keyed.entry.all.now keyed.entry.submissions.now course.now missing.used) }
{
    let lasts = all_lasts(alloc, &course.members)?;
    let mut flying = Flying {
        number: 0,
        outstanding: Vec::new(alloc),
        waits: Vec::new(alloc),
        used: Accepted::none(alloc),
        ended: vec![in alloc; false; course.made.len()]?,
    };
    for k in 0..course.events.len() {
        flying.follow(course, keyed, &lasts, k)?;
    }
    Ok(Missing {
        waits: flying.waits,
        used: flying.used,
    })
}
