//! Whether events fit a recording, and the missing waits of both.

ghost use Rattle.std.specs.Prelude.{◌≡◌, ◌∷◌, ◌++◌, ◌<◌, [], IfErr, IfOk, OnOk, length, slice_index_or};
ghost use Rattle.dsa_descriptor.specs.Places.{code_at};
ghost use Rattle.dsa_recording.specs.Streams.{ReadsUpTo};
ghost use Rattle.dsa_recording.specs.Submissions.{head_at};
ghost use Rattle.dsa_waits.specs.declared.fitting.WaitsFault.TheVariants.{Memory};
ghost use Rattle.dsa_audit.specs.Steps.{AreLasts};
ghost use Rattle.dsa_waits.specs.Keys.{AreUsedKeys, IsLeftWait};
ghost use Rattle.dsa_waits.specs.Waits.{IsCourse};
ghost use Rattle.dsa_waits.specs.Fitting.{AreFitted, AreWaits, IsUnfit, IsWaitsFault, event_of, members_of, misfit_of, misfit_made, misfit_member, misfit_number, queues_of};

use crate::course::Course;
use crate::event::{Event, Queue};
use crate::keys::Keyed;
use crate::lines::{Line, LinesFault, Submitting, read_lines};
use crate::recorded::course_of;
use crate::search::{Missing, missing_waits};
use dsa_recording::{Accepted, Header, Submission, head_at};
use std::alloc::{AllocError, AllocFailed, Global};

/// Why the line of an event does not fit a recording.
#[derive(Clone, Copy)]
pub enum Misfit {
    /// It is of a submission that is not the next one, or not made yet.
    Number,
    /// The recording has another operation there, or another count of members.
    Recording,
    /// The submission has no such member.
    Member,
}

/// Why there is no answer.
#[derive(Clone, Copy)]
pub enum WaitsFault {
    /// The line of this index, from 0, is none of an event, or does not end.
    Line(usize),
    /// It is, but does not fit the recording.
    Unfit(usize, Misfit),
    /// The recording has more submissions than these.
    Few(usize),
    /// An allocation failed.
    Memory,
}

/// What is found of a recording with events.
#[derive(Drop)]
pub struct Found {
    /// The course of the recording.
    pub course: Course,
    /// For each of its entries the last one for which a wait is missing.
    pub waits: Vec<Option<usize>>,
    /// For each the last one for which a wait is missing that is not accepted.
    pub left: Vec<Option<usize>>,
    /// The accepted keys of all missing waits.
    pub used: Accepted,
}

impl From<AllocError> for WaitsFault {
    ghost from_gives = { λ _ fault. fault ≡ Memory };

    fn from(_error: AllocError) -> WaitsFault {
        WaitsFault::Memory
    }
}

impl<T: Drop> From<AllocFailed<T>> for WaitsFault {
    ghost from_gives = { λ _ fault. fault ≡ Memory };

    fn from(_error: AllocFailed<T>) -> WaitsFault {
        WaitsFault::Memory
    }
}

/// The members of a batch; of a lone descriptor none.
fn members_of(submission: Submission) -> usize
    ensures { result ≡ members_of submission }
{
    if submission.is_batch {
        submission.size
    } else {
        0
    }
}

/// The operation code of a submission's descriptor.
fn code_of(all: &[[u8; 64]], submission: Submission) -> u8
    requires { head_at submission < length all.now }
    ensures { result ≡ code_at (slice_index_or all.now (head_at submission) []) }
{
    Header::of(&all[head_at(submission)]).code
}

/// Why the line of the submission after the first `made` ones does not fit.
fn misfit_made(
    all: &[[u8; 64]],
    submissions: &[Submission],
    made: usize,
    line: Submitting,
) -> Option<Misfit>
    requires { ReadsUpTo all.now 0 submissions.now (length all.now) }
    ensures { result ≡ misfit_made all.now submissions.now made line }
{
    if line.number != made as u64 {
        return Some(Misfit::Number);
    }
    if made >= submissions.len() {
        return Some(Misfit::Number);
    }
    let submission = submissions[made];
    if line.code != u64::from(code_of(all, submission)) {
        return Some(Misfit::Recording);
    }
    if line.members != members_of(submission) as u64 {
        return Some(Misfit::Recording);
    }
    None
}

/// Why the end of this member does not fit after the first `made` submissions.
fn misfit_member(
    submissions: &[Submission],
    made: usize,
    number: usize,
    member: usize,
) -> Option<Misfit>
    ensures { result ≡ misfit_member submissions.now made number member }
{
    if number >= made {
        return Some(Misfit::Number);
    }
    if number >= submissions.len() {
        return Some(Misfit::Number);
    }
    if member >= members_of(submissions[number]) {
        return Some(Misfit::Member);
    }
    None
}

/// Why what is said of this submission does not fit after the first `made` ones.
fn misfit_number(made: usize, number: usize) -> Option<Misfit>
    ensures { result ≡ misfit_number made number }
{
    if number < made {
        None
    } else {
        Some(Misfit::Number)
    }
}

/// Why the line does not fit after the first `made` submissions.
fn misfit_of(
    all: &[[u8; 64]],
    submissions: &[Submission],
    made: usize,
    line: Line,
) -> Option<Misfit>
    requires { ReadsUpTo all.now 0 submissions.now (length all.now) }
    ensures { result ≡ misfit_of all.now submissions.now made line }
{
    match line {
        Line::Submitted(submitting) => misfit_made(all, submissions, made, submitting),
        Line::Happened(Event::Submitted) => Some(Misfit::Number),
        Line::Happened(Event::MemberEnded(number, member)) => {
            misfit_member(submissions, made, number, member)
        }
        Line::Happened(Event::Watched(number) | Event::Ended(number, _) | Event::Known(number)) => {
            misfit_number(made, number)
        }
    }
}

/// Adds a line.
fn add_line(queues: &mut Vec<Queue>, events: &mut Vec<Event>, line: Line) -> Result<(), AllocError>
    ensures events { OnOk result (events.new.items ≡ events.old.items ++ event_of line ∷ []) }
    ensures queues { OnOk result (queues.new.items ≡ queues.old.items ++ queues_of line) }
{
    match line {
        Line::Submitted(submitting) => {
            queues.push(submitting.queue)?;
            events.push(Event::Submitted)?;
        }
        Line::Happened(event) => events.push(event)?,
    }
    Ok(())
}

/// The queues and the events of lines, if they fit the recording.
fn fit_lines(
    alloc: Global,
    all: &[[u8; 64]],
    submissions: &[Submission],
    lines: &[Line],
) -> Result<(Vec<Queue>, Vec<Event>), WaitsFault>
    requires { ReadsUpTo all.now 0 submissions.now (length all.now) }
    ensures ok { IfOk result
        (λ r. AreFitted all.now submissions.now lines.now r.0.items r.1.items) }
    ensures err { IfErr result (IsUnfit all.now submissions.now lines.now) }
{
    let mut queues = Vec::new(alloc);
    let mut events = Vec::with_capacity(alloc, lines.len())?;
    for k in 0..lines.len() {
        if let Some(why) = misfit_of(all, submissions, queues.len(), lines[k]) {
            return Err(WaitsFault::Unfit(k, why));
        }
        add_line(&mut queues, &mut events, lines[k])?;
    }
    if queues.len() < submissions.len() {
        return Err(WaitsFault::Few(queues.len()));
    }
    Ok((queues, events))
}

/// For each entry of a course the last one for which a wait is missing that is not accepted.
fn waits_in<'a>(
    alloc: Global,
    all: &'a [[u8; 64]],
    submissions: &'a [Submission],
    accepted: &'a Accepted,
    course: &Course,
) -> Result<Missing, AllocError>
    requires { IsCourse course.now }
    ensures count { IfOk result
        (λ missing. length missing.waits.items ≡ length course.now.entries.items) }
    ensures waits { IfOk result (λ missing. AreLasts
        (IsLeftWait accepted.now all.now submissions.now course.now) missing.waits.items) }
    ensures used { IfOk result (λ missing.
        AreUsedKeys accepted.now all.now submissions.now course.now missing.used) }
{
    let keyed = Keyed {
        alloc,
        all,
        submissions,
        accepted,
    };
    missing_waits(alloc, course, keyed)
}

/// The course of a recording, with the text of its events, and for each entry the last one for which a wait is missing,
/// and the last for which one is that is not accepted.
///
/// # Errors
/// The first line that is none of an event; else the first that does not fit the recording; else too few submissions;
/// or [`WaitsFault::Memory`].
pub fn find_waits(
    alloc: Global,
    all: &[[u8; 64]],
    submissions: &[Submission],
    text: &[u8],
    accepted: &Accepted,
) -> Result<Found, WaitsFault>
    requires { ReadsUpTo all.now 0 submissions.now (length all.now) }
    ensures ok { IfOk result (AreWaits accepted.now all.now submissions.now text.now) }
    ensures err { IfErr result (IsWaitsFault all.now submissions.now text.now) }
{
    let lines = match read_lines(alloc, text) {
        Ok(lines) => lines,
        Err(LinesFault::Line(k)) => return Err(WaitsFault::Line(k)),
        Err(LinesFault::Memory) => return Err(WaitsFault::Memory),
    };
    let (queues, events) = match fit_lines(alloc, all, submissions, &lines) {
        Ok(fitted) => fitted,
        Err(fault) => return Err(fault),
    };
    let course = course_of(alloc, all, submissions, &queues, events)?;
    let none = Accepted::none(alloc);
    let waits = waits_in(alloc, all, submissions, &none, &course)?;
    let left = waits_in(alloc, all, submissions, accepted, &course)?;
    Ok(Found {
        course,
        waits: waits.waits,
        left: left.waits,
        used: left.used,
    })
}
