//! The course of a recording.

ghost use Rattle.std.specs.Prelude.{◌≡◌, ◌<◌, ◌≤◌, All, IfOk, OnOk, if◌then◌else◌, length};
ghost use Rattle.dsa_recording.specs.Streams.{ReadsUpTo, end_of};
ghost use Rattle.dsa_descriptor.specs.Fences.{is_fenced};
ghost use Rattle.dsa_recording.specs.Submissions.{head_at};
ghost use Rattle.dsa_waits.specs.Recorded.{FitsRecording, IsAccess, IsCourseOf, IsHeadAccess, asks_record, watched_list};
ghost use Rattle.dsa_waits.specs.RecordedSteps.{AreMade, AreMarked, HasEntries, WithEntries, made_with};
ghost use Rattle.dsa_waits.specs.Waits.{IsCourse, failed_by, made_before, watched_by};

use crate::course::{Course, Entry, Made};
use crate::event::{Event, Queue, mark};
use arrayvec::ArrayVec;
use bitflags::Flags;
use dsa_audit::Member;
use dsa_descriptor::{Span, is_fenced};
use dsa_ranges::Touched;
use dsa_recording::{
    Aspect, Header, RECORD_REQUESTED, Submission, head_at, list_spans, member_of, records_of,
};
use std::alloc::{AllocError, Global};

/// Whether the entry asks for a completion record.
fn asks_record(entry: &[u8; 64]) -> bool
    ensures { result ≡ asks_record entry.now }
{
    Header::of(entry).flags.contains(RECORD_REQUESTED)
}

/// What the descriptor of a batch reads: its list, if it asks for a record.
fn watched_list(head: &[u8; 64]) -> ArrayVec<Span, 3>
    ensures { result.items ≡ watched_list head.now }
{
    if asks_record(head) {
        return list_spans(head);
    }
    ArrayVec::new()
}

/// What the descriptor of a batch reads and writes.
fn head_access(head: &[u8; 64]) -> Member
    ensures { IsHeadAccess head.now result }
{
    Member::Known(Touched {
        reads: watched_list(head),
        writes: records_of(head),
    })
}

/// What an entry of the submission reads and writes, as far as it is known.
fn access_of(all: &[[u8; 64]], submission: Submission, entry: usize) -> Member
    requires head { head_at submission < length all.now }
    requires begun { head_at submission ≤ entry }
    requires within { entry < length all.now }
    ensures { IsAccess all.now submission entry result }
{
    if entry < submission.first {
        return head_access(&all[entry]);
    }
    member_of(Aspect::Whole, &all[head_at(submission)], &all[entry])
}

/// The epoch of an entry, by the one before it.
fn later_epoch(is_fenced: bool, epoch: usize, entry: usize) -> usize
    ensures { result ≡ (if is_fenced then entry else epoch) }
{
    if is_fenced { entry } else { epoch }
}

/// Adds the entries of the submission of this number.
fn add_entries(
    entries: &mut Vec<Entry>,
    members: &mut Vec<Member>,
    all: &[[u8; 64]],
    submission: Submission,
    number: usize,
) -> Result<(), AllocError>
    requires entries { length entries.old.items ≡ head_at submission }
    requires members { length members.old.items ≡ head_at submission }
    requires begun { head_at submission < end_of submission }
    requires within { end_of submission ≤ length all.now }
    ensures { OnOk result (WithEntries all.now submission number (end_of submission)
        entries.old.items members.old.items entries.new.items members.new.items) }
{
    let head = head_at(submission);
    let mut epoch = head;
    for entry in head..submission.first + submission.size {
        epoch = later_epoch(is_fenced(&all[entry]), epoch, entry);
        entries.push(Entry {
            submission: number,
            epoch,
            asks_record: asks_record(&all[entry]),
        })?;
        members.push(access_of(all, submission, entry))?;
    }
    Ok(())
}

/// The entries of submissions, and what each reads and writes.
fn entries_of(
    alloc: Global,
    all: &[[u8; 64]],
    submissions: &[Submission],
) -> Result<(Vec<Entry>, Vec<Member>), AllocError>
    requires { ReadsUpTo all.now 0 submissions.now (length all.now) }
    ensures { IfOk result
        (λ r. HasEntries all.now submissions.now (length all.now) r.0.items r.1.items) }
{
    let mut entries = Vec::with_capacity(alloc, all.len())?;
    let mut members = Vec::with_capacity(alloc, all.len())?;
    for number in 0..submissions.len() {
        add_entries(&mut entries, &mut members, all, submissions[number], number)?;
    }
    Ok((entries, members))
}

/// Of each of so many submissions, whether its record is watched, and whether it ended with an error.
fn marks_of(
    alloc: Global,
    events: &[Event],
    count: usize,
) -> Result<(Vec<bool>, Vec<bool>), AllocError>
    ensures watched { IfOk result
        (λ r. AreMarked watched_by events.now count r.0.items) }
    ensures failed { IfOk result
        (λ r. AreMarked failed_by events.now count r.1.items) }
{
    let mut watched = vec![in alloc; false; count]?;
    let mut failed = vec![in alloc; false; count]?;
    for event in events {
        mark(&mut watched, event.watched_number());
        mark(&mut failed, event.failed_number());
    }
    Ok((watched, failed))
}

/// The submission, with its queue, whether it is watched, and whether it failed.
fn made_with(
    all: &[[u8; 64]],
    submission: Submission,
    queue: Queue,
    is_watched: bool,
    has_failed: bool,
) -> Made
    requires head { head_at submission < length all.now }
    requires within { end_of submission ≤ length all.now }
    ensures { result ≡ made_with all.now submission queue is_watched has_failed }
{
    let first = head_at(submission);
    Made {
        first,
        end: submission.first + submission.size,
        queue,
        is_drain: Header::of(&all[first]).code == 2 && !has_failed,
        is_watched,
    }
}

/// Submissions, with their queues.
fn made_of(
    alloc: Global,
    all: &[[u8; 64]],
    submissions: &[Submission],
    queues: &[Queue],
    watched: &[bool],
    failed: &[bool],
) -> Result<Vec<Made>, AllocError>
    requires reads { ReadsUpTo all.now 0 submissions.now (length all.now) }
    requires queues { length queues.now ≡ length submissions.now }
    requires watched { length watched.now ≡ length submissions.now }
    requires failed { length failed.now ≡ length submissions.now }
    ensures { IfOk result
        (λ made. AreMade all.now submissions.now queues.now watched.now failed.now
        (length submissions.now) made.items) }
{
    let mut made = Vec::with_capacity(alloc, submissions.len())?;
    for number in 0..submissions.len() {
        made.push(made_with(
            all,
            submissions[number],
            queues[number],
            watched[number],
            failed[number],
        ))?;
    }
    Ok(made)
}

/// The course of the submissions of a recording, to these queues, with these events.
pub fn course_of(
    alloc: Global,
    all: &[[u8; 64]],
    submissions: &[Submission],
    queues: &[Queue],
    events: Vec<Event>,
) -> Result<Course, AllocError>
    requires reads { ReadsUpTo all.now 0 submissions.now (length all.now) }
    requires queues { length queues.now ≡ length submissions.now }
    requires made { made_before events.items (length events.items) ≡ length submissions.now }
    requires fit { All (FitsRecording submissions.now) events.items }
    ensures course { IfOk result IsCourse }
    ensures recorded { IfOk result
        (IsCourseOf all.now submissions.now queues.now events.items) }
{
    let (entries, members) = entries_of(alloc, all, submissions)?;
    let (watched, failed) = marks_of(alloc, &events, submissions.len())?;
    let made = made_of(alloc, all, submissions, queues, &watched, &failed)?;
    Ok(Course {
        entries,
        members,
        made,
        events,
    })
}
