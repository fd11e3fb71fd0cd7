//! What the program may know, event by event.

ghost use Rattle.std.specs.Prelude.{◌≡◌, ◌<◌, false, get_or, length};
ghost use Rattle.dsa_waits.specs.Waits.{entry_at, made_at, Fits, is_before_epoch, is_same_or_drained, is_told, told_by, told_by_end, told_by_look, told_by_member};

use crate::event::{Event, Queue};
use dsa_audit::Member;

/// What is known of an entry of a recording.
#[derive(Clone, Copy, Default, PartialEq, Eq)]
pub struct Entry {
    /// The number of its submission.
    pub submission: usize,
    /// The first entry of its epoch: who knows that the entry has ended knows it of the members before that, too.
    pub epoch: usize,
    /// Whether it asks for a completion record, which tells its end.
    pub asks_record: bool,
}

/// What is known of a submission.
#[derive(Clone, Copy, Default)]
pub struct Made {
    /// The entry of its descriptor.
    pub first: usize,
    /// The entry after its last one.
    pub end: usize,
    /// The queue to which it went.
    pub queue: Queue,
    /// Whether it waits for all before it in its queue: it is a drain, and did not fail.
    pub is_drain: bool,
    /// Whether it is seen when the program looks at its record.
    pub is_watched: bool,
}

/// Recorded submissions, and what happened to them.
#[derive(Drop)]
pub struct Course {
    /// The entries.
    pub entries: Vec<Entry>,
    /// What each reads and writes, where that is known.
    pub members: Vec<Member>,
    /// The submissions, in the order in which they were made.
    pub made: Vec<Made>,
    /// The events, in order.
    pub events: Vec<Event>,
}

/// The entries of which an event tells the program that they have ended.
#[derive(Clone, Copy)]
pub(crate) enum Told {
    /// None.
    Nothing,
    /// Those of this submission and, if it is a drain that did not fail, of all before it in its queue.
    Submission(usize),
    /// This entry of a batch, and the members before its epoch.
    Entry(usize),
}

/// Entry e; one that is not there is of submission 0.
pub(crate) fn entry_at(course: &Course, e: usize) -> Entry
    ensures { result ≡ entry_at course.now e }
{
    match course.entries.get(e) {
        Some(entry) => *entry,
        None => Entry {
            submission: 0,
            epoch: 0,
            asks_record: false,
        },
    }
}

/// Submission n; one that is not there is all zeros.
pub(crate) fn made_at(made: &[Made], n: usize) -> Made
    ensures { result ≡ made_at made.now n }
{
    match made.get(n) {
        Some(made) => *made,
        None => Made {
            first: 0,
            end: 0,
            queue: Queue {
                device: 0,
                number: 0,
            },
            is_drain: false,
            is_watched: false,
        },
    }
}

/// What the end of a member tells.
fn told_by_member(course: &Course, entry: usize) -> Told
    ensures { result ≡ told_by_member course.now entry }
{
    if entry_at(course, entry).asks_record {
        Told::Entry(entry)
    } else {
        Told::Nothing
    }
}

/// What the end of a submission tells.
fn told_by_end(course: &Course, number: usize) -> Told
    ensures { result ≡ told_by_end course.now number }
{
    let made = made_at(&course.made, number);
    if made.is_watched || !entry_at(course, made.first).asks_record {
        Told::Nothing
    } else {
        Told::Submission(number)
    }
}

/// What a look at the record of a submission tells, where these have ended so far.
fn told_by_look(ended: &[bool], number: usize) -> Told
    requires { number < length ended.now }
    ensures { result ≡ told_by_look (λ n. get_or ended.now n false) number }
{
    if ended[number] {
        Told::Submission(number)
    } else {
        Told::Nothing
    }
}

/// What the event tells, where these submissions have ended so far.
pub(crate) fn told_by(course: &Course, ended: &[bool], event: Event) -> Told
    requires fits { Fits course.now event }
    requires all { length ended.now ≡ length course.now.made.items }
    ensures { result ≡ told_by course.now (λ n. get_or ended.now n false) event }
{
    match event {
        Event::Submitted | Event::Watched(_) => Told::Nothing,
        Event::MemberEnded(number, member) => {
            let first = made_at(&course.made, number).first;
            told_by_member(course, first + 1 + member)
        }
        Event::Ended(number, _) => told_by_end(course, number),
        Event::Known(number) => told_by_look(ended, number),
    }
}

/// Whether who knows that submission `later` has ended knows it of submission `earlier`.
fn is_same_or_drained(made: &[Made], earlier: usize, later: usize) -> bool
    ensures { result ≡ is_same_or_drained made.now earlier later }
{
    if earlier == later {
        return true;
    }
    let drain = made_at(made, later);
    let queue = made_at(made, earlier).queue;
    drain.is_drain
        && earlier < later
        && queue.device == drain.queue.device
        && queue.number == drain.queue.number
}

/// Whether who knows that the member has ended knows it of the entry, which is another.
fn is_before_epoch(course: &Course, member: usize, entry: usize) -> bool
    ensures { result ≡ is_before_epoch course.now member entry }
{
    let last = entry_at(course, member);
    let submission = entry_at(course, entry).submission;
    let first = made_at(&course.made, submission).first;
    submission == last.submission && first < entry && entry < last.epoch
}

/// Whether the entry is one of those that were told.
pub(crate) fn is_told(course: &Course, told: Told, entry: usize) -> bool
    ensures { result ≡ is_told course.now told entry }
{
    match told {
        Told::Nothing => false,
        Told::Submission(number) => {
            is_same_or_drained(&course.made, entry_at(course, entry).submission, number)
        }
        Told::Entry(member) => entry == member || is_before_epoch(course, member, entry),
    }
}
