//! The words of missing waits, and of events that do not fit.

ghost use Rattle.std.specs.Prelude.{◌≢◌, IfOk};
ghost use Rattle.dsa_waits.specs.declared.fitting.WaitsFault.TheVariants.{Memory};

use crate::course::{Course, entry_at, made_at};
use crate::event::Event;
use crate::fitting::{Found, Misfit, WaitsFault};
use crate::keys::{Keyed, Shown, shown_waits};
use dsa_ranges::{Hazard, HazardKind};
use dsa_recording::{bytes_text, push_entry, record_text};
use std::alloc::{AllocError, Global};

/// An entry: its number, its submission and what it is there.
fn place_text(alloc: Global, course: &Course, entry: usize) -> Result<String, AllocError> {
    let submission = entry_at(course, entry).submission;
    let made = made_at(&course.made, submission);
    let after = entry.saturating_sub(made.first);
    if made.end.saturating_sub(made.first) == 1 {
        return format!(in alloc; "entry {entry} (submission {submission})");
    }
    if after == 0 {
        return format!(in alloc; "entry {entry} (submission {submission}, its descriptor)");
    }
    let member = after - 1;
    format!(in alloc; "entry {entry} (submission {submission}, member {member})")
}

/// What both do to an address, and where it is.
fn hazard_text(alloc: Global, earlier: &str, hazard: Hazard) -> Result<String, AllocError> {
    let address = hazard.address;
    match hazard.kind {
        HazardKind::ReadAfterWrite => format!(in alloc;
            "read after write: reads what {earlier} writes, in flight, at 0x{address:x}"
        ),
        HazardKind::WriteAfterRead => format!(in alloc;
            "write after read: writes what {earlier} reads, in flight, at 0x{address:x}"
        ),
        HazardKind::WriteAfterWrite => format!(in alloc;
            "write after write: writes what {earlier} writes, in flight, at 0x{address:x}"
        ),
    }
}

/// The lines of a missing wait: what it is, and both entries.
fn wait_text(
    alloc: Global,
    all: &[[u8; 64]],
    course: &Course,
    wait: &Shown,
) -> Result<String, AllocError> {
    let severity = severity_of(wait.is_accepted);
    let place = place_text(alloc, course, wait.later)?;
    let other = place_text(alloc, course, wait.earlier)?;
    let what = hazard_text(alloc, &other, wait.hazard)?;
    let count = bytes_text(alloc, wait.bytes)?;
    let record = record_text(alloc, wait.records, "entry ", wait.earlier)?;
    let mut text = format!(in alloc;
        "{place}: {severity}: missing wait, {what} ({count}){record}\n"
    )?;
    push_entry(alloc, &mut text, all, wait.later)?;
    push_entry(alloc, &mut text, all, wait.earlier)?;
    Ok(text)
}

/// Whether some event says that the program looks at a record, or that this is seen.
pub(crate) fn some_known(events: &[Event]) -> bool {
    for event in events {
        if let Event::Known(_) | Event::Watched(_) = *event {
            return true;
        }
    }
    false
}

/// What a report without looks at records rests on.
const ALL_KNOWN: &str =
    "no event says when the program looked at a record (W, K): what has ended counts as waited for\n";

/// An s, but for one.
fn plural(count: usize) -> &'static str {
    if count == 1 { "" } else { "s" }
}

/// How severe a missing wait is.
pub(crate) fn severity_of(is_accepted: bool) -> &'static str {
    if is_accepted { "accepted" } else { "error" }
}

/// How many missing waits and submissions there are, and what that rests on.
fn totals_text(alloc: Global, found: &Found, missing: usize) -> Result<String, AllocError> {
    let submissions = found.course.made.len();
    let (waits, made) = (plural(missing), plural(submissions));
    let mut text = format!(in alloc;
        "{missing} missing wait{waits}, {submissions} submission{made}\n"
    )?;
    if !some_known(&found.course.events) {
        text.push_str(ALL_KNOWN)?;
    }
    Ok(text)
}

/// The lines of all missing waits that are shown, and how many there are.
pub(crate) fn waits_text(keyed: Keyed<'_>, found: &Found) -> Result<String, AllocError> {
    let (alloc, course) = (keyed.alloc, &found.course);
    let mut text = String::new(alloc);
    let shown = shown_waits(keyed, found)?;
    for wait in &shown {
        text.push_str(&wait_text(alloc, keyed.all, course, wait)?)?;
    }
    text.push_str(&totals_text(alloc, found, shown.len())?)?;
    Ok(text)
}

/// Why the line does not fit.
fn misfit_text(why: Misfit) -> &'static str {
    match why {
        Misfit::Number => "the submission is not the next one, or not made yet",
        Misfit::Recording => "the recording has another operation or count of members there",
        Misfit::Member => "the submission has no such member",
    }
}

/// Why there is no answer.
pub(crate) fn fault_text(alloc: Global, fault: WaitsFault) -> Result<String, AllocError>
    ensures { IfOk result (λ _. fault ≢ Memory) }
{
    match fault {
        WaitsFault::Line(index) => {
            let line = index as u128 + 1;
            format!(in alloc; "line {line}: error: this is no event, or the line is cut off\n")
        }
        WaitsFault::Unfit(index, why) => {
            let (line, reason) = (index as u128 + 1, misfit_text(why));
            format!(in alloc; "line {line}: error: {reason}\n")
        }
        WaitsFault::Few(made) => format!(in alloc;
            "error: the events have {made} submissions, and the recording has more\n"
        ),
        WaitsFault::Memory => Err(AllocError),
    }
}
