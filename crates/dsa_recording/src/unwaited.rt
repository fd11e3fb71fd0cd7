//! Missing waits in a picture of a recording.

use crate::report::Report;
use crate::report_json::hazard_name;
use crate::stream::Submission;
use dsa_drawing::{Bar, BarKind, Separated};
use dsa_ranges::Hazard;
use std::alloc::{AllocError, Global};

/// An entry that was submitted before an earlier one, with which it conflicts, was known to have ended.
#[derive(Clone, Copy)]
pub struct MissingWait {
    /// The entry that is waited for.
    pub earlier: usize,
    /// The entry that has to wait.
    pub later: usize,
    /// Where they conflict, and how.
    pub hazard: Hazard,
    /// Whether it is accepted, and so no error.
    pub is_accepted: bool,
}

/// Where an entry is drawn.
#[derive(Clone, Copy)]
struct Spot {
    /// Its column; of the descriptor of a batch that of its first member.
    column: usize,
    /// Whether it has that column.
    is_member: bool,
}

/// Notes where an entry is drawn.
fn put(spots: &mut Vec<Option<Spot>>, entry: usize, column: usize, is_member: bool) {
    if entry < spots.len() {
        spots[entry] = Some(Spot { column, is_member });
    }
}

/// Notes where the entries of a submission are drawn, whose first of so many members has this column. The descriptor of
/// a batch without members is not.
fn put_all(spots: &mut Vec<Option<Spot>>, submission: Submission, members: usize, start: usize) {
    if submission.is_batch && members > 0 {
        put(spots, submission.first.saturating_sub(1), start, false);
    }
    for member in 0..members {
        let entry = submission.first.saturating_add(member);
        put(spots, entry, start.saturating_add(member), true);
    }
}

/// Where each of so many entries is drawn.
fn spots_of(
    alloc: Global,
    report: &Report,
    entries: usize,
) -> Result<Vec<Option<Spot>>, AllocError> {
    let mut spots = vec![in alloc; None; entries]?;
    let mut start: usize = 0;
    for (submission, audited) in report.submissions.iter().zip(report.audits.iter()) {
        let members = audited.members.len();
        put_all(&mut spots, *submission, members, start);
        start = start.saturating_add(members);
    }
    Ok(spots)
}

/// What a browser shows of a missing wait under the pointer.
fn title_of(alloc: Global, wait: MissingWait) -> Result<String, AllocError> {
    let MissingWait {
        earlier,
        hazard,
        ..
    } = wait;
    let accepted = if wait.is_accepted { "accepted: " } else { "" };
    let (kind, address) = (hazard_name(hazard.kind), hazard.address);
    format!(in alloc; "{accepted}missing wait for entry {earlier}: {kind}, at 0x{address:x}")
}

/// What a missing wait separates, if both entries have columns of their own.
fn separated_by(wait: MissingWait, earlier: Option<Spot>, later: Spot) -> Option<Separated> {
    let earlier = earlier.filter(|spot| spot.is_member)?;
    if !later.is_member {
        return None;
    }
    Some(Separated {
        earlier: earlier.column,
        later: later.column,
        address: wait.hazard.address,
    })
}

/// A missing wait before a column.
fn bar_of(
    alloc: Global,
    wait: MissingWait,
    earlier: Option<Spot>,
    later: Spot,
) -> Result<Bar, AllocError> {
    let kind = dsa_drawing::hazard_name(wait.hazard.kind);
    Ok(Bar {
        column: later.column,
        kind: BarKind::MissingWait {
            is_error: !wait.is_accepted,
        },
        title: title_of(alloc, wait)?,
        words: format!(in alloc; "missing wait {kind}")?,
        separated: separated_by(wait, earlier, later),
    })
}

/// Joins a missing wait to the one before the same column: one that is an error decides how both are drawn.
fn join(bar: &mut Bar, other: Bar, is_error: bool) -> Result<(), AllocError> {
    bar.title.push_str("; ")?;
    bar.title.push_str(&other.title)?;
    if bar.words != other.words {
        bar.words.push_str(", ")?;
        bar.words.push_str(&other.words)?;
    }
    if is_error {
        bar.kind = other.kind;
        bar.separated = other.separated;
    }
    Ok(())
}

/// Adds a missing wait to those after the first so many bars.
fn push_wait(
    bars: &mut Vec<Bar>,
    fences: usize,
    bar: Bar,
    is_error: bool,
) -> Result<(), AllocError> {
    let count = bars.len();
    if count > fences && bars[count - 1].column == bar.column {
        return join(&mut bars[count - 1], bar, is_error);
    }
    bars.push(bar)?;
    Ok(())
}

/// The words of the bar at this place, if the one before it is before the same column.
fn shared_words(alloc: Global, bars: &[Bar], at: usize) -> Result<Option<String>, AllocError> {
    if let (Some(before), Some(bar)) = (bars.get(at.saturating_sub(1)), bars.get(at))
        && before.column == bar.column
    {
        return Ok(Some(String::from_str(alloc, &bar.words)?));
    }
    Ok(None)
}

/// The words of a fence before the same column as a wait say both, since they are written at one place.
fn share_words(alloc: Global, bars: &mut Vec<Bar>) -> Result<(), AllocError> {
    for at in 1..bars.len() {
        if let Some(words) = shared_words(alloc, bars, at)? {
            if let Some(wait) = bars.get_mut(at) {
                wait.words = String::new(alloc);
            }
            if let Some(fence) = bars.get_mut(at.saturating_sub(1)) {
                fence.words.push_str(", ")?;
                fence.words.push_str(&words)?;
            }
        }
    }
    Ok(())
}

/// Adds the missing waits to the fences, which are in the order of their columns. Those of the descriptors of batches
/// without members have none.
pub(crate) fn push_waits(
    alloc: Global,
    bars: &mut Vec<Bar>,
    report: &Report,
    entries: usize,
    waits: &[MissingWait],
) -> Result<(), AllocError> {
    if waits.is_empty() {
        return Ok(());
    }
    let (spots, fences) = (spots_of(alloc, report, entries)?, bars.len());
    for wait in waits {
        let earlier = spots.get(wait.earlier).copied().flatten();
        if let Some(later) = spots.get(wait.later).copied().flatten() {
            let bar = bar_of(alloc, *wait, earlier, later)?;
            push_wait(bars, fences, bar, !wait.is_accepted)?;
        }
    }
    bars.sort_by_key(|bar| bar.column)?;
    share_words(alloc, bars)
}

/// The line at the end that says how many waits are missing, and what their lines mean; none if there are none.
pub(crate) fn waits_note(
    alloc: Global,
    waits: &[MissingWait],
) -> Result<Option<String>, AllocError> {
    let missing = waits.len();
    if missing == 0 {
        return Ok(None);
    }
    let plural = if missing == 1 { "" } else { "s" };
    let accepted = waits.iter().filter(|wait| wait.is_accepted).count();
    let mut note = format!(in alloc; "dotted: missing wait; {missing} missing wait{plural}")?;
    if accepted > 0 {
        note.push_str(&format!(in alloc; ", {accepted} accepted (grey)")?)?;
    }
    Ok(Some(note))
}
