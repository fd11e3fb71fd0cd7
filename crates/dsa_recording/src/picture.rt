//! A report on a recording as a picture.

ghost use Rattle.std.specs.Prelude.{◌↔◌, IfOk, IsTrue, string_bytes};
ghost use Rattle.dsa_drawing.specs.Pictures.{IsPicture};
ghost use Rattle.dsa_recording.specs.Answers.{IsTooLarge};
ghost use Rattle.dsa_recording.specs.Totals.{HasSums};

use crate::answer::{AuditOptions, severity_in};
use crate::costs::{has_price, submission_cost};
use crate::detail::{detail_of, has_all_fences};
use crate::entry::Header;
use crate::entry_words::descriptor_text;
use crate::findings::{Finding, FindingKind, Flaw, Place};
use crate::further::code_name;
use crate::marks::{Drawn, bar_before};
use crate::member::{records_of, touched_by};
use crate::report::Report;
use crate::report_json::unseen_name;
use crate::submission::Audited;
use crate::totals::{totals_of, totals_text};
use crate::unwaited::{MissingWait, push_waits, waits_note};
use crate::words::{Severity, unseen_text};
use dsa_audit::{Member, all_lasts};
use dsa_descriptor::op_at;
use dsa_drawing::{Bar, Buffer, Column, Group, Layout, MOST_ROWS, op_name};
use dsa_sentences::TextCause;
use dsa_settings::Settings;
use std::alloc::{AllocError, Global};

/// The most entries of a recording that has a picture.
pub const MOST_ENTRIES: usize = 65_536;

/// What the marks and lines mean.
const LEGEND: &str = "R: reads, W: writes; red: a conflict; hatched: not looked at (unknown)";

/// What the bars mean.
const BARS: &str = "bar: fence; dashed: missing; hollow: needless; grey: guards or signals";

/// What a submission costs, if it has a price.
fn cost_drawn(alloc: Global, settings: &Settings, audited: &Audited) -> Result<String, AllocError> {
    if !has_price(settings, audited.is_batch, &audited.fences) {
        return String::from_str(alloc, "no price");
    }
    let cost = submission_cost(settings, audited.is_batch, &audited.fences);
    format!(in alloc; "cost {cost}")
}

/// A submission of this number.
fn drawn_group(
    alloc: Global,
    settings: &Settings,
    number: usize,
    audited: &Audited,
) -> Result<Group, AllocError> {
    let size = audited.members.len();
    let kind = if audited.is_batch {
        format!(in alloc; "batch of {size}")?
    } else {
        String::from_str(alloc, "lone")?
    };
    let cost = cost_drawn(alloc, settings, audited)?;
    Ok(Group {
        number,
        title: format!(in alloc; "submission {number}: {kind}, {cost}")?,
        name: format!(in alloc; "submission {number}")?,
        kind,
        cost,
        size,
        has_barrier: false,
    })
}

/// The submissions of a report.
fn drawn_groups(
    alloc: Global,
    settings: &Settings,
    report: &Report,
) -> Result<Vec<Group>, AllocError> {
    let mut groups = Vec::new(alloc);
    for (number, audited) in report.audits.iter().enumerate() {
        groups.push(drawn_group(alloc, settings, number, audited)?)?;
    }
    Ok(groups)
}

/// The name of an entry's operation, or its code.
fn entry_name(alloc: Global, entry: &[u8; 64]) -> Result<String, AllocError> {
    if let Some(op) = op_at(entry) {
        return String::from_str(alloc, op_name(&op));
    }
    let code = Header::of(entry).code;
    let name = code_name(code);
    if name.is_empty() {
        format!(in alloc; "0x{code:02x}")
    } else {
        String::from_str(alloc, name)
    }
}

/// The column of a member, which has this entry.
fn drawn_member(
    alloc: Global,
    member: &Member,
    number: usize,
    at: usize,
    entry: &[u8; 64],
) -> Result<Column, AllocError> {
    let words = descriptor_text(alloc, entry)?;
    let name = entry_name(alloc, entry)?;
    let Header { code, size, .. } = Header::of(entry);
    match member {
        Member::Known(_) => Ok(Column {
            number,
            name,
            title: format!(in alloc; "{number}: {words}, entry {at}")?,
            size,
            touched: Some(touched_by(entry)),
            has_record: !records_of(entry).is_empty(),
            split: None,
        }),
        Member::Unknown(why) => {
            let (reason, unseen) = (unseen_name(*why), unseen_text(alloc, *why, code)?);
            Ok(Column {
                number,
                name: format!(in alloc; "{name} ({reason})")?,
                title: format!(in alloc; "{number}: {words}, entry {at}, {unseen}")?,
                size,
                touched: None,
                has_record: false,
                split: None,
            })
        }
    }
}

/// Adds the columns of a submission's members, whose first is this entry.
fn push_members(
    alloc: Global,
    columns: &mut Vec<Column>,
    all: &[[u8; 64]],
    first: usize,
    audited: &Audited,
) -> Result<(), AllocError> {
    for (number, member) in audited.members.iter().enumerate() {
        let at = first.saturating_add(number);
        if let Some(entry) = all.get(at) {
            columns.push(drawn_member(alloc, member, number, at, entry)?)?;
        }
    }
    Ok(())
}

/// The members of all submissions.
fn drawn_members(
    alloc: Global,
    all: &[[u8; 64]],
    report: &Report,
) -> Result<Vec<Column>, AllocError> {
    let mut columns = Vec::new(alloc);
    for (submission, audited) in report.submissions.iter().zip(report.audits.iter()) {
        push_members(alloc, &mut columns, all, submission.first, audited)?;
    }
    Ok(columns)
}

/// Whether a fence before the first member of a submission is an error: it orders nothing.
fn denies_first(
    alloc: Global,
    all: &[[u8; 64]],
    report: &Report,
    options: AuditOptions<'_>,
    submission: usize,
    is_batch: bool,
) -> Result<bool, AllocError> {
    let kind = if is_batch {
        FindingKind::NeedlessFence
    } else {
        FindingKind::Flawed(Flaw::FenceWithoutEffect)
    };
    let place = Place::Member(0);
    let finding = Finding {
        submission,
        place,
        kind,
    };
    match detail_of(all, report, finding) {
        Some(detail) => Ok(severity_in(alloc, options, all, &detail)? == Severity::Error),
        None => Ok(false),
    }
}

/// For each member the last before it that it is known to conflict with, if some member is not looked at.
fn lasts_in(alloc: Global, members: &[Member]) -> Result<Vec<Option<usize>>, AllocError> {
    if members
        .iter()
        .any(|member| matches!(member, Member::Unknown(_)))
    {
        all_lasts(alloc, members)
    } else {
        Ok(Vec::new(alloc))
    }
}

/// Adds what is before the members of a submission.
fn push_bars(alloc: Global, bars: &mut Vec<Bar>, drawn: Drawn<'_>) -> Result<(), AllocError> {
    for member in 0..drawn.audited.members.len() {
        if let Some(bar) = bar_before(alloc, drawn, member)? {
            bars.push(bar)?;
        }
    }
    Ok(())
}

/// The fences of all submissions, and the places of those and of waits that are missing, by their columns.
fn drawn_bars(
    alloc: Global,
    all: &[[u8; 64]],
    report: &Report,
    options: AuditOptions<'_>,
) -> Result<Vec<Bar>, AllocError> {
    let mut bars = Vec::new(alloc);
    let mut start: usize = 0;
    for (number, audited) in report.audits.iter().enumerate() {
        let lasts = lasts_in(alloc, &audited.members)?;
        let drawn = Drawn {
            audited,
            start,
            complete: has_all_fences(audited),
            denies_first: denies_first(alloc, all, report, options, number, audited.is_batch)?,
            lasts: &lasts,
        };
        push_bars(alloc, &mut bars, drawn)?;
        start = start.saturating_add(audited.members.len());
    }
    push_waits(alloc, &mut bars, report, all.len(), options.waits)?;
    Ok(bars)
}

/// The lines at the end: the numbers, and what the parts of the picture mean.
fn notes_of(alloc: Global, totals: &str, waits: &[MissingWait]) -> Result<Vec<String>, AllocError> {
    let mut notes = Vec::new(alloc);
    for line in totals.lines() {
        notes.push(String::from_str(alloc, line)?)?;
    }
    notes.push(String::from_str(alloc, LEGEND)?)?;
    notes.push(String::from_str(alloc, BARS)?)?;
    if let Some(note) = waits_note(alloc, waits)? {
        notes.push(note)?;
    }
    Ok(notes)
}

/// The picture of a report as SVG, without scripts: the members of submissions in columns, buffers in rows, fences as
/// bars, red and dashed if they are missing, hollow if they are needless or have no effect (red if that is an error),
/// and grey if no conflict needs them; missing waits are dotted; a member that is not looked at is hatched. The numbers
/// are at the end.
pub(crate) fn draw_report(
    alloc: Global,
    all: &[[u8; 64]],
    report: &Report,
    settings: &Settings,
    options: AuditOptions<'_>,
) -> Result<String, AllocError>
    requires { HasSums report.now }
    ensures { IfOk result (λ s. IsPicture (string_bytes s)) }
{
    let totals = totals_text(alloc, &totals_of(report))?;
    let no_names: &[Buffer] = &[];
    let columns = drawn_members(alloc, all, report)?;
    let bars = drawn_bars(alloc, all, report, options)?;
    let layout = Layout {
        groups: drawn_groups(alloc, settings, report)?,
        columns,
        splits: Vec::new(alloc),
        bars,
        buffers: no_names,
        notes: notes_of(alloc, &totals, options.waits)?,
        title: totals,
    };
    dsa_drawing::draw(alloc, &layout)
}

/// Whether a report on these entries has no picture: it has too many submissions or entries.
pub(crate) fn is_too_large(all: &[[u8; 64]], report: &Report) -> bool
    ensures { IsTrue result ↔ IsTooLarge all.now report.now }
{
    if report.submissions.len() > MOST_ROWS {
        return true;
    }
    all.len() > MOST_ENTRIES
}

/// Why a report on these entries has no picture.
pub(crate) fn too_large_text(
    alloc: Global,
    all: &[[u8; 64]],
    report: &Report,
) -> Result<String, AllocError> {
    let (submissions, entries) = (report.submissions.len(), all.len());
    let mut text = if submissions > MOST_ROWS {
        format!(in alloc; "error: {submissions} submissions, a picture has {MOST_ROWS} at most")?
    } else {
        format!(in alloc; "error: {entries} entries, a picture has {MOST_ENTRIES} at most")?
    };
    text.push_str(TextCause::Picture.ending())?;
    Ok(text)
}
