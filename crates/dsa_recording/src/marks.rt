//! The fences of a submission in a picture: those that are there and what is found of them, and those that are missing.

use crate::findings::Flaw;
use crate::shared::later_of;
use crate::submission::Audited;
use crate::words::{
    both_text, flaw_text, guarding_text, hazard_text, needless_text, signalling_text,
};
use arrayvec::ArrayVec;
use dsa_audit::{FencePlace, FenceUse, Member, all_lasts, hazard_between};
use dsa_descriptor::Span;
use dsa_drawing::{Bar, BarKind, Separated, hazard_name};
use dsa_ranges::{Hazard, Touched};
use std::alloc::{AllocError, Global};

/// A submission that is drawn.
#[derive(Clone, Copy)]
pub(crate) struct Drawn<'a> {
    /// Its audit.
    pub audited: &'a Audited,
    /// The column of its first member.
    pub start: usize,
    /// Whether none of its fences is missing.
    pub complete: bool,
    /// Whether a fence before its first member is an error.
    pub denies_first: bool,
    /// For each member the last before it that it is known to conflict with, if some member is not looked at.
    pub lasts: &'a [Option<usize>],
}

/// Two members that conflict.
#[derive(Clone, Copy)]
struct Pair {
    earlier: usize,
    later: usize,
    hazard: Hazard,
}

/// Two of these members, if they are known to conflict.
fn pair_of(members: &[Member], earlier: usize, later: usize) -> Option<Pair> {
    if earlier >= later || later >= members.len() {
        return None;
    }
    let hazard = hazard_between(members, earlier, later)?;
    Some(Pair {
        earlier,
        later,
        hazard,
    })
}

/// What a bar separates, in a submission whose first column is `start`.
fn separated(start: usize, pair: Option<Pair>) -> Option<Separated> {
    let pair = pair?;
    Some(Separated {
        earlier: start.saturating_add(pair.earlier),
        later: start.saturating_add(pair.later),
        address: pair.hazard.address,
    })
}

/// The member with the last fence that stays before this one, or the first member.
fn epoch_before(fences: &[bool], member: usize) -> usize {
    for at in (1..member).rev() {
        if fences.get(at).copied().unwrap_or(false) {
            return at;
        }
    }
    0
}

/// The member with the next fence that stays after this one, or the end.
fn epoch_after(fences: &[bool], member: usize) -> usize {
    for at in member.saturating_add(1)..fences.len() {
        if fences.get(at).copied().unwrap_or(false) {
            return at;
        }
    }
    fences.len()
}

/// What a member reads, or what it writes.
#[derive(Clone, Copy)]
enum Part {
    Reads,
    Writes,
}

/// The part of a member; of one that is not looked at nothing is known.
fn part_of(member: &Member, part: Part) -> Result<ArrayVec<Span, 3>, AllocError> {
    match (member, part) {
        (Member::Known(touched), Part::Reads) => touched.reads.clone(),
        (Member::Known(touched), Part::Writes) => touched.writes.clone(),
        (Member::Unknown(_), Part::Reads | Part::Writes) => Ok(ArrayVec::new()),
    }
}

/// Adds members that write this part of these.
fn push_writers(both: &mut Vec<Member>, members: &[Member], part: Part) -> Result<(), AllocError> {
    for member in members {
        let (reads, writes) = (ArrayVec::new(), part_of(member, part)?);
        both.push(Member::Known(Touched { reads, writes }))?;
    }
    Ok(())
}

/// Adds members that read this part of these.
fn push_readers(both: &mut Vec<Member>, members: &[Member], part: Part) -> Result<(), AllocError> {
    for member in members {
        let (reads, writes) = (part_of(member, part)?, ArrayVec::new());
        both.push(Member::Known(Touched { reads, writes }))?;
    }
    Ok(())
}

/// For each of the later members the last of the earlier ones of which this part meets that part of it. Members that
/// only read do not conflict, so none of these is a later one.
fn meetings(
    alloc: Global,
    earlier: (&[Member], Part),
    later: (&[Member], Part),
) -> Result<Vec<Option<usize>>, AllocError> {
    let mut both = Vec::new(alloc);
    push_writers(&mut both, earlier.0, earlier.1)?;
    push_readers(&mut both, later.0, later.1)?;
    let lasts = all_lasts(alloc, &both)?;
    let mut found = Vec::new(alloc);
    for last in lasts.iter().skip(earlier.0.len()) {
        found.push(*last)?;
    }
    Ok(found)
}

/// The first member from `member` on and before `end` that is known to conflict with one from `from` on and before
/// `member`, and the last of these.
fn crossing_pair(
    alloc: Global,
    members: &[Member],
    from: usize,
    member: usize,
    end: usize,
) -> Result<Option<Pair>, AllocError> {
    let (before, _) = members.split_at(end.min(members.len()));
    let (before, later) = before.split_at(member.min(before.len()));
    let (_, earlier) = before.split_at(from.min(before.len()));
    let written = meetings(alloc, (earlier, Part::Writes), (later, Part::Reads))?;
    let rewritten = meetings(alloc, (earlier, Part::Writes), (later, Part::Writes))?;
    let overwritten = meetings(alloc, (earlier, Part::Reads), (later, Part::Writes))?;
    for (number, ((one, two), three)) in written
        .iter()
        .zip(rewritten.iter())
        .zip(overwritten.iter())
        .enumerate()
    {
        if let Some(last) = later_of(later_of(*one, *two), *three) {
            let pair = (from.saturating_add(last), member.saturating_add(number));
            return Ok(pair_of(members, pair.0, pair.1));
        }
    }
    Ok(None)
}

/// Two members that are known to conflict, and that of all fences that stay the one before `member` alone separates. If
/// the last conflict of a member is in its own epoch, both epochs are searched at once: to go back from each member
/// would take quadratic time.
fn known_pair(alloc: Global, drawn: Drawn<'_>, member: usize) -> Result<Option<Pair>, AllocError> {
    let members = drawn.audited.members.as_slice();
    let fences = drawn.audited.audit.reduced.fences.as_slice();
    let (from, end) = (epoch_before(fences, member), epoch_after(fences, member));
    for later in member..end {
        if let Some(last) = drawn.lasts.get(later).copied().flatten()
            && last >= from
        {
            if last < member {
                return Ok(pair_of(members, last, later));
            }
            return crossing_pair(alloc, members, from, member, end);
        }
    }
    Ok(None)
}

/// A fence that is missing before a member.
fn missing_bar(alloc: Global, column: usize, start: usize, pair: Pair) -> Result<Bar, AllocError> {
    let kind = hazard_name(pair.hazard.kind);
    Ok(Bar {
        column,
        kind: BarKind::Missing,
        title: hazard_text(alloc, pair.earlier, pair.hazard)?,
        words: format!(in alloc; "missing {kind}")?,
        separated: separated(start, Some(pair)),
    })
}

/// A fence that is needed: for this conflict, or for one with a member that is not looked at.
fn needed_bar(
    alloc: Global,
    column: usize,
    start: usize,
    pair: Option<Pair>,
) -> Result<Bar, AllocError> {
    let words = match pair {
        Some(pair) => hazard_name(pair.hazard.kind),
        None => "unknown",
    };
    Ok(Bar {
        column,
        kind: BarKind::Needed,
        title: String::from_str(alloc, "fence")?,
        words: String::from_str(alloc, words)?,
        separated: separated(start, pair),
    })
}

/// A fence that no conflict needs.
fn spare_bar(column: usize, kind: BarKind, title: String, words: String) -> Bar {
    Bar {
        column,
        kind,
        title,
        words,
        separated: None,
    }
}

/// A fence that guards against the failure of a member.
fn guarding_bar(alloc: Global, column: usize, earlier: usize) -> Result<Bar, AllocError> {
    let words = format!(in alloc; "guards {earlier}")?;
    let title = guarding_text(alloc, earlier)?;
    Ok(spare_bar(column, BarKind::Kept, title, words))
}

/// A fence that a member waits for, which can be seen to have ended.
fn signalling_bar(alloc: Global, column: usize, awaited: usize) -> Result<Bar, AllocError> {
    let words = format!(in alloc; "signals {awaited}")?;
    let title = signalling_text(alloc, awaited)?;
    Ok(spare_bar(column, BarKind::Kept, title, words))
}

/// A fence that does both.
fn both_bar(
    alloc: Global,
    column: usize,
    earlier: usize,
    awaited: usize,
) -> Result<Bar, AllocError> {
    let words = format!(in alloc; "guards {earlier} signals {awaited}")?;
    let title = both_text(alloc, earlier, awaited)?;
    Ok(spare_bar(column, BarKind::Kept, title, words))
}

/// A fence that may go; `complete`: none of its submission is missing.
fn needless_bar(alloc: Global, column: usize, complete: bool) -> Result<Bar, AllocError> {
    let words = String::from_str(alloc, "needless")?;
    let title = needless_text(alloc, complete)?;
    Ok(spare_bar(column, BarKind::Needless, title, words))
}

/// A fence before the first member of a submission.
fn first_bar(alloc: Global, drawn: Drawn<'_>) -> Result<Bar, AllocError> {
    let title = if drawn.audited.is_batch {
        needless_text(alloc, drawn.complete)?
    } else {
        flaw_text(alloc, Flaw::FenceWithoutEffect)?
    };
    let kind = BarKind::NoEffect {
        is_error: drawn.denies_first,
    };
    let words = String::from_str(alloc, "no effect")?;
    Ok(spare_bar(drawn.start, kind, title, words))
}

/// The fence before a member of which this was found.
fn used_bar(
    alloc: Global,
    drawn: Drawn<'_>,
    member: usize,
    used: FenceUse,
) -> Result<Option<Bar>, AllocError> {
    let column = drawn.start.saturating_add(member);
    let bar = match used {
        FenceUse::NoFence => return Ok(None),
        FenceUse::Needed(earlier, later) => {
            let pair = match pair_of(&drawn.audited.members, earlier, later) {
                Some(pair) => Some(pair),
                None => known_pair(alloc, drawn, member)?,
            };
            needed_bar(alloc, column, drawn.start, pair)?
        }
        FenceUse::Held => {
            let pair = known_pair(alloc, drawn, member)?;
            needed_bar(alloc, column, drawn.start, pair)?
        }
        FenceUse::Guarding(earlier) => guarding_bar(alloc, column, earlier)?,
        FenceUse::Signalling(awaited) => signalling_bar(alloc, column, awaited)?,
        FenceUse::GuardingAndSignalling(earlier, awaited) => {
            both_bar(alloc, column, earlier, awaited)?
        }
        FenceUse::Needless => {
            if member == 0 {
                first_bar(alloc, drawn)?
            } else {
                needless_bar(alloc, column, drawn.complete)?
            }
        }
    };
    Ok(Some(bar))
}

/// What is before a member of a submission: a fence, or the place of one that is missing.
pub(crate) fn bar_before(
    alloc: Global,
    drawn: Drawn<'_>,
    member: usize,
) -> Result<Option<Bar>, AllocError> {
    let audit = &drawn.audited.audit;
    let places = &audit.corrected.places;
    match places.get(member).copied().unwrap_or(FencePlace::NoFence) {
        FencePlace::Missing(earlier) => {
            let column = drawn.start.saturating_add(member);
            match pair_of(&drawn.audited.operands, earlier, member) {
                Some(pair) => Ok(Some(missing_bar(alloc, column, drawn.start, pair)?)),
                None => Ok(None),
            }
        }
        FencePlace::NoFence | FencePlace::Given => {
            let uses = &audit.reduced.uses;
            let used = uses.get(member).copied().unwrap_or(FenceUse::NoFence);
            used_bar(alloc, drawn, member, used)
        }
    }
}
