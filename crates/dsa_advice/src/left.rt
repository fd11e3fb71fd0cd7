//! Notes and warnings about a list and the completion records that are to be resumed.

use crate::failed::failed_notes;
use crate::forgone::{forgone_notes, is_given_up};
use crate::kept::joined;
use crate::overwritten::overwritten_notes;
use crate::rows::warnings_of;
use crate::unfit::unfit_notes;
use dsa_descriptor::{Descriptor, Op};
use dsa_lines::TextList;
use dsa_lists::AnyPlanned;
use dsa_operations::Operation;
use dsa_plan::Settings;
use dsa_settings::cuts_of;
use dsa_warnings::Concerned;
use std::alloc::{AllocError, Global};

/// A piece that has begun, though an earlier one of another epoch has not succeeded.
#[derive(Clone, Copy)]
struct Early {
    begun: usize,
    unfinished: usize,
}

/// The first pieces that have not succeeded, in the epochs so far.
#[derive(Clone, Copy)]
struct Unfinished {
    /// In earlier epochs.
    before: Option<usize>,
    /// In this one.
    within: Option<usize>,
}

impl Unfinished {
    /// Goes on to the next epoch.
    fn next_epoch(&mut self) {
        self.before = self.before.or(self.within);
        self.within = None;
    }

    /// Adds a piece by the status in its record: 0 before it begins, 1 if it has succeeded. Returns the piece that has
    /// not succeeded, though it had to before this one began.
    fn push(&mut self, piece: usize, status: u8) -> Option<usize> {
        if self.within.is_none() && status != 1 {
            self.within = Some(piece);
        }
        if status == 0 { None } else { self.before }
    }
}

/// The first piece that has begun too early, by the pieces that begin an epoch and the completion records.
fn early_in(cuts: &[bool], completions: &[[u8; 32]]) -> Option<Early> {
    let mut unfinished = Unfinished {
        before: None,
        within: None,
    };
    for (piece, (begins_epoch, completion)) in cuts.iter().zip(completions).enumerate() {
        if *begins_epoch {
            unfinished.next_epoch();
        }
        if let Some(first) = unfinished.push(piece, completion[0]) {
            return Some(Early {
                begun: piece,
                unfinished: first,
            });
        }
    }
    None
}

/// Whether a piece is a move that overwrites a part of what it reads with other bytes.
fn overwrites_its_source(piece: &Operation) -> bool {
    piece.descriptor().is_some_and(moves_over_its_source)
}

/// The same of a descriptor.
fn moves_over_its_source(piece: &Descriptor) -> bool {
    match piece.op {
        Op::Move { src, dst } => src != dst && src.abs_diff(dst) < u64::from(piece.size),
        Op::Fill { .. }
        | Op::Compare { .. }
        | Op::ComparePattern { .. }
        | Op::ApplyDelta { .. }
        | Op::Dualcast { .. } => false,
    }
}

/// The warning about the first piece that is to be done again, and may have overwritten what it reads.
fn source_note(
    alloc: Global,
    pieces: &[Operation],
    completions: &[[u8; 32]],
    given_up: &[u8],
) -> Result<Option<String>, AllocError> {
    for (number, (piece, completion)) in pieces.iter().zip(completions).enumerate() {
        let is_left = completion[0] > 2 && !is_given_up(given_up, number);
        if is_left && overwrites_its_source(piece) {
            let mut text = format!(in alloc; "warning: piece {number} has failed, ")?;
            text.push_str("and may have overwritten a part of what it reads: ")?;
            text.push_str("restore that before it is done again\n")?;
            return Ok(Some(text));
        }
    }
    Ok(None)
}

/// The warnings about these records of a planned list.
fn planned_notes(
    alloc: Global,
    planned: &AnyPlanned,
    records: &[u8],
    given_up: &[u8],
) -> Result<Option<String>, AllocError> {
    let AnyPlanned {
        operations: pieces,
        barriers,
        ..
    } = planned;
    let (completions, _) = records.as_chunks::<32>();
    let unfit = unfit_notes(alloc, pieces, completions)?;
    let source = source_note(alloc, pieces, completions, given_up)?;
    let forgone = forgone_notes(alloc, pieces, barriers, completions, given_up)?;
    let early = early_note(alloc, planned, completions)?;
    joined(joined(unfit, source)?, joined(forgone, early)?)
}

/// The warning about records that submitting the groups of a plan in turn does not leave.
fn early_note(
    alloc: Global,
    planned: &AnyPlanned,
    completions: &[[u8; 32]],
) -> Result<Option<String>, AllocError> {
    let cuts = cuts_of(alloc, &planned.plan)?;
    let Some(Early { begun, unfinished }) = early_in(&cuts, completions) else {
        return Ok(None);
    };
    let mut text = format!(in alloc;
        "warning: piece {begun} has begun, and piece {unfinished}, of an earlier epoch of the plan, "
    )?;
    text.push_str("has not succeeded: groups submitted one after another leave no such records\n")?;
    Ok(Some(text))
}

/// The notes and warnings about a list that was read and planned, and its records: how long the records should be; else
/// which operations meet the records of others; else which pieces have failed, which records can't be those of their
/// pieces, that a piece may have overwritten its own source, which pieces read what one that is given up was to write,
/// and that submitting the groups of its plan in turn does not leave such records. A record that pieces share does not
/// say which of them has begun.
pub fn resume_notes(
    alloc: Global,
    read: &TextList<'_>,
    planned: &AnyPlanned,
    settings: &Settings,
    records: &[u8],
    given_up: &[u8],
) -> Result<Option<String>, AllocError> {
    let operations = read.list.entries.as_slice();
    let (pieces, given) = (planned.operations.len(), records.len());
    let needed = pieces.saturating_mul(32);
    if given != needed {
        return Ok(Some(format!(in alloc;
            "note: {pieces} pieces have {needed} bytes of records, and these are {given}\n"
        )?));
    }
    let shared = joined(
        warnings_of(alloc, operations, settings)?,
        overwritten_notes(alloc, operations, settings)?,
    )?;
    if shared.is_some() {
        return Ok(shared);
    }
    let (completions, _) = records.as_chunks::<32>();
    let lines = read.lines.as_slice();
    let failed = failed_notes(alloc, lines, operations, settings, completions, given_up)?;
    let planned = planned_notes(alloc, planned, records, given_up)?;
    joined(failed, planned)
}
