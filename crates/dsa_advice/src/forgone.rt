//! Warnings about pieces that read what another would have written that is given up.

ghost use Rattle.std.specs.Prelude.{◌≡◌, ℕ, [], length};
ghost use Rattle.dsa_operations.specs.Operations.{reads_of};
ghost use Rattle.dsa_advice.specs.Forgone.{lost_writes};

use crate::notes::Notes;
use arrayvec::ArrayVec;
use dsa_conflicts::Sweep;
use dsa_descriptor::{MOST_PIECES, are_addressable};
use dsa_operations::Operation;
use dsa_ranges::{Touched, Touching, find_hazard};
use dsa_tracker::Tracked;
use std::alloc::{AllocError, Global};
use std::marker::Model;

/// What the pieces write that are given up, since the last barrier.
#[derive(Drop)]
struct Forgone {
    writes: Sweep,
    pieces: Vec<usize>,
}

impl Model for Forgone {
    ghost Value = { ℕ };

    ghost view = { λ f. f.writes.count };

    ghost invariant = { λ f. f.writes.count ≡ length f.pieces.items };
}

/// Whether a piece is given up, by a byte other than 0.
pub(crate) fn is_given_up(given_up: &[u8], piece: usize) -> bool {
    given_up.get(piece).is_some_and(|mark| *mark != 0)
}

/// The data that a piece writes, and the record of a checksum, which has its value.
fn written_by(piece: &Operation) -> Touched
    ensures reads { result.reads.items ≡ [] }
    ensures writes { result.writes.items ≡ lost_writes piece.now }
{
    let mut writes = ArrayVec::new();
    match piece {
        Operation::Descriptor(_) => writes
            .try_extend_from_slice(piece.targets().as_slice())
            .unwrap(),
        Operation::Checksum(_) => writes = piece.touched_spans().writes,
    }
    Touched {
        reads: ArrayVec::new(),
        writes,
    }
}

/// What a piece reads.
fn read_by(piece: &Operation) -> Touched
    ensures reads { result.reads.items ≡ reads_of piece.now }
    ensures writes { result.writes.items ≡ [] }
{
    Touched {
        reads: piece.touched_spans().reads,
        writes: ArrayVec::new(),
    }
}

impl Forgone {
    /// None.
    fn new(alloc: Global) -> Forgone {
        Forgone {
            writes: Sweep::new(alloc),
            pieces: Vec::new(alloc),
        }
    }

    /// Adds a piece that is given up.
    fn push(self, number: usize, piece: &Operation) -> Result<Forgone, AllocError> {
        let Forgone { writes, mut pieces } = self;
        let spans = written_by(piece);
        if pieces.len() >= MOST_PIECES || !are_addressable(&spans.writes) {
            return Ok(Forgone { writes, pieces });
        }
        let (writes, _) = writes.add_touched(&spans)?;
        pieces.push(number)?;
        Ok(Forgone { writes, pieces })
    }

    /// The last piece that was to write what this one reads.
    fn last_before(&self, piece: &Operation) -> Option<usize> {
        let spans = read_by(piece);
        if !are_addressable(&spans.reads) {
            return None;
        }
        let place = self.writes.last_against(&spans)?;
        self.pieces.get(place as usize).copied()
    }
}

/// The line of a piece that reads what the earlier one was to write.
fn line_of(
    alloc: Global,
    pieces: &[Operation],
    earlier: usize,
    later: usize,
) -> Result<String, AllocError> {
    let mut line = format!(in alloc; "warning: piece {later} reads what piece {earlier}, ")?;
    line.push_str("which is given up, was to write")?;
    if let (Some(first), Some(second)) = (pieces.get(earlier), pieces.get(later)) {
        if let Some(hazard) = find_hazard(&written_by(first), &read_by(second)) {
            line.push_str(&format!(in alloc; " at 0x{:x}", hazard.address)?)?;
        }
    }
    line.push_str("\n")?;
    Ok(line)
}

/// A line for each piece that is left and reads what one that is given up was to write, up to 20, and how many more
/// there are. What is after a barrier is left out then.
pub(crate) fn forgone_notes(
    alloc: Global,
    pieces: &[Operation],
    barriers: &[bool],
    records: &[[u8; 32]],
    given_up: &[u8],
) -> Result<Option<String>, AllocError> {
    let mut notes = Notes::new(alloc);
    let mut forgone = Forgone::new(alloc);
    for (number, (piece, record)) in pieces.iter().zip(records).enumerate() {
        if barriers.get(number).copied().unwrap_or(false) {
            forgone = Forgone::new(alloc);
        }
        match record[0] {
            1 | 2 => {}
            3..=255 if is_given_up(given_up, number) => forgone = forgone.push(number, piece)?,
            0 | 3..=255 => {
                if let Some(earlier) = forgone.last_before(piece) {
                    if notes.count() {
                        notes.write(&line_of(alloc, pieces, earlier, number)?)?;
                    }
                }
            }
        }
    }
    notes.into_text(alloc, "pieces that read what is not written")
}
