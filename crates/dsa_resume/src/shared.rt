//! Pieces of which one writes into the completion record of the other.

ghost use Rattle.std.specs.Prelude.{◌≡◌, ◌≤◌, IfOk, length, map};
ghost use Rattle.dsa_descriptor.specs.Pieces.{most_pieces};
ghost use Rattle.dsa_resume.specs.Shared.{FindsFirst, FindsShared, HaveLastShared, spans_in};

use arrayvec::ArrayVec;
use dsa_conflicts::last_conflicts_of;
use dsa_descriptor::MOST_PIECES;
use dsa_ranges::{Piece, Span, Touched, Touching};
use std::alloc::{AllocError, Global};

/// What a piece writes, as what reads its data and writes its record: two such conflict exactly if one of the pieces
/// writes into the record of the other.
#[derive(Drop)]
struct Written {
    spans: ArrayVec<Span, 3>,
}

impl Touching for Written {
    ghost use Rattle.dsa_resume.specs.Shared.{WrittenConflictAt, data_in, record_in};

    ghost reads = { data_in };

    ghost writes = { record_in };

    ghost conflict = { WrittenConflictAt };

    fn conflict_as_touched() {}

    fn touched_spans(&self) -> Touched {
        let (record, data) = self.spans.split_at(1usize.min(self.spans.len()));
        let (mut reads, mut writes) = (ArrayVec::new(), ArrayVec::new());
        reads.try_extend_from_slice(data).unwrap();
        writes.try_extend_from_slice(record).unwrap();
        Touched { reads, writes }
    }
}

/// What each piece writes.
fn all_written<P: Piece>(alloc: Global, pieces: &[P]) -> Result<Vec<Written>, AllocError>
    ensures { IfOk result (λ all. map spans_in all.items ≡ map P.writes pieces.now) }
{
    let mut all = Vec::with_capacity(alloc, pieces.len())?;
    for piece in pieces {
        all.push(Written {
            spans: piece.touched_spans().writes,
        })?;
    }
    Ok(all)
}

/// For each piece the last one before it with which it shares a record, if there is one.
///
/// # Errors
/// [`AllocError`] at the first allocation that fails.
pub fn last_shared<P: Piece>(alloc: Global, pieces: &[P]) -> Result<Vec<Option<u32>>, AllocError>
    requires { length pieces.now ≤ most_pieces }
    ensures { IfOk result (λ lasts. HaveLastShared P.writes pieces.now lasts.items) }
{
    let all = all_written(alloc, pieces)?;
    let lasts = last_conflicts_of(alloc, &all, MOST_PIECES as u32)?;
    Ok(lasts)
}

/// The first place that has an index, after that index.
fn first_pair(lasts: &[Option<u32>]) -> Option<(usize, usize)>
    ensures { FindsFirst lasts.now result }
{
    for j in 0..lasts.len() {
        if let Some(i) = lasts[j] {
            return Some((i as usize, j));
        }
    }
    None
}

/// The first two pieces that share a record: the least second one, and for it the greatest first one.
pub(crate) fn first_shared<P: Piece>(
    alloc: Global,
    pieces: &[P],
) -> Result<Option<(usize, usize)>, AllocError>
    requires { length pieces.now ≤ most_pieces }
    ensures { IfOk result (FindsShared P.writes pieces.now) }
{
    let lasts = last_shared(alloc, pieces)?;
    Ok(first_pair(&lasts))
}
