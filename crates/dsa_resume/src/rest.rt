//! What is left of a stopped list.

ghost use Rattle.std.specs.Prelude.{◌≡◌, ◌++◌, IfOk, drop, false, length, replicate};
ghost use Rattle.dsa_resume.specs.Barriers.{IsFront};
ghost use Rattle.dsa_resume.specs.Rest.{IsRest, remainder_of};

use crate::barriers::first_stop;
use crate::left::{LeftOrder, left_pieces};
use crate::status::Ended;
use dsa_ranges::Piece;
use std::alloc::{AllocError, Global};

/// The pieces after a barrier that may not be done any more.
#[derive(Clone, Copy)]
pub struct LeftOut {
    /// How many they are: all from the barrier on.
    pub pieces: usize,
    /// The first piece before the barrier that will not succeed: a compare that found another result than expected, or
    /// one that is given up.
    pub stopped_by: usize,
}

/// What is left of a list.
#[derive(Drop)]
pub struct Rest<P: Piece> {
    /// The pieces that may be done.
    pub pieces: Vec<P>,
    /// For each whether it begins after a barrier; empty if none does.
    pub barriers: Vec<bool>,
    /// Those that may not, if there are some.
    pub left_out: Option<LeftOut>,
}

/// The barriers of so many pieces without one between, and of those from the front on.
fn barriers_after(
    alloc: Global,
    count: usize,
    barriers: &[bool],
    front: usize,
) -> Result<Vec<bool>, AllocError>
    ensures { IfOk result (λ all. all.items ≡ replicate count false ++ drop front barriers.now) }
{
    let mut all = Vec::new(alloc);
    all.resize(count, false)?;
    if front < barriers.len() {
        all.extend_from_slice(&barriers[front..])?;
    }
    Ok(all)
}

/// What is left of pieces that have ended so, if so many are before the first barrier that holds.
pub(crate) fn rest_of<P: Piece>(
    alloc: Global,
    pieces: &[P],
    barriers: &[bool],
    ends: &[Ended],
    front: usize,
    order: LeftOrder,
) -> Result<Rest<P>, AllocError>
    requires count { length ends.now ≡ length pieces.now }
    requires front { IsFront barriers.now ends.now front }
    ensures { IfOk result (λ rest. IsRest order pieces.now barriers.now ends.now front
        (remainder_of rest)) }
{
    let (before, after) = pieces.split_at(front);
    let mut rest = Rest {
        pieces: left_pieces(alloc, before, &ends[..front], order)?,
        barriers: Vec::new(alloc),
        left_out: None,
    };
    if after.is_empty() {
        return Ok(rest);
    }
    if let Some(stopped_by) = first_stop(ends, front) {
        rest.left_out = Some(LeftOut {
            pieces: after.len(),
            stopped_by,
        });
        return Ok(rest);
    }
    rest.barriers = barriers_after(alloc, rest.pieces.len(), barriers, front)?;
    rest.pieces.extend_from_slice(after)?;
    Ok(rest)
}
