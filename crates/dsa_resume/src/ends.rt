//! How the pieces of a list have ended.

ghost use Rattle.std.specs.Prelude.{◌≡◌, ◌<◌, ◌≤◌, ◌↔◌, ℕ, List, IfOk, IsTrue, Some, slice_get, slice_index, slice_index_or};
ghost use Rattle.dsa_resume.specs.Ended.{ends_of};
ghost use Rattle.dsa_resume.specs.GivenUp.{FindsIdle};

use crate::status::{Ended, how_ended};
use std::alloc::{AllocError, Global};

/// The mark of the piece of this index; a piece without one is not given up.
fn mark_at(given_up: &[u8], index: usize) -> u8
    ensures { result ≡ slice_index_or given_up.now index 0 }
{
    if index < given_up.len() {
        given_up[index]
    } else {
        0
    }
}

/// How the pieces have ended that have these completion records and marks.
pub(crate) fn ends_of(
    alloc: Global,
    completions: &[[u8; 32]],
    given_up: &[u8],
) -> Result<Vec<Ended>, AllocError>
    ensures { IfOk result (λ ends. ends.items ≡ ends_of completions.now given_up.now) }
{
    let mut ends = Vec::new(alloc);
    for (index, completion) in completions.iter().enumerate() {
        ends.push(how_ended(completion, mark_at(given_up, index)))?;
    }
    Ok(ends)
}

/// Whether there is a piece of this index, and its record says that it has failed.
fn has_failed_at(completions: &[[u8; 32]], index: usize) -> bool
    ensures { IsTrue result ↔ ((r : List ℕ) × (slice_get completions.now index ≡ Some r)
        × (3 ≤ slice_index r 0)) }
{
    index < completions.len() && completions[index][0] >= 3
}

/// The first piece that is given up, but has not failed or is not there.
pub(crate) fn first_idle(completions: &[[u8; 32]], given_up: &[u8]) -> Option<usize>
    ensures { FindsIdle completions.now given_up.now result }
{
    for (index, mark) in given_up.iter().enumerate() {
        if *mark != 0 && !has_failed_at(completions, index) {
            return Some(index);
        }
    }
    None
}
