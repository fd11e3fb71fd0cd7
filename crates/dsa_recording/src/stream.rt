//! The submissions of a recording.

ghost use Rattle.std.specs.Prelude.{◌≡◌, ◌≢◌, ◌⊎◌, ◌<◌, ◌≤◌, List, length, IfOk, IfErr, MatchOption, MatchResult};
ghost use Rattle.dsa_recording.specs.declared.stream.Submission.{Submission};
ghost use Rattle.dsa_recording.specs.declared.stream.StreamFault.{StreamFault};
ghost use Rattle.dsa_recording.specs.declared.stream.StreamFault.TheVariants.{Memory};
ghost use Rattle.dsa_recording.specs.Streams.{submission_at, end_of, ReadsUpTo, ReadsStream, IsStreamFault, IsStop};

use crate::entry::Header;
use std::alloc::{AllocError, AllocFailed, Global};

/// A submission of a recording: a batch or a lone descriptor.
#[derive(Clone, Copy)]
pub struct Submission {
    /// The entry of its first member, or of the lone descriptor.
    pub first: usize,
    /// How many members it has; 1 for a lone descriptor.
    pub size: usize,
    /// Whether it is a batch; its descriptor is then the entry before the first member.
    pub is_batch: bool,
}

/// Why bytes are no recording.
#[derive(Clone, Copy)]
pub enum StreamFault {
    /// The length is no multiple of 64.
    Length,
    /// The recording ends within the batch whose descriptor is this entry.
    CutOff(usize),
    /// An allocation failed.
    Memory,
}

impl From<AllocError> for StreamFault {
    ghost from_gives = { λ _ fault. fault ≡ Memory };

    fn from(_error: AllocError) -> StreamFault {
        StreamFault::Memory
    }
}

impl<T: Drop> From<AllocFailed<T>> for StreamFault {
    ghost from_gives = { λ _ fault. fault ≡ Memory };

    fn from(_error: AllocFailed<T>) -> StreamFault {
        StreamFault::Memory
    }
}

/// The submission that begins with the entry, where all of its members are there.
#[tactic(auto, unfolding(crate::specs::Streams::submission_at))]
pub(crate) fn submission_at(all: &[[u8; 64]], at: usize) -> Option<Submission>
    requires { at < length all.now }
    ensures { MatchOption result (length all.now < end_of (submission_at all.now at))
        (λ s. (s ≡ submission_at all.now at) × (at < end_of s) × (end_of s ≤ length all.now)) }
{
    let header = Header::of(&all[at]);
    if header.code != 1 {
        return Some(Submission {
            first: at,
            size: 1,
            is_batch: false,
        });
    }
    let size = header.size as usize;
    if size > all.len() - (at + 1) {
        return None;
    }
    Some(Submission {
        first: at + 1,
        size,
        is_batch: true,
    })
}

/// The submissions of entries, or the first batch that is cut off.
fn submissions_of(alloc: Global, all: &[[u8; 64]]) -> Result<Vec<Submission>, StreamFault>
    ensures ok { IfOk result (λ list. ReadsUpTo all.now 0 list.items (length all.now)) }
    ensures err { IfErr result (IsStop all.now) }
{
    let mut list = Vec::new(alloc);
    let mut at = 0;
    while at < all.len() {
        let Some(submission) = submission_at(all, at) else {
            return Err(StreamFault::CutOff(at));
        };
        list.push(submission)?;
        at = submission.first + submission.size;
    }
    Ok(list)
}

/// The submissions of a recording: entries of 64 bytes in the order of submission, and after the descriptor of a batch
/// its members.
///
/// # Errors
/// [`StreamFault::Length`], else [`StreamFault::CutOff`] with the entry of the batch that is cut off; or
/// [`StreamFault::Memory`].
pub fn read_stream(alloc: Global, bytes: &[u8]) -> Result<Vec<Submission>, StreamFault>
    ensures answer { MatchResult result
        (λ list. ReadsStream bytes.now list.items) (IsStreamFault bytes.now) }
    ensures only { (list : List Submission) → ReadsStream bytes.now list →
        MatchResult result (λ found. found.items ≡ list) (λ fault. fault ≡ Memory) }
    ensures refused { (fault : StreamFault) → fault ≢ Memory → IsStreamFault bytes.now fault →
        MatchResult result (λ _. ⊥) (λ other. (other ≡ fault) ⊎ (other ≡ Memory)) }
{
    let (all, rest) = bytes.as_chunks::<64>();
    if !rest.is_empty() {
        return Err(StreamFault::Length);
    }
    submissions_of(alloc, all)
}
