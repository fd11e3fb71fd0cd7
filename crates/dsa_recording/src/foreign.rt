//! Entries that cannot be members of the batch after whose descriptor they are recorded.

ghost use Rattle.std.specs.Prelude.{◌≢◌, ◌↔◌, All, IfOk, IsTrue, MatchOption};
ghost use Rattle.dsa_recording.specs.Foreign.{HasForeign, HasOwnMembers, IsForeign, LacksMembers, LacksSome};
ghost use Rattle.dsa_recording.specs.Submissions.{IsWithin};

use crate::entry::Header;
use crate::stream::{StreamFault, Submission, read_stream};
use crate::submission::head_at;
use crate::words::privilege_text;
use dsa_descriptor::agree_on_owner;
use std::alloc::{AllocError, Global};

/// What to do if members of batches are lacking.
pub(crate) const STAGING_HINT: &str =
    "if members are not recorded, give a dump of them with --staging";

/// Such an entry, and the descriptor of the batch.
#[derive(Clone, Copy)]
pub(crate) struct Foreign {
    /// The number of the batch's descriptor.
    pub head: usize,
    /// The number of the entry.
    pub entry: usize,
    /// What the batch's descriptor says.
    pub batch: Header,
    /// What the entry says.
    pub member: Header,
}

/// The header of the entry of this number; that of zero bytes if there is none.
fn header_at(all: &[[u8; 64]], number: usize) -> Header {
    match all.get(number) {
        Some(entry) => Header::of(entry),
        None => Header::of(&[0; 64]),
    }
}

/// Whether an entry cannot be a member of the batch with this descriptor.
fn is_foreign(head: &[u8; 64], entry: &[u8; 64]) -> bool
    ensures { IsTrue result ↔ IsForeign head.now entry.now }
{
    if *entry == [0; 64] {
        return false;
    }
    if Header::of(entry).code == 1 {
        return true;
    }
    !agree_on_owner(head, entry)
}

/// The first entry of a submission that cannot be a member of it.
fn foreign_in(all: &[[u8; 64]], submission: Submission) -> Option<usize>
    requires { IsWithin all.now submission }
    ensures { MatchOption result (¬ HasForeign all.now submission)
        (λ _. HasForeign all.now submission) }
{
    let head = head_at(submission);
    for entry in submission.first..submission.first + submission.size {
        if is_foreign(&all[head], &all[entry]) {
            return Some(entry);
        }
    }
    None
}

/// The first entry of these submissions that cannot be a member.
fn first_foreign(all: &[[u8; 64]], submissions: &[Submission]) -> Option<Foreign>
    requires { All (IsWithin all.now) submissions.now }
    ensures { MatchOption result (¬ LacksSome all.now submissions.now)
        (λ _. LacksSome all.now submissions.now) }
{
    for submission in submissions {
        if let Some(entry) = foreign_in(all, *submission) {
            let head = head_at(*submission);
            return Some(Foreign {
                head,
                entry,
                batch: header_at(all, head),
                member: header_at(all, entry),
            });
        }
    }
    None
}

/// The first entry of a recording that cannot be a member of its batch. There is none if the bytes are no recording.
pub(crate) fn find_foreign(alloc: Global, bytes: &[u8]) -> Result<Option<Foreign>, AllocError>
    ensures { IfOk result
        (λ found. MatchOption found (HasOwnMembers bytes.now) (λ _. LacksMembers bytes.now)) }
{
    let (all, _) = bytes.as_chunks::<64>();
    match read_stream(alloc, bytes) {
        Ok(submissions) => Ok(first_foreign(all, &submissions)),
        Err(StreamFault::Memory) => Err(AllocError),
        Err(StreamFault::Length | StreamFault::CutOff(_)) => Ok(None),
    }
}

/// That an entry cannot be a member of its batch.
pub(crate) fn foreign_text(alloc: Global, foreign: Foreign) -> Result<String, AllocError> {
    let (head, entry) = (foreign.head, foreign.entry);
    let (batch, member) = (foreign.batch, foreign.member);
    let size = batch.size;
    if member.code == 1 {
        return format!(in alloc;
            "entry {entry}: error: a batch cannot be a member of the batch of {size} at entry {head}: {STAGING_HINT}\n"
        );
    }
    let (pasid, privilege) = (member.owner % (1 << 20), privilege_text(member.owner));
    let mut text = format!(in alloc;
        "entry {entry}: error: with PASID {pasid}{privilege} this cannot be a member of the batch of "
    )?;
    let (pasid, privilege) = (batch.owner % (1 << 20), privilege_text(batch.owner));
    text.push_str(&format!(in alloc;
        "{size} at entry {head}, which has PASID {pasid}{privilege}: {STAGING_HINT}\n"
    )?)?;
    Ok(text)
}
