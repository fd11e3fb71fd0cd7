//! The stream of what was written to a portal, with the members of its batches from dumps of memory.

ghost use Rattle.std.specs.Prelude.{◌≡◌, ◌≤◌, ◌++◌, Some, None, Option, List, ℕ, option_map, length, if◌then◌else◌, IfOk, MatchOption, MatchResult};
ghost use Rattle.dsa_recording.specs.declared.dumps.StagingFault.TheVariants.{Memory};
ghost use Rattle.dsa_recording.specs.Dumps.{covers, part_of, bytes_at, with_members, stream_of, longest_stream, StagesStream, IsStagingFault, IsUnstaged};

use crate::entry::Header;
use dsa_descriptor::u64_at;
use std::alloc::{AllocError, Global};

/// The most bytes of a recording with the members of its batches.
pub const LONGEST_STREAM: usize = 67_108_864;

/// A dump of memory.
#[derive(Drop)]
pub struct Dump {
    /// The address of its first byte.
    pub address: u64,
    /// Its bytes.
    pub bytes: Vec<u8>,
}

/// Why a portal and dumps make no recording.
#[derive(Clone, Copy)]
pub enum StagingFault {
    /// The length of the portal is no multiple of 64.
    Length,
    /// No dump has all members of the batch whose descriptor is this entry of the portal.
    Unstaged(usize),
    /// With this entry of the portal and its members, the recording would be too long.
    TooLong(usize),
    /// An allocation failed.
    Memory,
}

impl From<AllocError> for StagingFault {
    ghost from_gives = { λ _ fault. fault ≡ Memory };

    fn from(_error: AllocError) -> StagingFault {
        StagingFault::Memory
    }
}

/// The bytes of a dump from the address on, where it has so many.
fn part_of(dump: &Dump, at: u64, size: u64) -> Option<&[u8]>
    ensures { option_map (λ part. part.now) result ≡
        (if covers at size dump.now then Some (part_of at size dump.now) else None) }
{
    if at < dump.address {
        return None;
    }
    let from = at - dump.address;
    let len = dump.bytes.len() as u64;
    if from > len || size > len - from {
        return None;
    }
    let (from, end) = (from as usize, (from + size) as usize);
    Some(&dump.bytes[from..end])
}

/// The bytes at the address, of the first dump that has so many there. No bytes need no dump.
fn bytes_at(dumps: &[Dump], at: u64, size: u64) -> Option<&[u8]>
    ensures { option_map (λ part. part.now) result ≡ bytes_at at size dumps.now }
{
    for dump in dumps {
        let part = part_of(dump, at, size);
        if part.is_some() {
            return part;
        }
    }
    if size == 0 { Some(&[]) } else { None }
}

/// The members of an entry, none where it is no batch, if some dump has all of them.
fn members_of<'a>(dumps: &'a [Dump], entry: &[u8; 64]) -> Option<&'a [u8]>
    ensures { option_map (λ part. entry.now ++ part.now) result ≡ with_members dumps.now entry.now }
{
    let header = Header::of(entry);
    if header.code != 1 {
        return Some(&[]);
    }
    bytes_at(dumps, u64_at(entry, 16), 64 * u64::from(header.size))
}

/// The entries of a portal with their members, or the first entry for which there are none.
fn staged_entries(alloc: Global, all: &[[u8; 64]], dumps: &[Dump]) -> Result<Vec<u8>, StagingFault>
    ensures { MatchResult result
        (λ bytes. (stream_of dumps.now all.now ≡ Some bytes.items)
        × (length bytes.items ≤ longest_stream))
        (IsUnstaged dumps.now all.now) }
{
    let mut bytes = Vec::new(alloc);
    for at in 0..all.len() {
        let Some(members) = members_of(dumps, &all[at]) else {
            return Err(StagingFault::Unstaged(at));
        };
        if all[at].len() + members.len() > LONGEST_STREAM - bytes.len() {
            return Err(StagingFault::TooLong(at));
        }
        bytes.extend_from_slice(&all[at])?;
        bytes.extend_from_slice(members)?;
    }
    Ok(bytes)
}

/// The recording of a portal: its entries, and after the descriptor of each batch its members, from the first dump that
/// has all of them at the batch's list address.
///
/// # Errors
/// [`StagingFault::Length`]; else for the first entry [`StagingFault::Unstaged`], a batch of which no dump has the members,
/// or [`StagingFault::TooLong`], with which there are more than 67,108,864 bytes; or [`StagingFault::Memory`].
pub fn stage(alloc: Global, portal: &[u8], dumps: &[Dump]) -> Result<Vec<u8>, StagingFault>
    ensures { MatchResult result (λ bytes. StagesStream dumps.now portal.now bytes.items)
        (IsStagingFault dumps.now portal.now) }
{
    let (all, rest) = portal.as_chunks::<64>();
    if !rest.is_empty() {
        return Err(StagingFault::Length);
    }
    staged_entries(alloc, all, dumps)
}
