//! Of which members of a batch software can see that they have ended.

ghost use Rattle.std.specs.Prelude.{◌≡◌, length, IfOk};
ghost use Rattle.dsa_descriptor.specs.Places.{op_at};
ghost use Rattle.dsa_recording.specs.Furthers.{further_at};
ghost use Rattle.dsa_recording.specs.Showing.{is_copy, writes_further, asks_interrupt, has_record, requests_record, writes_record, is_signal, writes_data, can_write, is_awaited_whole, is_marker, shows_beside_batch, can_show, AreVisible};

use crate::assumptions::{Assumptions, Await};
use crate::entry::{Header, RECORD_REQUESTED};
use crate::failure::can_fail;
use crate::further::{Further, further_at};
use bitflags::Flags;
use dsa_audit::Member;
use dsa_descriptor::{FlagWord, Op, op_at};
use dsa_operations::ChecksumOp;
use std::alloc::{AllocError, Global};

/// Whether the device raises an interrupt when the descriptor has ended.
fn asks_interrupt(flags: FlagWord) -> bool
    ensures { result ≡ asks_interrupt flags.0 }
{
    flags.contains(FlagWord::REQUEST_INTERRUPT)
}

/// Whether the descriptor requests a completion record.
fn requests_record(flags: FlagWord) -> bool
    ensures { result ≡ requests_record flags.0 }
{
    flags.contains(RECORD_REQUESTED)
}

/// Whether a member can write its record: it requests it, or can fail and has one.
fn writes_record(assumptions: Assumptions, member: &Member, entry: &[u8; 64]) -> bool
    ensures { result ≡ writes_record assumptions member.now entry.now }
{
    let flags = Header::of(entry).flags;
    let is_written = requests_record(flags) || can_fail(assumptions, member, entry);
    flags.contains(FlagWord::RECORD_VALID) && is_written
}

/// Whether a member raises an interrupt, or can write its record.
fn is_signal(assumptions: Assumptions, member: &Member, entry: &[u8; 64]) -> bool
    ensures { result ≡ is_signal assumptions member.now entry.now }
{
    asks_interrupt(Header::of(entry).flags) || writes_record(assumptions, member, entry)
}

/// Whether a checksum copies what it is of.
fn is_copy(op: ChecksumOp) -> bool
    ensures { result ≡ is_copy op }
{
    match op {
        ChecksumOp::Crc { .. } => false,
        ChecksumOp::CopyCrc { .. } => true,
    }
}

/// Whether an operation beyond the six of a descriptor writes data.
fn writes_further(entry: &[u8; 64]) -> bool
    ensures { result ≡ writes_further (further_at entry.now) }
{
    match further_at(entry) {
        None => false,
        Some(Further::Drain | Further::TranslationFetch | Further::CacheFlush { .. }) => false,
        Some(Further::DifCheck { .. }) => false,
        Some(Further::Checksum { op, .. }) => is_copy(op),
        Some(Further::CreateDelta { .. }) => true,
        Some(Further::DifInsert { .. } | Further::DifStrip { .. }) => true,
        Some(Further::DifUpdate { .. }) => true,
    }
}

/// Whether the operation of an entry writes data.
fn writes_data(entry: &[u8; 64]) -> bool
    ensures { result ≡ writes_data (op_at entry.now) (further_at entry.now) }
{
    match op_at(entry) {
        None => writes_further(entry),
        Some(Op::Compare { .. } | Op::ComparePattern { .. }) => false,
        Some(Op::Move { .. } | Op::Fill { .. }) => true,
        Some(Op::ApplyDelta { .. } | Op::Dualcast { .. }) => true,
    }
}

/// Whether a member may write data.
fn can_write(member: &Member, entry: &[u8; 64]) -> bool
    ensures { result ≡ can_write member.now entry.now }
{
    match member {
        Member::Known(_) => writes_data(entry),
        Member::Unknown(_) => true,
    }
}

/// Whether software can await the batch of this descriptor as a whole.
fn is_awaited_whole(head: &[u8; 64]) -> bool
    ensures { result ≡ is_awaited_whole head.now }
{
    let flags = Header::of(head).flags;
    asks_interrupt(flags) || requests_record(flags)
}

/// Whether software sees the end of a member beside that of its batch: by an interrupt, or the record of a no-op.
fn shows_beside_batch(assumptions: Assumptions, member: &Member, entry: &[u8; 64]) -> bool
    ensures { result ≡ shows_beside_batch assumptions member.now entry.now }
{
    let Header { code, flags, .. } = Header::of(entry);
    let is_marker = code == 0 || code == 1;
    asks_interrupt(flags) || is_marker && writes_record(assumptions, member, entry)
}

/// Whether software can see that a member has ended, whose batch has the descriptor `head`.
pub fn can_show(
    assumptions: Assumptions,
    head: &[u8; 64],
    member: &Member,
    entry: &[u8; 64],
) -> bool
    ensures { result ≡ can_show assumptions head.now member.now entry.now }
{
    match assumptions.awaited {
        Await::Writes => is_signal(assumptions, member, entry) || can_write(member, entry),
        Await::Signals => is_signal(assumptions, member, entry),
        Await::Batches => {
            if is_awaited_whole(head) {
                shows_beside_batch(assumptions, member, entry)
            } else {
                is_signal(assumptions, member, entry)
            }
        }
    }
}

/// Of each member, whose entry is that of `entries`, whether software can see that it has ended.
pub(crate) fn visible_of(
    alloc: Global,
    assumptions: Assumptions,
    head: &[u8; 64],
    members: &[Member],
    entries: &[[u8; 64]],
) -> Result<Vec<bool>, AllocError>
    requires { length members.now ≡ length entries.now }
    ensures { IfOk result
        (λ visible. AreVisible assumptions head.now members.now entries.now visible.items) }
{
    let mut visible = Vec::with_capacity(alloc, entries.len())?;
    for k in 0..entries.len() {
        visible.push(can_show(assumptions, head, &members[k], &entries[k]))?;
    }
    Ok(visible)
}
