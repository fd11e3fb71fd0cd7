//! Which members of a batch can fail.

ghost use Rattle.std.specs.Prelude.{◌≡◌, length, IfOk};
ghost use Rattle.dsa_descriptor.specs.Places.{flags_at, code_at, op_at};
ghost use Rattle.dsa_descriptor.specs.Profile.{checks_result};
ghost use Rattle.dsa_recording.specs.Furthers.{further_at};
ghost use Rattle.dsa_recording.specs.Failures.{can_further_fail, can_op_fail, can_fault, can_fail, AreFallible};

use crate::assumptions::Assumptions;
use crate::entry::Header;
use crate::further::{Further, further_at};
use bitflags::Flags;
use dsa_audit::Member;
use dsa_descriptor::{FlagWord, Op, op_at};
use std::alloc::{AllocError, Global};

/// Whether an operation beyond the six of a descriptor can fail by its result.
fn can_further_fail(entry: &[u8; 64], is_checked: bool) -> bool
    requires { is_checked ≡ checks_result (flags_at entry.now) }
    ensures { result ≡ can_further_fail (further_at entry.now) (flags_at entry.now) }
{
    match further_at(entry) {
        None => false,
        Some(Further::Checksum { .. } | Further::CacheFlush { .. }) => false,
        Some(Further::CreateDelta { .. }) => is_checked,
        Some(Further::DifCheck { .. } | Further::DifInsert { .. }) => true,
        Some(Further::DifStrip { .. } | Further::DifUpdate { .. }) => true,
        Some(Further::Drain | Further::TranslationFetch) => true,
    }
}

/// Whether the operation of an entry can fail by its result.
fn can_op_fail(entry: &[u8; 64]) -> bool
    ensures { result ≡ can_op_fail (op_at entry.now) (further_at entry.now) (flags_at entry.now) }
{
    let is_checked = Header::of(entry).flags.contains(FlagWord::CHECK_RESULT);
    match op_at(entry) {
        None => can_further_fail(entry, is_checked),
        Some(Op::Move { .. } | Op::Fill { .. } | Op::Dualcast { .. }) => false,
        Some(Op::Compare { .. } | Op::ComparePattern { .. }) => is_checked,
        Some(Op::ApplyDelta { .. }) => true,
    }
}

/// Whether an entry can end with a page fault: it has data, and does not wait for absent pages.
fn can_fault(resident: bool, entry: &[u8; 64]) -> bool
    ensures { result ≡ can_fault resident (code_at entry.now) (flags_at entry.now) }
{
    let header = Header::of(entry);
    let blocks = header.flags.contains(FlagWord::BLOCK_ON_FAULT);
    header.code != 0 && !resident && !blocks
}

/// Whether a member can fail, so that the next fence stops the rest of its batch: a compare that is checked, a delta, one
/// that can end with a page fault, or one that is not looked at.
pub fn can_fail(assumptions: Assumptions, member: &Member, entry: &[u8; 64]) -> bool
    ensures { result ≡ can_fail assumptions member.now entry.now }
{
    match member {
        Member::Known(_) => can_op_fail(entry) || can_fault(assumptions.resident, entry),
        Member::Unknown(_) => true,
    }
}

/// Of each member, whose entry is that of `entries`, whether it can fail.
pub(crate) fn fallible_of(
    alloc: Global,
    assumptions: Assumptions,
    members: &[Member],
    entries: &[[u8; 64]],
) -> Result<Vec<bool>, AllocError>
    requires { length members.now ≡ length entries.now }
    ensures { IfOk result
        (λ fallible. AreFallible assumptions members.now entries.now fallible.items) }
{
    let mut fallible = Vec::with_capacity(alloc, entries.len())?;
    for k in 0..entries.len() {
        fallible.push(can_fail(assumptions, &members[k], &entries[k]))?;
    }
    Ok(fallible)
}
