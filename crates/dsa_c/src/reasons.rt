//! Why a plan has its fences and its groups, as C lays it out.

ghost use Rattle.std.specs.Prelude.{◌≡◌, ◌≢◌, IfOk, length, slice_index_or, take};
ghost use Rattle.dsa_c.specs.Raw.{written};
ghost use Rattle.dsa_c.specs.Reasons.{conflict_in, hazard_number, kind_in, raw_reason_of, raw_reasons, record_in, record_number, sentence_of, with_conflict};

use crate::texts::put_front;
use dsa_operations::Operation;
use dsa_ranges::{Hazard, HazardKind};
use dsa_reasons::{Fence, NamedConflict, Reason, first_conflict, sentence_text};
use std::alloc::{AllocError, Global};

/// `struct dsa_reason`: why a piece is fenced, or why a group begins with it.
#[repr(C)]
#[derive(Clone, Copy)]
pub struct RawReason {
    /// The piece.
    pub piece: u64,
    /// The number of its group.
    pub group: u64,
    /// The earlier piece of the first conflict that this fence or beginning alone separates; 0 if there is none.
    pub earlier: u64,
    /// The later piece.
    pub later: u64,
    /// The address where the two conflict.
    pub address: u64,
    /// How many more conflicts it alone separates.
    pub more: u64,
    /// The mark of the piece: 1 if a group begins with it, and 2 more if it is fenced.
    pub mark: u32,
    /// 1 if a barrier is before the piece, else 0.
    pub barrier: u32,
    /// The hazard of the conflict, 1 to 3; 0 if there is no conflict.
    pub hazard: u32,
    /// 1 if the address is in the completion record of the earlier piece, 2 if in that of the later, else 0.
    pub in_record: u32,
}

/// The number of a hazard.
fn hazard_number(kind: HazardKind) -> u32
    ensures { result ≡ hazard_number kind }
{
    match kind {
        HazardKind::ReadAfterWrite => 1,
        HazardKind::WriteAfterRead => 2,
        HazardKind::WriteAfterWrite => 3,
    }
}

/// The hazard of a number.
fn kind_in(hazard: u32) -> Option<HazardKind>
    ensures { result ≡ kind_in hazard }
{
    if hazard == 1 {
        return Some(HazardKind::ReadAfterWrite);
    }
    if hazard == 2 {
        return Some(HazardKind::WriteAfterRead);
    }
    if hazard == 3 {
        return Some(HazardKind::WriteAfterWrite);
    }
    None
}

/// The number that says whose completion record has the address of a conflict.
fn record_number(conflict: &NamedConflict) -> u32
    ensures { result ≡ record_number conflict.now.reason.earlier conflict.now.record_of }
{
    match conflict.record_of {
        Some(piece) => {
            if piece == conflict.reason.earlier {
                1
            } else {
                2
            }
        }
        None => 0,
    }
}

/// The piece whose completion record has the address.
fn record_in(raw: &RawReason) -> Option<usize>
    ensures { result ≡ record_in raw.now }
{
    if raw.in_record == 1 {
        return Some(raw.earlier as usize);
    }
    if raw.in_record == 2 {
        return Some(raw.later as usize);
    }
    None
}

/// The conflict that a reason has, if it has one.
fn conflict_in(raw: &RawReason) -> Option<NamedConflict>
    ensures { result ≡ conflict_in raw.now }
{
    match kind_in(raw.hazard) {
        Some(kind) => Some(NamedConflict {
            reason: Reason {
                earlier: raw.earlier as usize,
                later: raw.later as usize,
                hazard: Hazard {
                    address: raw.address,
                    kind,
                },
            },
            record_of: record_in(raw),
        }),
        None => None,
    }
}

/// The reason with this conflict.
fn with_conflict(raw: RawReason, conflict: Option<NamedConflict>) -> RawReason
    ensures { result ≡ with_conflict raw conflict }
{
    match conflict {
        Some(conflict) => RawReason {
            earlier: conflict.reason.earlier as u64,
            later: conflict.reason.later as u64,
            address: conflict.reason.hazard.address,
            hazard: hazard_number(conflict.reason.hazard.kind),
            in_record: record_number(&conflict),
            ..raw
        },
        None => raw,
    }
}

/// What a fence says of a piece of this mark in this group.
fn raw_reason(pieces: &[Operation], group: u64, mark: u8, fence: &Fence) -> RawReason
    ensures { result ≡ raw_reason_of pieces.now group mark fence.now }
{
    let bare = RawReason {
        piece: fence.piece as u64,
        group,
        earlier: 0,
        later: 0,
        address: 0,
        more: fence.more as u64,
        mark: u32::from(mark),
        barrier: if fence.barrier { 1 } else { 0 },
        hazard: 0,
        in_record: 0,
    };
    with_conflict(bare, first_conflict(pieces, fence))
}

/// The mark of a piece; 0 if it has none.
fn mark_at(marks: &[u8], piece: usize) -> u8
    ensures { result ≡ slice_index_or marks.now piece 0 }
{
    if piece < marks.len() { marks[piece] } else { 0 }
}

/// What the fences say of pieces with these marks, as C lays it out. Groups are counted from 0 on.
pub(crate) fn raw_reasons(
    alloc: Global,
    pieces: &[Operation],
    marks: &[u8],
    fences: &[Fence],
) -> Result<Vec<RawReason>, AllocError>
    ensures { IfOk result
        (λ reasons. reasons.items ≡ raw_reasons pieces.now marks.now 0 fences.now) }
{
    let mut reasons = Vec::with_capacity(alloc, fences.len())?;
    let mut group: u64 = 0;
    for fence in fences {
        let mark = mark_at(marks, fence.piece);
        group += u64::from(mark % 2);
        reasons.push(raw_reason(pieces, group, mark, fence))?;
    }
    Ok(reasons)
}

/// Writes what a reason says, in the words of `dsa_text explain`, to the front of `text`, as far as there is room, and
/// leaves the rest of it. It returns how many bytes the sentence has; 0, and then `text` is unchanged, if an allocation
/// failed.
#[unsafe(no_mangle)]
pub extern "C" fn dsa_reason_text(alloc: Global, reason: &RawReason, text: &mut [u8]) -> u64
    ensures len { result ≢ 0 → result ≡ length (sentence_of reason.now) }
    ensures written { result ≢ 0 →
        text.new ≡ written (take (length text.old) (sentence_of reason.now)) text.old }
    ensures unchanged { result ≡ 0 → text.new ≡ text.old }
{
    let (conflict, more) = (conflict_in(reason), reason.more as usize);
    let Ok(said) = sentence_text(alloc, reason.barrier != 0, conflict, more) else {
        return 0;
    };
    let bytes = said.as_bytes();
    put_front(text, bytes);
    bytes.len() as u64
}
