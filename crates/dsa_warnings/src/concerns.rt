//! What is worth a warning about a piece by itself: a compare whose result does not stop all that comes after it, and a
//! move whose source and destination overlap.

ghost use Rattle.std.specs.Prelude.{◌≡◌};
ghost use Rattle.dsa_descriptor.specs.Profile.{checks_result};
ghost use Rattle.dsa_warnings.specs.Concerns.{check_concern, compare_concern, overlap_concern, overlaps};

use dsa_descriptor::{Descriptor, FlagWord, Op};

/// What is worth a warning about a piece.
#[derive(Clone, Copy, PartialEq, Eq)]
pub enum Concern {
    /// One of it and this earlier piece writes into the completion record of the other; of such pieces it is the last.
    SharedRecord(usize),
    /// It is a compare without check, and a barrier is after it.
    Unchecked,
    /// It is a compare with check, and the piece after it may begin before it has ended.
    Unguarded,
    /// It is a move whose source and destination overlap.
    Overlap,
}

/// Whether the flag "check result" is set.
fn is_checked(flags: FlagWord) -> bool
    ensures { result ≡ checks_result flags.0 }
{
    let check = FlagWord::CHECK_RESULT.0;
    flags.0 & check == check
}

/// Why the result of a compare does not stop all that comes after it, if so.
fn compare_concern(is_checked: bool, is_before_barrier: bool, goes_on: bool) -> Option<Concern>
    ensures { result ≡ compare_concern is_checked is_before_barrier goes_on }
{
    if is_checked {
        return if goes_on {
            Some(Concern::Unguarded)
        } else {
            None
        };
    }
    if is_before_barrier {
        Some(Concern::Unchecked)
    } else {
        None
    }
}

/// Why the result of an operation does not stop all that comes after it, if it is a compare: a barrier is after it, but
/// its result is not checked; or it is checked, but what comes after it goes on in the same epoch of a plan.
pub fn check_concern(d: &Descriptor, is_before_barrier: bool, goes_on: bool) -> Option<Concern>
    ensures { result ≡ check_concern d.now.op d.now.flags.0 is_before_barrier goes_on }
{
    match d.op {
        Op::Compare { .. } | Op::ComparePattern { .. } => {
            compare_concern(is_checked(d.flags), is_before_barrier, goes_on)
        }
        Op::Move { .. } => None,
        Op::Fill { .. } => None,
        Op::ApplyDelta { .. } => None,
        Op::Dualcast { .. } => None,
    }
}

/// Whether the source and the destination of an operation that moves so many bytes overlap.
pub fn overlaps(op: &Op, len: u64) -> bool
    ensures { result ≡ overlaps op.now len }
{
    match *op {
        Op::Move { src, dst } => src.saturating_sub(dst) < len && dst.saturating_sub(src) < len,
        Op::Fill { .. } => false,
        Op::Compare { .. } => false,
        Op::ComparePattern { .. } => false,
        Op::ApplyDelta { .. } => false,
        Op::Dualcast { .. } => false,
    }
}

/// That the source and the destination of a piece that is a move overlap, if they do.
pub(crate) fn overlap_concern(d: &Descriptor) -> Option<Concern>
    ensures { result ≡ overlap_concern d.now.op d.now.size }
{
    if overlaps(&d.op, u64::from(d.size)) {
        Some(Concern::Overlap)
    } else {
        None
    }
}
