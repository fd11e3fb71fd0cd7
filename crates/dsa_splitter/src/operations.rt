//! What differs by operation: how its data addresses move up, in which order its pieces are done, and which may be
//! split.

ghost use Rattle.std.specs.Prelude.{◌≡◌, ◌↔◌, ◌≤◌, true, IsTrue};
ghost use Rattle.dsa_descriptor.specs.Profile.{checks_result};
ghost use Rattle.dsa_image.specs.Lines.{runs_down};
ghost use Rattle.dsa_splitter.specs.Operations.{
  moved_up,
  CanMoveUp,
  op_runs_down,
  IsSplittable,
  ExpectedFits,
};

use dsa_descriptor::{Descriptor, FlagWord, Op};

/// The operation with all its data addresses moved up.
pub(crate) fn moved_up(op: &Op, by: u64) -> Op
    requires { CanMoveUp by op.now }
    ensures { result ≡ moved_up by op.now }
{
    match *op {
        Op::Move { src, dst } => Op::Move {
            src: src + by,
            dst: dst + by,
        },
        Op::Fill { pattern, dst } => Op::Fill {
            pattern,
            dst: dst + by,
        },
        Op::Compare {
            src,
            src2,
            expected,
        } => Op::Compare {
            src: src + by,
            src2: src2 + by,
            expected,
        },
        Op::ComparePattern {
            src,
            pattern,
            expected,
        } => Op::ComparePattern {
            src: src + by,
            pattern,
            expected,
        },
        Op::ApplyDelta {
            delta,
            dst,
            record_size,
        } => Op::ApplyDelta {
            delta: delta + by,
            dst: dst + by,
            record_size,
        },
        Op::Dualcast { src, dst, dst2 } => Op::Dualcast {
            src: src + by,
            dst: dst + by,
            dst2: dst2 + by,
        },
    }
}

/// Whether the destination of a move begins inside its source, and not with it.
#[tactic(auto, unfolding(dsa_image::specs::Lines::runs_down))]
fn is_inside(src: u64, dst: u64, size: u32) -> bool
    ensures { result ≡ runs_down src dst size }
{
    u128::from(src) < u128::from(dst) && u128::from(dst) < u128::from(src) + u128::from(size)
}

/// Whether the pieces are done from the highest offset down: a move whose destination begins inside its source.
pub(crate) fn is_done_down(d: &Descriptor) -> bool
    ensures { result ≡ op_runs_down d.now.op d.now.size }
{
    match d.op {
        Op::Move { src, dst } => is_inside(src, dst, d.size),
        Op::Fill { .. } => false,
        Op::Compare { .. } => false,
        Op::ComparePattern { .. } => false,
        Op::ApplyDelta { .. } => false,
        Op::Dualcast { .. } => false,
    }
}

/// Whether the operation is no delta that needs a second piece.
pub(crate) fn is_splittable(d: &Descriptor, greatest: u64) -> bool
    ensures { IsTrue result ↔ IsSplittable d.now.op d.now.size greatest }
{
    match d.op {
        Op::ApplyDelta { .. } => u64::from(d.size) <= greatest,
        Op::Move { .. } => true,
        Op::Fill { .. } => true,
        Op::Compare { .. } | Op::ComparePattern { .. } => true,
        Op::Dualcast { .. } => true,
    }
}

/// Whether the flag "check result" is set.
fn checks_result(flags: FlagWord) -> bool
    ensures { result ≡ checks_result flags.0 }
{
    let check = FlagWord::CHECK_RESULT.0;
    flags.0 & check == check
}

/// Whether a compare of these fields does not check for an expected difference, or needs no second piece.
fn compare_fits(flags: FlagWord, expected: u8, size: u32, greatest: u64) -> bool
    ensures { IsTrue result ↔ (checks_result flags.0 ≡ true → expected ≡ 1 → size ≤ greatest) }
{
    if expected != 1 {
        return true;
    }
    if !checks_result(flags) {
        return true;
    }
    u64::from(size) <= greatest
}

/// Whether the operation is not a compare that checks for an expected difference and needs a second piece.
pub(crate) fn expected_fits(d: &Descriptor, greatest: u64) -> bool
    ensures { IsTrue result ↔ ExpectedFits d.now.op d.now.flags.0 d.now.size greatest }
{
    match d.op {
        Op::Compare { expected, .. } | Op::ComparePattern { expected, .. } => {
            compare_fits(d.flags, expected, d.size, greatest)
        }
        Op::Move { .. } => true,
        Op::Fill { .. } => true,
        Op::ApplyDelta { .. } => true,
        Op::Dualcast { .. } => true,
    }
}
