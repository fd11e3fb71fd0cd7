//! Short names, as they are in pictures.

use dsa_descriptor::Op;
use dsa_ranges::HazardKind;

/// The name of an operation that no comment names.
pub fn op_name(op: &Op) -> &'static str {
    match op {
        Op::Move { .. } => "move",
        Op::Fill { .. } => "fill",
        Op::Compare { .. } => "compare",
        Op::ComparePattern { .. } => "compare pattern",
        Op::ApplyDelta { .. } => "delta",
        Op::Dualcast { .. } => "dualcast",
    }
}

/// The short name of a kind of hazard.
pub fn hazard_name(kind: HazardKind) -> &'static str {
    match kind {
        HazardKind::ReadAfterWrite => "RAW",
        HazardKind::WriteAfterRead => "WAR",
        HazardKind::WriteAfterWrite => "WAW",
    }
}
