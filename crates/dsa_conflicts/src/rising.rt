//! Whether the data of the pieces rises with them, as in most lists: one pass, without a table.

ghost use Rattle.std.specs.Prelude.{map, IsTrue};
ghost use Rattle.dsa_descriptor.specs.Descriptors.{fields};
ghost use Rattle.dsa_conflicts.specs.Spread.{NoneConflict};

use dsa_descriptor::{Descriptor, RECORD_LEN, data_at};

/// Whether the data of the pieces rises, and so do their records, on one side of all data: true only if no two pieces
/// conflict. A piece's data lies after that of all earlier pieces, or its two ranges go on in two areas: the lower one
/// is below `bound` and ends at `middle` so far, the upper one begins at `bound` and ends at `high`.
pub(crate) fn are_rising(pieces: &[Descriptor]) -> bool
    ensures { IsTrue result → NoneConflict (map fields pieces.now) }
{
    let (mut low, mut middle, mut bound, mut high) = (u64::MAX, 0u64, 0u64, 0u64);
    let (mut from, mut to) = (u64::MAX, 0u64);
    for d in pieces {
        let Some((p, q)) = data_at(&d.op) else {
            return false;
        };
        let (first, second) = (p.min(q), p.max(q));
        let Some(second_end) = second.checked_add(u64::from(d.size)) else {
            return false;
        };
        let Some(record_end) = d.record_at.checked_add(RECORD_LEN) else {
            return false;
        };
        let first_end = first + u64::from(d.size);
        if first >= high {
            bound = second;
        } else if first < middle || first_end > bound || second < high {
            return false;
        }
        if d.record_at < to {
            return false;
        }
        low = low.min(first);
        middle = first_end.min(bound);
        high = second_end;
        from = from.min(d.record_at);
        to = record_end;
    }
    to <= low || high <= from
}
