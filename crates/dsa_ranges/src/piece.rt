//! What a plan arranges.

ghost use Rattle.std.specs.Prelude.{◌≡◌, ℕ, List};
ghost use Rattle.dsa_descriptor.specs.declared.span.Span.{Span};
ghost use Rattle.dsa_descriptor.specs.Descriptors.{fields};
ghost use Rattle.dsa_ranges.specs.Pieces.{ConflictAsTouched, DescriptorConflictAt, reads_of, writes_of};

use crate::span::Touched;
use arrayvec::ArrayVec;
use dsa_descriptor::{Descriptor, Entry, record_span};

/// Something that reads and writes memory.
pub trait Touching {
    /// What it reads.
    ghost reads: { Self → List Span };

    /// What it writes, its completion record included.
    ghost writes: { Self → List Span };

    /// Those at two places of a list conflict.
    ghost conflict: { List Self → ℕ → ℕ → Type 0 };

    /// Two conflict exactly if one writes an address that the other reads or writes.
    fn conflict_as_touched()
        ensures { ConflictAsTouched reads writes conflict };

    /// What it reads and writes.
    fn touched_spans(&self) -> Touched
        ensures reads { result.reads.items ≡ reads self.now }
        ensures writes { result.writes.items ≡ writes self.now };
}

/// An entry of a list that a plan may have: what it reads and writes, and how long it is.
pub trait Piece: Entry + Touching {
    /// Its transfer size.
    ghost size: { Self → ℕ };

    /// Its transfer size in bytes.
    fn transfer_size(&self) -> u32
        ensures { result ≡ size self.now };
}

impl Touching for Descriptor {
    ghost reads = { reads_of };

    ghost writes = { writes_of };

    ghost conflict = { DescriptorConflictAt };

    fn conflict_as_touched() {}

    fn touched_spans(&self) -> Touched {
        let (sources, targets) = (self.op.sources(self.size), self.op.targets(self.size));
        let (mut reads, mut writes) = (ArrayVec::new(), ArrayVec::new());
        reads.try_extend_from_slice(sources.as_slice()).unwrap();
        writes.push(record_span(self.record_at));
        writes.try_extend_from_slice(targets.as_slice()).unwrap();
        Touched { reads, writes }
    }
}

impl Piece for Descriptor {
    ghost size = { λ d. d.size };

    #[inline(always)]
    fn transfer_size(&self) -> u32 {
        self.size
    }
}
