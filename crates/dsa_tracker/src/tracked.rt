//! Pieces that a tracker keeps.

ghost use Rattle.std.specs.Prelude.{◌≡◌, ◌^◌, ◌≤◌, [], ◌∷◌, drop, length, take};
ghost use Rattle.dsa_descriptor.specs.Spans.{IsAddressable};
ghost use Rattle.dsa_tracker.specs.declared.owner.Owner.{Owner};
ghost use Rattle.dsa_tracker.specs.Calls.{AreAddressable, operation_owner, owner_of};

use crate::owner::Owner;
use arrayvec::ArrayVec;
use dsa_descriptor::{Descriptor, Span, record_span};
use dsa_operations::Operation;
use dsa_ranges::Piece;

/// A piece that a submission may have. It reads at most two spans, and writes its completion record and at most two
/// others, all within 2^64.
pub trait Tracked: Piece {
    /// Whose addresses it names.
    ghost owner: { Self → Owner };

    /// So few fit into memory that the number of their spans fits into a word, and so does that of their staging bytes.
    fn are_few(pieces: &[Self])
        ensures { length pieces.now ≤ 2 ^ 57 };

    /// Whose addresses it names.
    fn named_owner(&self) -> Owner
        ensures { result ≡ owner self.now };

    /// What it reads.
    fn sources(&self) -> ArrayVec<Span, 2>
        ensures value { result.items ≡ Self.reads self.now }
        ensures addressable { AreAddressable result.items };

    /// What it writes after its completion record.
    fn targets(&self) -> ArrayVec<Span, 2>
        ensures value { result.items ≡ drop 1 (Self.writes self.now) }
        ensures addressable { AreAddressable result.items };

    /// Its completion record, the first span that it writes.
    fn completion_record(&self) -> Span
        ensures value { take 1 (Self.writes self.now) ≡ result ∷ [] }
        ensures addressable { IsAddressable result };
}

impl Tracked for Descriptor {
    ghost owner = { owner_of };

    fn are_few(_pieces: &[Self]) {}

    #[inline(always)]
    fn named_owner(&self) -> Owner {
        Owner {
            pasid: self.pasid,
            privileged: self.privileged,
        }
    }

    #[inline(always)]
    fn sources(&self) -> ArrayVec<Span, 2> {
        self.op.sources(self.size)
    }

    #[inline(always)]
    fn targets(&self) -> ArrayVec<Span, 2> {
        self.op.targets(self.size)
    }

    #[inline(always)]
    fn completion_record(&self) -> Span {
        record_span(self.record_at)
    }
}

impl Tracked for Operation {
    ghost owner = { operation_owner };

    fn are_few(_pieces: &[Self]) {}

    #[inline(always)]
    fn named_owner(&self) -> Owner {
        match self {
            Operation::Descriptor(descriptor) => descriptor.named_owner(),
            Operation::Checksum(checksum) => Owner {
                pasid: checksum.pasid,
                privileged: checksum.privileged,
            },
        }
    }

    #[inline(always)]
    fn sources(&self) -> ArrayVec<Span, 2> {
        match self {
            Operation::Descriptor(descriptor) => descriptor.sources(),
            Operation::Checksum(checksum) => checksum.op.sources(checksum.size),
        }
    }

    #[inline(always)]
    fn targets(&self) -> ArrayVec<Span, 2> {
        match self {
            Operation::Descriptor(descriptor) => descriptor.targets(),
            Operation::Checksum(checksum) => checksum.op.targets(checksum.size),
        }
    }

    #[inline(always)]
    fn completion_record(&self) -> Span {
        match self {
            Operation::Descriptor(descriptor) => descriptor.completion_record(),
            Operation::Checksum(checksum) => record_span(checksum.record_at),
        }
    }
}
