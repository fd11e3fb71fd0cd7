//! The operations that make a checksum.

ghost use Rattle.std.specs.Prelude.{◌≡◌, ◌++◌, ◌↔◌, IsTrue};
ghost use Rattle.std.specs.List.{AllByRecursion};
ghost use Rattle.dsa_descriptor.specs.declared.span.Span.{Span};
ghost use Rattle.dsa_descriptor.specs.Spans.{ApartFrom, IsAddressable};

use arrayvec::ArrayVec;
use dsa_descriptor::{Span, are_addressable, one_span, record_span, two_spans};
use dsa_ranges::meets_some;

/// How many bytes a seed in memory has.
const SEED_LEN: u32 = 4;

/// The value that a checksum goes on from.
#[derive(Clone, Copy)]
pub enum Seed {
    /// This value, which bytes 40 to 43 of the descriptor have.
    Given(u32),
    /// The four bytes at this address are read; bytes 48 to 55 have the address.
    At(u64),
}

/// An operation that makes a checksum, with the fields that belong to it. Addresses are of bytes.
#[derive(Clone, Copy)]
pub enum ChecksumOp {
    /// Makes the checksum of the bytes at `src`.
    Crc { src: u64, seed: Seed },
    /// Makes the checksum of the bytes at `src`, and copies them to `dst`.
    CopyCrc { src: u64, dst: u64, seed: Seed },
}

/// Whether the span meets none of the spans.
pub(crate) fn is_apart_from(span: Span, spans: &[Span]) -> bool
    ensures { IsTrue result ↔ ApartFrom span spans.now }
{
    !meets_some(span, spans)
}

/// All regions of both.
pub(crate) fn both(first: ArrayVec<Span, 2>, second: ArrayVec<Span, 2>) -> ArrayVec<Span, 4>
    ensures { result.items ≡ first.items ++ second.items }
{
    let mut spans = ArrayVec::new();
    spans.try_extend_from_slice(first.as_slice()).unwrap();
    spans.try_extend_from_slice(second.as_slice()).unwrap();
    spans
}

impl Seed {
    ghost use Rattle.dsa_operations.specs.Operands.{given_value, seed_address};

    /// The value, or 0 if it is read from memory.
    fn given_value(self) -> u32
        ensures { result ≡ given_value self }
    {
        match self {
            Seed::Given(value) => value,
            Seed::At(_) => 0,
        }
    }

    /// The address from which it is read, or 0 if it is given.
    fn address(self) -> u64
        ensures { result ≡ seed_address self }
    {
        match self {
            Seed::Given(_) => 0,
            Seed::At(address) => address,
        }
    }
}

impl ChecksumOp {
    ghost use Rattle.dsa_descriptor.specs.Data.{record_span};
    ghost use Rattle.dsa_operations.specs.Data.{data_of, sources, targets};
    ghost use Rattle.dsa_operations.specs.Operands.{address_field, code_of, destination_field, given_field, seed_of, source_field};
    ghost use Rattle.dsa_operations.specs.Profile.{RegionsApart};

    /// The operation code, byte 7 of a descriptor (`enum dsa_opcode` of `linux/idxd.h`).
    pub(crate) fn code(&self) -> u8
        ensures { result ≡ code_of self.now }
    {
        match self {
            ChecksumOp::Crc { .. } => 0x10,
            ChecksumOp::CopyCrc { .. } => 0x11,
        }
    }

    /// The seed.
    pub fn seed(&self) -> Seed
        ensures { result ≡ seed_of self.now }
    {
        match *self {
            ChecksumOp::Crc { seed, .. } | ChecksumOp::CopyCrc { seed, .. } => seed,
        }
    }

    /// The address of the source, bytes 16 to 23 of a descriptor.
    pub fn source_field(&self) -> u64
        ensures { result ≡ source_field self.now }
    {
        match *self {
            ChecksumOp::Crc { src, .. } | ChecksumOp::CopyCrc { src, .. } => src,
        }
    }

    /// The address of the destination, bytes 24 to 31 of a descriptor, or 0 if there is none.
    pub(crate) fn destination_field(&self) -> u64
        ensures { result ≡ destination_field self.now }
    {
        match *self {
            ChecksumOp::Crc { .. } => 0,
            ChecksumOp::CopyCrc { dst, .. } => dst,
        }
    }

    /// The seed's value, bytes 40 to 43 of a descriptor, or 0 if it is read from memory.
    pub(crate) fn given_field(&self) -> u32
        ensures { result ≡ given_field self.now }
    {
        self.seed().given_value()
    }

    /// The seed's address, bytes 48 to 55 of a descriptor, or 0 if the value is given.
    pub(crate) fn address_field(&self) -> u64
        ensures { result ≡ address_field self.now }
    {
        self.seed().address()
    }

    /// What the operation reads.
    pub fn sources(&self, size: u32) -> ArrayVec<Span, 2>
        ensures { result.items ≡ sources self.now size }
    {
        let source = Span::of(self.source_field(), size);
        match self.seed() {
            Seed::Given(_) => one_span(source),
            Seed::At(address) => two_spans(source, Span::of(address, SEED_LEN)),
        }
    }

    /// What the operation writes, beside its completion record.
    pub fn targets(&self, size: u32) -> ArrayVec<Span, 2>
        ensures { result.items ≡ targets self.now size }
    {
        match *self {
            ChecksumOp::Crc { .. } => ArrayVec::new(),
            ChecksumOp::CopyCrc { dst, .. } => one_span(Span::of(dst, size)),
        }
    }

    /// All data of the operation.
    pub(crate) fn data(&self, size: u32) -> ArrayVec<Span, 4>
        ensures { result.items ≡ data_of self.now size }
    {
        both(self.sources(size), self.targets(size))
    }

    /// Whether the data doesn't go past 2^64.
    pub(crate) fn is_addressable(&self, size: u32) -> bool
        ensures { IsTrue result ↔ AllByRecursion IsAddressable (data_of self.now size) }
    {
        are_addressable(&self.data(size))
    }

    /// Whether the destination, if there is one, lies apart from what is read.
    pub(crate) fn has_regions_apart(&self, size: u32) -> bool
        ensures { IsTrue result ↔ RegionsApart self.now size }
    {
        match *self {
            ChecksumOp::Crc { .. } => true,
            ChecksumOp::CopyCrc { dst, .. } => {
                is_apart_from(Span::of(dst, size), &self.sources(size))
            }
        }
    }

    /// Whether the data lies apart from the record.
    pub(crate) fn is_apart_from_record(&self, size: u32, record_at: u64) -> bool
        ensures { IsTrue result ↔ ApartFrom (record_span record_at) (data_of self.now size) }
    {
        is_apart_from(record_span(record_at), &self.data(size))
    }
}
