//! Operations beyond the six of a descriptor: what they read and write, and their names.

ghost use Rattle.std.specs.Prelude.{◌≡◌, ◌≤◌};
ghost use Rattle.dsa_recording.specs.Furthers.{first_data, second_data, drain_at, create_delta_at, block_at, insert_at, has_whole_fields, on_fields, strip_at, other_at, further_at, read_by, written_by, code_name};

use crate::entry::Header;
use arrayvec::ArrayVec;
use dsa_descriptor::{Span, one_span, two_spans, u32_at, u64_at};
use dsa_operations::{ChecksumOp, checksum_at};

/// An operation beyond the six of a descriptor, with all that it reads and writes beside its completion record.
#[derive(Clone, Copy)]
pub enum Further {
    /// Waits for earlier descriptors; in a batch the device refuses it.
    Drain,
    /// Writes how two sources differ.
    CreateDelta {
        /// The first source.
        first: Span,
        /// The second.
        second: Span,
        /// Where the delta is written, up to its greatest size.
        delta: Span,
    },
    /// Fetches translations of addresses.
    TranslationFetch,
    /// Makes a checksum.
    Checksum {
        /// With a copy or without.
        op: ChecksumOp,
        /// Of how many bytes.
        size: u32,
    },
    /// Checks data integrity fields.
    DifCheck {
        /// Blocks with their fields.
        src: Span,
    },
    /// Copies blocks, and inserts their fields.
    DifInsert {
        /// Blocks without fields.
        src: Span,
        /// Blocks with their fields.
        dst: Span,
    },
    /// Checks fields, and copies the blocks without them.
    DifStrip {
        /// Blocks with their fields.
        src: Span,
        /// Blocks without fields.
        dst: Span,
    },
    /// Checks fields, and copies the blocks with others.
    DifUpdate {
        /// Blocks with their fields.
        src: Span,
        /// Blocks with other fields.
        dst: Span,
    },
    /// Flushes caches.
    CacheFlush {
        /// What is flushed.
        flushed: Span,
    },
}

impl Further {
    /// What the operation reads.
    pub fn sources(&self) -> ArrayVec<Span, 2>
        ensures { result.items ≡ read_by self.now }
    {
        match *self {
            Further::Drain | Further::TranslationFetch => ArrayVec::new(),
            Further::CreateDelta { first, second, .. } => two_spans(first, second),
            Further::Checksum { op, size } => op.sources(size),
            Further::DifCheck { src } | Further::DifInsert { src, .. } => one_span(src),
            Further::DifStrip { src, .. } | Further::DifUpdate { src, .. } => one_span(src),
            Further::CacheFlush { flushed } => one_span(flushed),
        }
    }

    /// What the operation writes, beside its completion record.
    pub fn targets(&self) -> ArrayVec<Span, 2>
        ensures { result.items ≡ written_by self.now }
    {
        match *self {
            Further::Drain | Further::TranslationFetch => ArrayVec::new(),
            Further::DifCheck { .. } | Further::CacheFlush { .. } => ArrayVec::new(),
            Further::CreateDelta { delta, .. } => one_span(delta),
            Further::Checksum { op, size } => op.targets(size),
            Further::DifInsert { dst, .. } => one_span(dst),
            Further::DifStrip { dst, .. } | Further::DifUpdate { dst, .. } => one_span(dst),
        }
    }
}

/// The first data of an entry.
fn first_data(entry: &[u8; 64]) -> Span
    ensures { result ≡ first_data entry.now }
{
    Span::of(u64_at(entry, 16), Header::of(entry).size)
}

/// The second data of an entry.
fn second_data(entry: &[u8; 64]) -> Span
    ensures { result ≡ second_data entry.now }
{
    Span::of(u64_at(entry, 24), Header::of(entry).size)
}

/// The operation of a drain, if it reads no address back.
fn drain_at(entry: &[u8; 64]) -> Option<Further>
    ensures { result ≡ drain_at entry.now }
{
    if Header::of(entry).flags.0 >> 16 == 0 {
        Some(Further::Drain)
    } else {
        None
    }
}

/// That of an entry that creates a delta.
fn create_delta_at(entry: &[u8; 64]) -> Further
    ensures { result ≡ create_delta_at entry.now }
{
    Further::CreateDelta {
        first: first_data(entry),
        second: second_data(entry),
        delta: Span::of(u64_at(entry, 40), u32_at(entry, 48)),
    }
}

/// The data bytes of a block with a data integrity field.
fn block_at(entry: &[u8; 64]) -> u32
    ensures is { result ≡ block_at entry.now }
    ensures some { 512 ≤ result }
    ensures few { result ≤ 4104 }
{
    let bits = entry[42] % 4;
    if bits == 0 {
        512
    } else if bits == 1 {
        520
    } else if bits == 2 {
        4096
    } else {
        4104
    }
}

/// Whether the source has whole blocks with their fields.
fn has_whole_fields(entry: &[u8; 64]) -> bool
    ensures { result ≡ has_whole_fields entry.now }
{
    Header::of(entry).size % (block_at(entry) + 8) == 0
}

/// The operation of an entry that inserts fields, if its source has whole blocks.
fn insert_at(entry: &[u8; 64]) -> Option<Further>
    ensures { result ≡ insert_at entry.now }
{
    let (size, block) = (Header::of(entry).size, block_at(entry));
    if size % block != 0 {
        return None;
    }
    let written = u64::from(size) + 8 * u64::from(size / block);
    Some(Further::DifInsert {
        src: first_data(entry),
        dst: Span {
            first: u64_at(entry, 24),
            len: written,
        },
    })
}

/// That of an entry that strips fields off.
fn strip_at(entry: &[u8; 64]) -> Further
    ensures { result ≡ strip_at entry.now }
{
    let size = Header::of(entry).size;
    let fields = 8 * (size / (block_at(entry) + 8));
    Further::DifStrip {
        src: first_data(entry),
        dst: Span::of(u64_at(entry, 24), size - fields),
    }
}

/// An operation on sources with fields, if these are whole.
fn on_fields(entry: &[u8; 64], further: Further) -> Option<Further>
    ensures { result ≡ on_fields entry.now further }
{
    if has_whole_fields(entry) {
        Some(further)
    } else {
        None
    }
}

/// The operation of an entry, if it is none of a descriptor and no checksum, and what it reads and writes is certain.
#[tactic(auto, unfolding(crate::specs::Furthers::other_at))]
fn other_at(entry: &[u8; 64]) -> Option<Further>
    ensures { result ≡ other_at entry.now }
{
    let (first, second) = (first_data(entry), second_data(entry));
    match Header::of(entry).code {
        0x02 => drain_at(entry),
        0x07 => Some(create_delta_at(entry)),
        0x0a => Some(Further::TranslationFetch),
        0x12 => on_fields(entry, Further::DifCheck { src: first }),
        0x13 => insert_at(entry),
        0x14 => on_fields(entry, strip_at(entry)),
        0x15 => on_fields(
            entry,
            Further::DifUpdate {
                src: first,
                dst: second,
            },
        ),
        0x20 => Some(Further::CacheFlush { flushed: second }),
        _ => None,
    }
}

/// The operation of an entry, if it is none of a descriptor, and what it reads and writes is certain.
#[tactic(auto, unfolding(crate::specs::Furthers::further_at))]
pub fn further_at(entry: &[u8; 64]) -> Option<Further>
    ensures { result ≡ further_at entry.now }
{
    match checksum_at(entry) {
        Some(op) => Some(Further::Checksum {
            op,
            size: Header::of(entry).size,
        }),
        None => other_at(entry),
    }
}

/// The name of an operation code beyond the six of a descriptor; else nothing.
pub fn code_name(code: u8) -> &'static str
    ensures { result.now ≡ code_name code }
{
    match code {
        0x00 => "no-op",
        0x02 => "drain",
        0x07 => "create delta",
        0x0a => "translation fetch",
        0x10 => "CRC",
        0x11 => "copy with CRC",
        0x12 => "DIF check",
        0x13 => "DIF insert",
        0x14 => "DIF strip",
        0x15 => "DIF update",
        0x17 => "DIX generate",
        0x20 => "cache flush",
        _ => "",
    }
}
