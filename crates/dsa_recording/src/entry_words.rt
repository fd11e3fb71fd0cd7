//! The words of an entry of a recording.

ghost use Rattle.std.specs.Prelude.{◌≡◌, ◌++◌, IfOk, OnOk, codes, string_bytes};
ghost use Rattle.dsa_descriptor.specs.Places.{code_at};
ghost use Rattle.dsa_recording.specs.Furthers.{code_name};
ghost use Rattle.dsa_recording.specs.EntryWords.{batch_words, bytes_words, checksum_words, copy_words, create_words, data_words, descriptor_words, further_words, in_brackets, operation_words, other_words, seed_words};

use crate::entry::Header;
use crate::further::{Further, code_name, further_at};
use dsa_descriptor::{Span, op_at, u64_at};
use dsa_lines::op_text;
use dsa_operations::{ChecksumOp, Seed};
use std::alloc::{AllocError, Global};

/// A number of bytes.
pub fn bytes_text(alloc: Global, bytes: u64) -> Result<String, AllocError>
    ensures { IfOk result (λ s. string_bytes s ≡ bytes_words bytes) }
{
    let name = if bytes == 1 { " byte" } else { " bytes" };
    format!(in alloc; "{bytes}{name}")
}

/// The name of an operation, where its data are, and how many.
fn data_text(alloc: Global, name: &str, span: Span) -> Result<String, AllocError>
    ensures { IfOk result (λ s. string_bytes s ≡ name.now ++ data_words span) }
{
    let (first, len) = (span.first, span.len);
    format!(in alloc; "{name}0x{first:x}, {len} bytes")
}

/// The name of an operation, from where to where it copies, and the size of its source.
fn copy_text(alloc: Global, name: &str, src: Span, dst: Span) -> Result<String, AllocError>
    ensures { IfOk result (λ s. string_bytes s ≡ name.now ++ copy_words src dst) }
{
    let (from, to, len) = (src.first, dst.first, src.len);
    format!(in alloc; "{name}0x{from:x} -> 0x{to:x}, {len} bytes")
}

/// What the creation of a delta does.
fn create_text(alloc: Global, first: Span, second: Span, delta: Span) -> Result<String, AllocError>
    ensures { IfOk result (λ s. string_bytes s ≡ create_words first second delta) }
{
    let (src, src2, to, len) = (first.first, second.first, delta.first, first.len);
    format!(in alloc; "create delta 0x{src:x} with 0x{src2:x} -> 0x{to:x}, {len} bytes")
}

/// Writes where the seed of a checksum is, if it is in memory.
fn push_seed(alloc: Global, text: &mut String, seed: Seed) -> Result<(), AllocError>
    ensures { OnOk result (string_bytes text.new ≡ string_bytes text.old ++ seed_words seed) }
{
    match seed {
        Seed::At(address) => text.push_str(&format!(in alloc; ", seed at 0x{address:x}")?),
        Seed::Given(_) => Ok(()),
    }
}

/// What a checksum is of.
fn crc_text(alloc: Global, src: Span, seed: Seed) -> Result<String, AllocError>
    ensures { IfOk result (λ s. string_bytes s ≡ codes "CRC " ++
        (data_words src ++ seed_words seed)) }
{
    let mut text = data_text(alloc, "CRC ", src)?;
    push_seed(alloc, &mut text, seed)?;
    Ok(text)
}

/// What a copy with a checksum does.
fn copy_crc_text(alloc: Global, src: Span, dst: Span, seed: Seed) -> Result<String, AllocError>
    ensures { IfOk result (λ s. string_bytes s ≡ codes "copy with CRC " ++
        (copy_words src dst ++ seed_words seed)) }
{
    let mut text = copy_text(alloc, "copy with CRC ", src, dst)?;
    push_seed(alloc, &mut text, seed)?;
    Ok(text)
}

/// What an operation that makes a checksum does.
fn checksum_text(alloc: Global, op: ChecksumOp, size: u32) -> Result<String, AllocError>
    ensures { IfOk result (λ s. string_bytes s ≡ checksum_words op size) }
{
    match op {
        ChecksumOp::Crc { src, seed } => crc_text(alloc, Span::of(src, size), seed),
        ChecksumOp::CopyCrc { src, dst, seed } => copy_crc_text(
            alloc,
            Span::of(src, size),
            Span::of(dst, size),
            seed,
        ),
    }
}

/// What an operation beyond the six of a descriptor does.
fn further_text(alloc: Global, further: Further) -> Result<String, AllocError>
    ensures { IfOk result (λ s. string_bytes s ≡ further_words further) }
{
    match further {
        Further::Drain => String::from_str(alloc, "drain"),
        Further::CreateDelta {
            first,
            second,
            delta,
        } => create_text(alloc, first, second, delta),
        Further::TranslationFetch => String::from_str(alloc, "translation fetch"),
        Further::Checksum { op, size } => checksum_text(alloc, op, size),
        Further::DifCheck { src } => data_text(alloc, "DIF check ", src),
        Further::DifInsert { src, dst } => copy_text(alloc, "DIF insert ", src, dst),
        Further::DifStrip { src, dst } => copy_text(alloc, "DIF strip ", src, dst),
        Further::DifUpdate { src, dst } => copy_text(alloc, "DIF update ", src, dst),
        Further::CacheFlush { flushed } => data_text(alloc, "cache flush ", flushed),
    }
}

/// What the descriptor of a batch says.
fn batch_text(alloc: Global, entry: &[u8; 64]) -> Result<String, AllocError>
    ensures { IfOk result (λ s. string_bytes s ≡ batch_words entry.now) }
{
    let (size, list) = (Header::of(entry).size, u64_at(entry, 16));
    format!(in alloc; "batch of {size} at 0x{list:x}")
}

/// The name of an operation code in brackets, if it has one.
fn in_brackets(alloc: Global, code: u8) -> Result<String, AllocError>
    ensures { IfOk result (λ s. string_bytes s ≡ in_brackets (code_name code)) }
{
    let name = code_name(code);
    if name.is_empty() {
        return Ok(String::new(alloc));
    }
    format!(in alloc; " ({name})")
}

/// An operation by its code, and its name if it has one.
pub(crate) fn operation_text(alloc: Global, code: u8) -> Result<String, AllocError>
    ensures { IfOk result (λ s. string_bytes s ≡ operation_words code) }
{
    let name = in_brackets(alloc, code)?;
    format!(in alloc; "operation 0x{code:x}{name}")
}

/// What an entry does whose operation is a no-op, a batch, or not known.
fn other_text(alloc: Global, entry: &[u8; 64]) -> Result<String, AllocError>
    ensures { IfOk result (λ s. string_bytes s ≡ other_words entry.now) }
{
    let code = Header::of(entry).code;
    match code {
        0 => String::from_str(alloc, "no-op"),
        1 => batch_text(alloc, entry),
        _ => operation_text(alloc, code),
    }
}

/// What an entry does: its operation, with its operands.
pub fn descriptor_text(alloc: Global, entry: &[u8; 64]) -> Result<String, AllocError>
    ensures { IfOk result (λ s. string_bytes s ≡ descriptor_words entry.now) }
{
    if let Some(op) = op_at(entry) {
        return op_text(alloc, &op, Header::of(entry).size);
    }
    match further_at(entry) {
        Some(further) => further_text(alloc, further),
        None => other_text(alloc, entry),
    }
}
