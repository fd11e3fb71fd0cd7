//! Writing a line.

ghost use Rattle.std.specs.Prelude.{◌≡◌, ◌++◌, ◌∷◌, ℕ, IfOk, OnOk, codes, decimal, string_bytes};
ghost use Rattle.dsa_descriptor.specs.declared.op.Op.TheVariants.{Move, Fill, Compare, ComparePattern, ApplyDelta, Dualcast};
ghost use Rattle.dsa_operations.specs.declared.checksum_op.ChecksumOp.TheVariants.{Crc, CopyCrc};
ghost use Rattle.dsa_operations.specs.OperationFields.{operation_fields};
ghost use Rattle.dsa_lines.specs.Numbers.{hex, pattern_word};
ghost use Rattle.dsa_lines.specs.Options.{carried_flags, writes_check};
ghost use Rattle.dsa_lines.specs.Text.{text_of, tail_text, spaced, op_words, checksum_words, seed_words, operation_words, later_words, number_option, name_option, line_text};
ghost use Rattle.dsa_lines.specs.Views.{view};

use crate::line::Line;
use crate::options::{CARRIED_FLAGS, CHECK_RESULT};
use dsa_descriptor::Op;
use dsa_operations::{ChecksumOp, ListedOp, Operation, Seed};
use std::alloc::{AllocError, Global};

/// The text of a move.
fn move_text(alloc: Global, src: u64, dst: u64, size: u32) -> Result<String, AllocError>
    ensures { IfOk result (λ s. string_bytes s ≡ text_of (op_words (Move src dst) size)) }
{
    format!(in alloc; "move 0x{src:x} -> 0x{dst:x}, {size} bytes")
}

/// The 16 digits of a pattern, the lowest byte first.
fn pattern_text(alloc: Global, pattern: u64) -> Result<String, AllocError>
    ensures { IfOk result (λ s. string_bytes s ≡ pattern_word pattern) }
{
    hex::encode(alloc, pattern.to_le_bytes())
}

/// Writes a pattern.
fn push_pattern(alloc: Global, line: &mut String, pattern: u64) -> Result<(), AllocError>
    ensures { OnOk result (string_bytes line.new ≡ string_bytes line.old ++ pattern_word pattern) }
{
    let text = pattern_text(alloc, pattern)?;
    line.push_str(&text)
}

/// Writes a size after a comma.
fn push_size(alloc: Global, line: &mut String, size: u32) -> Result<(), AllocError>
    ensures { OnOk result (string_bytes line.new ≡ string_bytes line.old ++
        (codes ", " ++ (decimal size ++ codes " bytes"))) }
{
    let text = format!(in alloc; ", {size} bytes")?;
    line.push_str(&text)
}

/// Writes the expected result of a comparison.
fn push_expected(alloc: Global, line: &mut String, expected: u8) -> Result<(), AllocError>
    ensures { OnOk result (string_bytes line.new ≡ string_bytes line.old ++
        (codes ", expect " ++ decimal expected)) }
{
    let text = format!(in alloc; ", expect {expected}")?;
    line.push_str(&text)
}

/// The text of a fill up to its pattern.
fn fill_front(alloc: Global, dst: u64) -> Result<String, AllocError>
    ensures { IfOk result (λ s. string_bytes s ≡ codes "fill " ++ (hex dst ++ codes " with ")) }
{
    format!(in alloc; "fill 0x{dst:x} with ")
}

/// The text of a fill.
fn fill_text(alloc: Global, pattern: u64, dst: u64, size: u32) -> Result<String, AllocError>
    ensures { IfOk result (λ s. string_bytes s ≡ text_of (op_words (Fill pattern dst) size)) }
{
    let mut line = fill_front(alloc, dst)?;
    push_pattern(alloc, &mut line, pattern)?;
    push_size(alloc, &mut line, size)?;
    Ok(line)
}

/// The text of a compare up to its size.
fn compare_front(alloc: Global, src: u64, src2: u64) -> Result<String, AllocError>
    ensures { IfOk result (λ s. string_bytes s ≡ codes "compare " ++
        (hex src ++ (codes " with " ++ hex src2))) }
{
    format!(in alloc; "compare 0x{src:x} with 0x{src2:x}")
}

/// The text of a compare.
fn compare_text(
    alloc: Global,
    src: u64,
    src2: u64,
    expected: u8,
    size: u32,
) -> Result<String, AllocError>
    ensures { IfOk result
        (λ s. string_bytes s ≡ text_of (op_words (Compare src src2 expected) size)) }
{
    let mut line = compare_front(alloc, src, src2)?;
    push_size(alloc, &mut line, size)?;
    push_expected(alloc, &mut line, expected)?;
    Ok(line)
}

/// The text of a compare with a pattern up to the pattern.
fn compare_pattern_front(alloc: Global, src: u64) -> Result<String, AllocError>
    ensures { IfOk result (λ s. string_bytes s ≡ codes "compare " ++
        (hex src ++ codes " with pattern ")) }
{
    format!(in alloc; "compare 0x{src:x} with pattern ")
}

/// The text of a compare with a pattern.
fn compare_pattern_text(
    alloc: Global,
    src: u64,
    pattern: u64,
    expected: u8,
    size: u32,
) -> Result<String, AllocError>
    ensures { IfOk result
        (λ s. string_bytes s ≡ text_of (op_words (ComparePattern src pattern expected) size)) }
{
    let mut line = compare_pattern_front(alloc, src)?;
    push_pattern(alloc, &mut line, pattern)?;
    push_size(alloc, &mut line, size)?;
    push_expected(alloc, &mut line, expected)?;
    Ok(line)
}

/// The text of a delta up to the size of its destination.
fn delta_front(alloc: Global, delta: u64, dst: u64, record_size: u32) -> Result<String, AllocError>
    ensures { IfOk result (λ s. string_bytes s ≡ codes "delta " ++
        (hex delta ++ (codes ", " ++ (decimal record_size ++ (codes " bytes -> " ++ hex dst))))) }
{
    format!(in alloc; "delta 0x{delta:x}, {record_size} bytes -> 0x{dst:x}")
}

/// The text of a delta.
fn delta_text(
    alloc: Global,
    delta: u64,
    dst: u64,
    record_size: u32,
    size: u32,
) -> Result<String, AllocError>
    ensures { IfOk result
        (λ s. string_bytes s ≡ text_of (op_words (ApplyDelta delta dst record_size) size)) }
{
    let mut line = delta_front(alloc, delta, dst, record_size)?;
    push_size(alloc, &mut line, size)?;
    Ok(line)
}

/// The text of a dualcast up to its size.
fn dualcast_front(alloc: Global, src: u64, dst: u64, dst2: u64) -> Result<String, AllocError>
    ensures { IfOk result (λ s. string_bytes s ≡ codes "dualcast " ++
        (hex src ++ (codes " -> " ++ (hex dst ++ (codes " and " ++ hex dst2))))) }
{
    format!(in alloc; "dualcast 0x{src:x} -> 0x{dst:x} and 0x{dst2:x}")
}

/// The text of a dualcast.
fn dualcast_text(
    alloc: Global,
    src: u64,
    dst: u64,
    dst2: u64,
    size: u32,
) -> Result<String, AllocError>
    ensures { IfOk result (λ s. string_bytes s ≡ text_of (op_words (Dualcast src dst dst2) size)) }
{
    let mut line = dualcast_front(alloc, src, dst, dst2)?;
    push_size(alloc, &mut line, size)?;
    Ok(line)
}

/// The operation and its size, as the line of a descriptor begins.
pub fn op_text(alloc: Global, op: &Op, size: u32) -> Result<String, AllocError>
    ensures { IfOk result (λ s. string_bytes s ≡ text_of (op_words op.now size)) }
{
    match *op {
        Op::Move { src, dst } => move_text(alloc, src, dst, size),
        Op::Fill { pattern, dst } => fill_text(alloc, pattern, dst, size),
        Op::Compare {
            src,
            src2,
            expected,
        } => compare_text(alloc, src, src2, expected, size),
        Op::ComparePattern {
            src,
            pattern,
            expected,
        } => compare_pattern_text(alloc, src, pattern, expected, size),
        Op::ApplyDelta {
            delta,
            dst,
            record_size,
        } => delta_text(alloc, delta, dst, record_size, size),
        Op::Dualcast { src, dst, dst2 } => dualcast_text(alloc, src, dst, dst2, size),
    }
}

/// Writes the seed of a checksum after a comma.
fn push_seed(alloc: Global, line: &mut String, seed: Seed) -> Result<(), AllocError>
    ensures { OnOk result (string_bytes line.new ≡ string_bytes line.old ++
        (codes ", " ++ text_of (seed_words seed))) }
{
    let text = match seed {
        Seed::Given(value) => format!(in alloc; ", seed 0x{value:x}")?,
        Seed::At(address) => format!(in alloc; ", seed at 0x{address:x}")?,
    };
    line.push_str(&text)
}

/// The text of a CRC generation up to its size.
fn crc_front(alloc: Global, src: u64) -> Result<String, AllocError>
    ensures { IfOk result (λ s. string_bytes s ≡ codes "crc " ++ hex src) }
{
    format!(in alloc; "crc 0x{src:x}")
}

/// The text of a CRC generation.
fn crc_text(alloc: Global, src: u64, seed: Seed, size: u32) -> Result<String, AllocError>
    ensures { IfOk result (λ s. string_bytes s ≡ text_of (checksum_words (Crc src seed) size)) }
{
    let mut line = crc_front(alloc, src)?;
    push_size(alloc, &mut line, size)?;
    push_seed(alloc, &mut line, seed)?;
    Ok(line)
}

/// The text of a copy with CRC up to its size.
fn copy_crc_front(alloc: Global, src: u64, dst: u64) -> Result<String, AllocError>
    ensures { IfOk result (λ s. string_bytes s ≡ codes "copy_crc " ++
        (hex src ++ (codes " -> " ++ hex dst))) }
{
    format!(in alloc; "copy_crc 0x{src:x} -> 0x{dst:x}")
}

/// The text of a copy with CRC.
fn copy_crc_text(
    alloc: Global,
    src: u64,
    dst: u64,
    seed: Seed,
    size: u32,
) -> Result<String, AllocError>
    ensures { IfOk result
        (λ s. string_bytes s ≡ text_of (checksum_words (CopyCrc src dst seed) size)) }
{
    let mut line = copy_crc_front(alloc, src, dst)?;
    push_size(alloc, &mut line, size)?;
    push_seed(alloc, &mut line, seed)?;
    Ok(line)
}

/// The operation of a checksum, its size and its seed.
fn checksum_text(alloc: Global, op: &ChecksumOp, size: u32) -> Result<String, AllocError>
    ensures { IfOk result (λ s. string_bytes s ≡ text_of (checksum_words op.now size)) }
{
    match *op {
        ChecksumOp::Crc { src, seed } => crc_text(alloc, src, seed, size),
        ChecksumOp::CopyCrc { src, dst, seed } => copy_crc_text(alloc, src, dst, seed, size),
    }
}

/// The operation and its size, as the line of these fields begins.
fn fields_text(alloc: Global, fields: &Line) -> Result<String, AllocError>
    ensures { IfOk result (λ s. string_bytes s ≡ text_of (operation_words (view fields.now))) }
{
    match &fields.op {
        ListedOp::Descriptor(op) => op_text(alloc, op, fields.size),
        ListedOp::Checksum(op) => checksum_text(alloc, op, fields.size),
    }
}

/// The operation and its size, as its line begins.
pub fn operation_text(alloc: Global, operation: &Operation) -> Result<String, AllocError>
    ensures { IfOk result (λ s. string_bytes s ≡
        text_of (operation_words (operation_fields operation.now))) }
{
    fields_text(alloc, &Line::of(operation))
}

/// Writes the address of the record.
pub(crate) fn push_record(
    alloc: Global,
    line: &mut String,
    record_at: u64,
) -> Result<(), AllocError>
    ensures { OnOk result (string_bytes line.new ≡ string_bytes line.old ++
        (codes ", record " ++ hex record_at)) }
{
    let text = format!(in alloc; ", record 0x{record_at:x}")?;
    line.push_str(&text)
}

/// An option and its number.
fn number_text(alloc: Global, name: &str, number: u32) -> Result<String, AllocError>
    ensures { IfOk result (λ s. string_bytes s ≡ codes ", " ++
        (name.now ++ (codes " " ++ decimal number))) }
{
    format!(in alloc; ", {name} {number}")
}

/// Writes an option and its number, if that is not 0.
fn push_number(alloc: Global, line: &mut String, name: &str, number: u32) -> Result<(), AllocError>
    requires { spaced name.now ≡ 32 ∷ name.now }
    ensures { OnOk result (string_bytes line.new ≡ string_bytes line.old ++
        tail_text (number_option name.now number)) }
{
    if number == 0 {
        return Ok(());
    }
    let text = number_text(alloc, name, number)?;
    line.push_str(&text)
}

/// Writes an option that is only a name, if it is set.
fn push_name(alloc: Global, line: &mut String, name: &str, stands: bool) -> Result<(), AllocError>
    requires { spaced name.now ≡ 32 ∷ name.now }
    ensures { OnOk result (string_bytes line.new ≡ string_bytes line.old ++
        tail_text (name_option name.now stands)) }
{
    if !stands {
        return Ok(());
    }
    let text = format!(in alloc; ", {name}")?;
    line.push_str(&text)
}

/// Writes the record and the options.
fn push_later(
    alloc: Global,
    line: &mut String,
    record_at: u64,
    pasid: u32,
    privileged: bool,
    flags: u32,
    int_handle: u16,
) -> Result<(), AllocError>
    ensures { OnOk result (string_bytes line.new ≡ string_bytes line.old ++
        tail_text (later_words record_at pasid privileged flags int_handle)) }
{
    push_record(alloc, line, record_at)?;
    push_number(alloc, line, "pasid", pasid)?;
    push_name(alloc, line, "privileged", privileged)?;
    push_name(alloc, line, "check", flags & CHECK_RESULT != 0)?;
    push_number(alloc, line, "flags", flags & CARRIED_FLAGS)?;
    push_number(alloc, line, "handle", u32::from(int_handle))
}

/// The canonical line of fields, with no newline. It spells them if a list may have them
/// ([`canonical_line_spells`](crate::canonical_line_spells)); they need not be those of a listed operation.
pub fn line_of_fields(alloc: Global, fields: &Line) -> Result<String, AllocError>
    ensures { IfOk result (λ s. string_bytes s ≡ line_text (view fields.now)) }
{
    let mut line = fields_text(alloc, fields)?;
    push_later(
        alloc,
        &mut line,
        fields.record_at,
        fields.pasid,
        fields.privileged,
        fields.flags,
        fields.int_handle,
    )?;
    Ok(line)
}

/// The canonical line of an operation, with no newline.
pub fn line_of(alloc: Global, operation: &Operation) -> Result<String, AllocError>
    ensures { IfOk result (λ s. string_bytes s ≡ line_text (operation_fields operation.now)) }
{
    line_of_fields(alloc, &Line::of(operation))
}
