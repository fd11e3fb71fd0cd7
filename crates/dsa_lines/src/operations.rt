//! Reading the operation of a line.

ghost use Rattle.std.specs.Prelude.{codes};
ghost use Rattle.dsa_lines.specs.Words.{words_of};
ghost use Rattle.dsa_lines.specs.Grammar.{Gives, after, size_at, move_at, fill_at, expected_at, compare_region_at, compare_pattern_at, compare_at, delta_at, dualcast_at, seed_address_at, seed_by, seed_value_at, seed_at, crc_at, copy_crc_at, op_at};

use crate::fault::{Expected, Stop};
use crate::reading::{after, count_at, named, number_at, pattern_at};
use crate::words::next_word;
use dsa_descriptor::Op;
use dsa_operations::{ChecksumOp, ListedOp, Seed};

/// A size in bytes, and what comes after it.
#[tactic(auto, unfolding(crate::specs::Grammar::size_at))]
fn size_at(text: &[u8]) -> Result<(u32, &[u8]), Stop>
    ensures { Gives (λ x. (x.0, words_of x.1.now)) result (size_at (words_of text.now)) }
{
    let (size, rest) = count_at(text)?;
    let rest = after(rest, b"bytes", Expected::Bytes)?;
    Ok((size as u32, rest))
}

/// A move, after its name.
#[tactic(auto, unfolding(crate::specs::Grammar::move_at))]
fn move_at(text: &[u8]) -> Result<(ListedOp, u32, &[u8]), Stop>
    ensures { Gives (λ x. (x.0, x.1, words_of x.2.now)) result (move_at (words_of text.now)) }
{
    let (src, rest) = number_at(text, u64::MAX, Expected::Number)?;
    let rest = after(rest, b"->", Expected::Arrow)?;
    let (dst, rest) = number_at(rest, u64::MAX, Expected::Number)?;
    let rest = after(rest, b",", Expected::Comma)?;
    let (size, rest) = size_at(rest)?;
    Ok((ListedOp::Descriptor(Op::Move { src, dst }), size, rest))
}

/// A fill, after its name.
#[tactic(auto, unfolding(crate::specs::Grammar::fill_at))]
fn fill_at(text: &[u8]) -> Result<(ListedOp, u32, &[u8]), Stop>
    ensures { Gives (λ x. (x.0, x.1, words_of x.2.now)) result (fill_at (words_of text.now)) }
{
    let (dst, rest) = number_at(text, u64::MAX, Expected::Number)?;
    let rest = after(rest, b"with", Expected::With)?;
    let (pattern, rest) = pattern_at(rest)?;
    let rest = after(rest, b",", Expected::Comma)?;
    let (size, rest) = size_at(rest)?;
    let op = Op::Fill { pattern, dst };
    Ok((ListedOp::Descriptor(op), size, rest))
}

/// The size and the expected result of a comparison.
#[tactic(auto, unfolding(crate::specs::Grammar::expected_at))]
fn expected_at(text: &[u8]) -> Result<(u32, u8, &[u8]), Stop>
    ensures { Gives (λ x. (x.0, x.1, words_of x.2.now)) result (expected_at (words_of text.now)) }
{
    let rest = after(text, b",", Expected::Comma)?;
    let (size, rest) = size_at(rest)?;
    let rest = named(rest, b"expect", Expected::Expect)?;
    let (bit, rest) = number_at(rest, 1, Expected::Bit)?;
    Ok((size, bit as u8, rest))
}

/// A comparison with a second region.
#[tactic(auto, unfolding(crate::specs::Grammar::compare_region_at))]
fn compare_region_at(src: u64, text: &[u8]) -> Result<(ListedOp, u32, &[u8]), Stop>
    ensures { Gives
        (λ x. (x.0, x.1, words_of x.2.now)) result (compare_region_at src (words_of text.now)) }
{
    let (src2, rest) = number_at(text, u64::MAX, Expected::NumberOrPattern)?;
    let (size, expected, rest) = expected_at(rest)?;
    let op = Op::Compare {
        src,
        src2,
        expected,
    };
    Ok((ListedOp::Descriptor(op), size, rest))
}

/// A comparison with a pattern, after the word `pattern`.
#[tactic(auto, unfolding(crate::specs::Grammar::compare_pattern_at))]
fn compare_pattern_at(src: u64, text: &[u8]) -> Result<(ListedOp, u32, &[u8]), Stop>
    ensures { Gives
        (λ x. (x.0, x.1, words_of x.2.now)) result (compare_pattern_at src (words_of text.now)) }
{
    let (pattern, rest) = pattern_at(text)?;
    let (size, expected, rest) = expected_at(rest)?;
    let op = Op::ComparePattern {
        src,
        pattern,
        expected,
    };
    Ok((ListedOp::Descriptor(op), size, rest))
}

/// A comparison, after its name.
#[tactic(auto, unfolding(crate::specs::Grammar::compare_at))]
fn compare_at(text: &[u8]) -> Result<(ListedOp, u32, &[u8]), Stop>
    ensures { Gives (λ x. (x.0, x.1, words_of x.2.now)) result (compare_at (words_of text.now)) }
{
    let (src, rest) = number_at(text, u64::MAX, Expected::Number)?;
    let rest = after(rest, b"with", Expected::With)?;
    match after(rest, b"pattern", Expected::NumberOrPattern) {
        Ok(pattern) => compare_pattern_at(src, pattern),
        Err(_) => compare_region_at(src, rest),
    }
}

/// A delta, after its name.
#[tactic(auto, unfolding(crate::specs::Grammar::delta_at))]
fn delta_at(text: &[u8]) -> Result<(ListedOp, u32, &[u8]), Stop>
    ensures { Gives (λ x. (x.0, x.1, words_of x.2.now)) result (delta_at (words_of text.now)) }
{
    let (delta, rest) = number_at(text, u64::MAX, Expected::Number)?;
    let rest = after(rest, b",", Expected::Comma)?;
    let (record_size, rest) = size_at(rest)?;
    let rest = after(rest, b"->", Expected::Arrow)?;
    let (dst, rest) = number_at(rest, u64::MAX, Expected::Number)?;
    let rest = after(rest, b",", Expected::Comma)?;
    let (size, rest) = size_at(rest)?;
    let op = Op::ApplyDelta {
        delta,
        dst,
        record_size,
    };
    Ok((ListedOp::Descriptor(op), size, rest))
}

/// A dualcast, after its name.
#[tactic(auto, unfolding(crate::specs::Grammar::dualcast_at))]
fn dualcast_at(text: &[u8]) -> Result<(ListedOp, u32, &[u8]), Stop>
    ensures { Gives (λ x. (x.0, x.1, words_of x.2.now)) result (dualcast_at (words_of text.now)) }
{
    let (src, rest) = number_at(text, u64::MAX, Expected::Number)?;
    let rest = after(rest, b"->", Expected::Arrow)?;
    let (dst, rest) = number_at(rest, u64::MAX, Expected::Number)?;
    let rest = after(rest, b"and", Expected::And)?;
    let (dst2, rest) = number_at(rest, u64::MAX, Expected::Number)?;
    let rest = after(rest, b",", Expected::Comma)?;
    let (size, rest) = size_at(rest)?;
    let op = Op::Dualcast { src, dst, dst2 };
    Ok((ListedOp::Descriptor(op), size, rest))
}

/// The value of a seed.
fn seed_value_at(text: &[u8]) -> Result<(Seed, &[u8]), Stop>
    ensures { Gives (λ x. (x.0, words_of x.1.now)) result (seed_value_at (words_of text.now)) }
{
    let (value, rest) = number_at(text, 0xffff_ffff, Expected::Seed)?;
    Ok((Seed::Given(value as u32), rest))
}

/// The address of a seed, after the word `at`.
fn seed_address_at(text: &[u8]) -> Result<(Seed, &[u8]), Stop>
    ensures { Gives (λ x. (x.0, words_of x.1.now)) result (seed_address_at (words_of text.now)) }
{
    let (address, rest) = number_at(text, u64::MAX, Expected::Number)?;
    Ok((Seed::At(address), rest))
}

/// A seed, after its name.
fn seed_after_name(text: &[u8]) -> Result<(Seed, &[u8]), Stop>
    ensures { Gives (λ x. (x.0, words_of x.1.now)) result
        (seed_by (words_of text.now) (after (codes "at") (words_of text.now))) }
{
    match after(text, b"at", Expected::Seed) {
        Ok(address) => seed_address_at(address),
        Err(_) => seed_value_at(text),
    }
}

/// The seed of a checksum: 0, if it is left out.
#[tactic(auto, unfolding(crate::specs::Grammar::seed_at))]
fn seed_at(text: &[u8]) -> Result<(Seed, &[u8]), Stop>
    ensures { Gives (λ x. (x.0, words_of x.1.now)) result (seed_at (words_of text.now)) }
{
    match named(text, b"seed", Expected::Seed) {
        Ok(seed) => seed_after_name(seed),
        Err(_) => Ok((Seed::Given(0), text)),
    }
}

/// A CRC generation, after its name.
#[tactic(auto, unfolding(crate::specs::Grammar::crc_at))]
fn crc_at(text: &[u8]) -> Result<(ListedOp, u32, &[u8]), Stop>
    ensures { Gives (λ x. (x.0, x.1, words_of x.2.now)) result (crc_at (words_of text.now)) }
{
    let (src, rest) = number_at(text, u64::MAX, Expected::Number)?;
    let rest = after(rest, b",", Expected::Comma)?;
    let (size, rest) = size_at(rest)?;
    let (seed, rest) = seed_at(rest)?;
    Ok((
        ListedOp::Checksum(ChecksumOp::Crc { src, seed }),
        size,
        rest,
    ))
}

/// A copy with CRC, after its name.
#[tactic(auto, unfolding(crate::specs::Grammar::copy_crc_at))]
fn copy_crc_at(text: &[u8]) -> Result<(ListedOp, u32, &[u8]), Stop>
    ensures { Gives (λ x. (x.0, x.1, words_of x.2.now)) result (copy_crc_at (words_of text.now)) }
{
    let (src, rest) = number_at(text, u64::MAX, Expected::Number)?;
    let rest = after(rest, b"->", Expected::Arrow)?;
    let (dst, rest) = number_at(rest, u64::MAX, Expected::Number)?;
    let rest = after(rest, b",", Expected::Comma)?;
    let (size, rest) = size_at(rest)?;
    let (seed, rest) = seed_at(rest)?;
    let op = ChecksumOp::CopyCrc { src, dst, seed };
    Ok((ListedOp::Checksum(op), size, rest))
}

/// The operation that a line begins with, its size, and what comes after it.
#[tactic(auto, unfolding(crate::specs::Grammar::op_at))]
pub(crate) fn op_at(text: &[u8]) -> Result<(ListedOp, u32, &[u8]), Stop>
    ensures { Gives (λ x. (x.0, x.1, words_of x.2.now)) result (op_at (words_of text.now)) }
{
    let Some((word, rest)) = next_word(text) else {
        return Err(Stop::at(text, Expected::Operation));
    };
    if word == b"move".as_slice() {
        return move_at(rest);
    }
    if word == b"fill".as_slice() {
        return fill_at(rest);
    }
    if word == b"compare".as_slice() {
        return compare_at(rest);
    }
    if word == b"delta".as_slice() {
        return delta_at(rest);
    }
    if word == b"dualcast".as_slice() {
        return dualcast_at(rest);
    }
    if word == b"crc".as_slice() {
        return crc_at(rest);
    }
    if word == b"copy_crc".as_slice() {
        return copy_crc_at(rest);
    }
    Err(Stop::at(text, Expected::Operation))
}
