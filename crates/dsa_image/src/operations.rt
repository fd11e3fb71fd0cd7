//! What differs by operation: the record that an answer gives, how many lines there are, and what a line reads, does
//! and gives.

ghost use Rattle.std.specs.Prelude.{◌≡◌, ◌<◌, ◌≤◌, length};
ghost use Rattle.dsa_descriptor.specs.Descriptors.{fields};
ghost use Rattle.dsa_image.specs.Memory.{HoldsRanges};
ghost use Rattle.dsa_image.specs.Effects.{record_from};
ghost use Rattle.dsa_image.specs.Lines.{line_answer, line_count, line_memory};
ghost use Rattle.dsa_image.specs.Gathered.{line_bytes};
ghost use Rattle.dsa_image.specs.Worked.{AreWorkOf};

use crate::execute::{compare_record, plain_record};
use crate::image::Image;
use crate::inputs::Inputs;
use crate::outputs::Outputs;
use crate::partial::Partial;
use crate::parts::{LINE_WIDTH, entry_lines, move_part};
use dsa_descriptor::{Descriptor, Op, Record};

/// The completion record that a partial answer gives.
pub(crate) fn record_from(d: &Descriptor, partial: &Partial) -> Record
    ensures { result ≡ record_from (fields d.now) partial.now }
{
    match d.op {
        Op::Compare { expected, .. } => compare_record(d.flags, expected, partial.difference),
        Op::ComparePattern { expected, .. } => {
            compare_record(d.flags, expected, partial.difference)
        }
        Op::ApplyDelta { .. } => plain_record(partial.fault.unwrap_or(1)),
        Op::Move { .. } => plain_record(1),
        Op::Fill { .. } => plain_record(1),
        Op::Dualcast { .. } => plain_record(1),
    }
}

/// How many lines the descriptor has.
pub fn lines(d: &Descriptor) -> u64
    ensures { result ≡ line_count (fields d.now) }
{
    match d.op {
        Op::ApplyDelta { record_size, .. } => 2 * entry_lines(record_size),
        Op::Move { .. } => u64::from(d.size).div_ceil(LINE_WIDTH),
        Op::Fill { .. } => u64::from(d.size).div_ceil(LINE_WIDTH),
        Op::Compare { .. } => u64::from(d.size).div_ceil(LINE_WIDTH),
        Op::ComparePattern { .. } => u64::from(d.size).div_ceil(LINE_WIDTH),
        Op::Dualcast { .. } => u64::from(d.size).div_ceil(LINE_WIDTH),
    }
}

impl Image {
    /// The bytes that a line reads, where they lie.
    pub(crate) fn line_bytes(&self, d: &Descriptor, k: u64, partial: &Partial) -> (&[u8], &[u8])
        requires inside { HoldsRanges self.now (fields d.now) }
        requires place { k < line_count (fields d.now) }
        ensures value { record { first = result.0.now; second = result.1.now } ≡ line_bytes
            (fields d.now) k self.now partial.now }
        ensures few { length result.0.now ≤ 4096 }
        ensures few_second { length result.1.now ≤ 4096 }
    {
        match d.op {
            Op::Move { src, dst } => {
                let part = move_part(src, dst, d.size, k);
                (self.source_part(src, d.size, part), &[])
            }
            Op::Fill { .. } => (&[], &[]),
            Op::Compare { src, src2, .. } => {
                if partial.difference.is_some() {
                    return (&[], &[]);
                }
                (
                    self.source_part(src, d.size, k),
                    self.source_part(src2, d.size, k),
                )
            }
            Op::ComparePattern { src, .. } => {
                if partial.difference.is_some() {
                    return (&[], &[]);
                }
                (self.source_part(src, d.size, k), &[])
            }
            Op::ApplyDelta {
                delta,
                record_size,
                ..
            } => {
                if partial.fault.is_some() {
                    return (&[], &[]);
                }
                (self.delta_bytes(delta, record_size, k), &[])
            }
            Op::Dualcast { src, .. } => (self.source_part(src, d.size, k), &[]),
        }
    }

    /// The line at place `k` of the descriptor's lines: the bytes that it writes, and the partial answer after it.
    pub fn line(&mut self, d: &Descriptor, k: u64, partial: &mut Partial)
        requires inside { HoldsRanges self.old (fields d.now) }
        requires place { k < line_count (fields d.now) }
        ensures memory { self.new ≡ line_memory (fields d.now) k self.old partial.old }
        ensures answer { partial.new ≡ line_answer (fields d.now) k self.old partial.old }
    {
        match d.op {
            Op::Move { src, dst } => self.move_line(src, dst, d.size, k),
            Op::Fill { pattern, dst } => self.fill_line(pattern, dst, d.size, k),
            Op::Compare { src, src2, .. } => {
                if partial.difference.is_none() {
                    partial.difference = self.compare_line(src, src2, d.size, k);
                }
            }
            Op::ComparePattern { src, pattern, .. } => {
                if partial.difference.is_none() {
                    partial.difference = self.pattern_line(src, pattern, d.size, k);
                }
            }
            Op::ApplyDelta {
                delta,
                dst,
                record_size,
            } => self.delta_line(delta, dst, record_size, d.size, k, partial),
            Op::Dualcast { src, dst, dst2 } => self.dualcast_line(src, dst, dst2, d.size, k),
        }
    }
}

impl Inputs {
    /// Puts the outputs of the line, from only its inputs, in the place of others.
    pub fn compute_into(&self, outputs: &mut Outputs)
        ensures { AreWorkOf self.now outputs.new }
    {
        match self.descriptor.op {
            Op::Move { src, dst } => self.move_outputs(src, dst, outputs),
            Op::Fill { pattern, dst } => self.fill_outputs(pattern, dst, outputs),
            Op::Compare {
                src,
                src2,
                expected,
            } => self.compare_outputs(src, src2, expected, outputs),
            Op::ComparePattern {
                src,
                pattern,
                expected,
            } => self.pattern_outputs(src, pattern, expected, outputs),
            Op::ApplyDelta {
                delta,
                dst,
                record_size,
            } => self.delta_outputs(delta, dst, record_size, outputs),
            Op::Dualcast { src, dst, dst2 } => self.dualcast_outputs(src, dst, dst2, outputs),
        }
    }
}
