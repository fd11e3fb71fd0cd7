//! The lines of a checksum, each by way of what it reads and what it gives, and its completion record.

ghost use Rattle.std.specs.Prelude.{◌≡◌, ◌↔◌, ◌<◌, ◌≤◌, IsTrue, length};
ghost use Rattle.std.specs.Int.{from_le_bytes, w32};
ghost use Rattle.dsa_core.specs.Machine.{HoldsPiece};
ghost use Rattle.dsa_image.specs.Memory.{HasRange, bytes_from};
ghost use Rattle.dsa_image.specs.Reads.{source_part};
ghost use Rattle.dsa_operations.specs.Checksums.{checksum_fields};
ghost use Rattle.dsa_operations.specs.Operands.{source_field};
ghost use Rattle.dsa_core.specs.ChecksumLines.{AreGivenBy, AreReadHere};
ghost use Rattle.dsa_core.specs.Checksums.{checksum_finish, checksum_machine, value_before, value_record};

use crate::inputs::ChecksumInputs;
use crate::outputs::ChecksumOutputs;
use arrayvec::ArrayVec;
use dsa_checksum::checksum;
use dsa_image::{Image, LINE_WIDTH, kept, refill};
use dsa_operations::{Checksum, ChecksumOp, Seed};

/// How many lines a checksum has.
pub(crate) fn checksum_lines(c: &Checksum) -> u64
    ensures { result ≡ checksum_machine.lines (checksum_fields c.now) }
{
    u64::from(c.size).div_ceil(LINE_WIDTH)
}

/// The number in the four bytes at an address.
fn number_at(image: &Image, at: u64) -> u32
    requires { HasRange image.now at 4 }
    ensures { result ≡ from_le_bytes w32 (bytes_from image.now at 4) }
{
    let bytes = image.part(at, 4);
    u32::from_le_bytes([bytes[0], bytes[1], bytes[2], bytes[3]])
}

/// The value that the line at a place goes on from: the first reads the seed.
fn begun(image: &Image, c: &Checksum, line: u64, value: u32) -> u32
    requires { HoldsPiece checksum_machine image.now (checksum_fields c.now) }
    ensures { result ≡ value_before (checksum_fields c.now) line image.now value }
{
    if line > 0 {
        return value;
    }
    match c.op.seed() {
        Seed::Given(seed) => seed,
        Seed::At(address) => number_at(image, address),
    }
}

/// The bytes that the line at a place reads of the source.
fn source<'a>(image: &'a Image, c: &Checksum, line: u64) -> &'a [u8]
    requires inside { HoldsPiece checksum_machine image.now (checksum_fields c.now) }
    requires place { line < checksum_machine.lines (checksum_fields c.now) }
    ensures value { result.now ≡ source_part image.now (source_field c.now.op) c.now.size line }
    ensures few { length result.now ≤ 4096 }
{
    image.source_part(c.op.source_field(), c.size, line)
}

/// The inputs of the line at a place.
pub(crate) fn gather_checksum(image: &Image, c: &Checksum, line: u64, value: u32) -> ChecksumInputs
    requires inside { HoldsPiece checksum_machine image.now (checksum_fields c.now) }
    requires place { line < checksum_machine.lines (checksum_fields c.now) }
    ensures checksum { result.checksum ≡ c.now }
    ensures line { result.line ≡ line }
    ensures value { result.value ≡ value }
    ensures read { AreReadHere image.now result }
{
    ChecksumInputs {
        checksum: *c,
        line,
        value,
        begun: begun(image, c, line, value),
        bytes: kept(source(image, c, line)),
    }
}

/// Puts the inputs of the line at a place in the place of others.
pub(crate) fn gather_checksum_into(
    image: &Image,
    c: &Checksum,
    line: u64,
    value: u32,
    inputs: &mut ChecksumInputs,
)
    requires inside { HoldsPiece checksum_machine image.now (checksum_fields c.now) }
    requires place { line < checksum_machine.lines (checksum_fields c.now) }
    ensures checksum { inputs.new.checksum ≡ c.now }
    ensures line { inputs.new.line ≡ line }
    ensures value { inputs.new.value ≡ value }
    ensures read { AreReadHere image.now inputs.new }
{
    inputs.checksum = *c;
    inputs.line = line;
    inputs.value = value;
    inputs.begun = begun(image, c, line, value);
    refill(&mut inputs.bytes, source(image, c, line));
}

/// Whether the line of the inputs reads the same here, its seed included.
pub(crate) fn still_reads_checksum(image: &Image, inputs: &ChecksumInputs) -> bool
    requires { HoldsPiece checksum_machine image.now (checksum_fields inputs.now.checksum) }
    ensures { IsTrue result ↔ AreReadHere image.now inputs.now }
{
    if begun(image, &inputs.checksum, inputs.line, inputs.value) != inputs.begun {
        return false;
    }
    source(image, &inputs.checksum, inputs.line) == inputs.bytes.as_slice()
}

/// Outputs of a line that writes nothing, to be overwritten.
pub(crate) fn no_checksum() -> ChecksumOutputs {
    ChecksumOutputs {
        at: 0,
        bytes: ArrayVec::new(),
        value: 0,
    }
}

/// Puts the outputs of the line, from only its inputs, in the place of others.
pub(crate) fn compute_checksum(inputs: &ChecksumInputs, outputs: &mut ChecksumOutputs)
    ensures { AreGivenBy inputs.now outputs.new }
{
    outputs.value = checksum(
        inputs.checksum.variant(),
        inputs.begun,
        inputs.bytes.as_slice(),
    );
    match inputs.checksum.op {
        ChecksumOp::Crc { .. } => {
            outputs.at = 0;
            outputs.bytes.clear();
        }
        ChecksumOp::CopyCrc { dst, .. } => {
            outputs.at = dst + LINE_WIDTH * inputs.line;
            refill(&mut outputs.bytes, inputs.bytes.as_slice());
        }
    }
}

/// The 32 bytes of the completion record with a value.
fn value_record(value: u32) -> [u8; 32]
    ensures { result ≡ value_record value }
{
    let mut bytes = [0; 32];
    bytes[0] = 1;
    bytes[16..20].copy_from_slice(&value.to_le_bytes());
    bytes
}

/// Writes the completion record with a value.
pub(crate) fn finish_checksum(image: &mut Image, c: &Checksum, value: u32)
    requires { HoldsPiece checksum_machine image.old (checksum_fields c.now) }
    ensures { image.new ≡ (checksum_finish (checksum_fields c.now) image.old value).memory }
{
    image.put(c.record_at, &value_record(value));
}
