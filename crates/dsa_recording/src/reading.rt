//! The answer to a recording that is read, as bytes in parts.

ghost use Rattle.std.specs.Prelude.{◌≡◌, ◌↔◌, ◌≤◌, IsTrue, length};
ghost use Rattle.dsa_recording.specs.declared.reading.ReadFault.TheVariants.{Memory};
ghost use Rattle.dsa_forms.specs.Forms.{IsText};
ghost use Rattle.dsa_recording.specs.Parts.{AnswersAfter, AnswersRead, AnswersWhole, Fills, IsStreamed};

use crate::answer::{AuditAnswer, AuditFormat, AuditOptions};
use crate::input::audit;
use crate::parts::{Parts, whole_bytes};
use dsa_forms::is_text;
use dsa_settings::Settings;
use std::alloc::{AllocError, Global};
use std::io::Read;

/// How many bytes of a recording are read before the whole submissions among them are audited.
const PART: usize = 1_048_576;

/// The most bytes of a recording that is read as a whole.
const LONGEST: usize = 67_108_864;

/// The most bytes that one read asks for.
const CHUNK: usize = 65_536;

/// Why there is no answer to what was read.
#[derive(Clone, Copy)]
pub enum ReadFault {
    /// The reader failed, or did not end.
    Failed,
    /// A text, or a recording to draw or to list, has more than 64 MiB.
    TooLong,
    /// An allocation failed.
    Memory,
}

impl From<AllocError> for ReadFault {
    ghost from_gives = { λ _ fault. fault ≡ Memory };

    fn from(_error: AllocError) -> ReadFault {
        ReadFault::Memory
    }
}

/// Reads until the buffer has this many bytes, and answers whether the reader has ended.
fn fill<R: Read>(reader: &mut R, buffer: &mut Vec<u8>, most: usize) -> Result<bool, ReadFault>
    ensures { Fills (R.remaining reader.old) (R.remaining reader.new)
        buffer.old.items buffer.new.items most result }
{
    let mut chunk = [0u8; CHUNK];
    while buffer.len() < most {
        let room = CHUNK.min(most - buffer.len());
        match reader.read(&mut chunk[..room]) {
            Ok(0) => return Ok(true),
            Ok(count) => {
                if buffer.extend_from_slice(&chunk[..count]).is_err() {
                    return Err(ReadFault::Memory);
                }
            }
            Err(_) => return Err(ReadFault::Failed),
        }
    }
    Ok(false)
}

/// Whether a recording of bytes is audited in parts for this format.
fn is_streamed(format: AuditFormat) -> bool
    ensures { IsTrue result ↔ IsStreamed format }
{
    match format {
        AuditFormat::Text | AuditFormat::Json | AuditFormat::Keys => true,
        AuditFormat::Picture | AuditFormat::List => false,
    }
}

/// The answer to a recording of bytes that begins with these, some entry among them, and after them has what the reader
/// gives.
fn audit_parts<R: Read>(
    alloc: Global,
    reader: &mut R,
    first: Vec<u8>,
    settings: &Settings,
    options: AuditOptions<'_>,
) -> Result<AuditAnswer, ReadFault>
    requires format { IsStreamed options.format }
    requires bytes { ¬ IsText first.items }
    requires some { 64 ≤ length first.items }
    ensures { AnswersAfter options.entry first.items
        (R.remaining reader.old) (R.remaining reader.new) result }
{
    let (mut buffer, mut ended) = (first, false);
    let mut parts = Parts::new(alloc);
    for _ in 0..u64::MAX {
        if ended {
            return Ok(parts.answer_with(alloc, &buffer, settings, options)?);
        }
        let whole = whole_bytes(&buffer);
        parts.add(alloc, &buffer[..whole], settings, options)?;
        buffer = Vec::from_slice(alloc, &buffer[whole..])?;
        // what is held doubles, so that a long batch is copied few times
        let most = buffer.len().saturating_add(buffer.len().max(PART));
        ended = fill(reader, &mut buffer, most)?;
    }
    Err(ReadFault::Failed)
}

/// The answer to a recording that begins with these bytes, and after them has what the reader gives. It is read as
/// a whole.
fn audit_whole<R: Read>(
    alloc: Global,
    reader: &mut R,
    first: Vec<u8>,
    settings: &Settings,
    options: AuditOptions<'_>,
) -> Result<AuditAnswer, ReadFault>
    requires few { length first.items ≤ PART }
    ensures { AnswersWhole options.entry first.items
        (R.remaining reader.old) (R.remaining reader.new) result }
{
    let mut all = first;
    if fill(reader, &mut all, LONGEST + 1)? {
        return Ok(audit(alloc, &all, settings, options)?);
    }
    Err(ReadFault::TooLong)
}

/// The report on a recording that is read to its end, as [`audit`] has it. Bytes are read and audited in parts of whole
/// submissions, so that memory is taken for the largest batch and for what is written alone; a text, and bytes to draw
/// or to list, as a whole.
pub fn audit_read<R: Read>(
    alloc: Global,
    reader: &mut R,
    settings: &Settings,
    options: AuditOptions<'_>,
) -> Result<AuditAnswer, ReadFault>
    ensures { AnswersRead options.entry (R.remaining reader.old) (R.remaining reader.new) result }
{
    let mut first = Vec::new(alloc);
    if fill(reader, &mut first, PART)? {
        return Ok(audit(alloc, &first, settings, options)?);
    }
    if !is_streamed(options.format) {
        return audit_whole(alloc, reader, first, settings, options);
    }
    if is_text(&first) {
        return audit_whole(alloc, reader, first, settings, options);
    }
    audit_parts(alloc, reader, first, settings, options)
}
