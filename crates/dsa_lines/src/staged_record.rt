//! The text of the records after the entries of a staging area.

ghost use Rattle.std.specs.Prelude.{◌≡◌, ◌+◌, ◌^◌, ◌<◌, ◌++◌, ◌∷◌, [], length, replicate, IfOk, OnOk, codes, decimal, string_bytes};
ghost use Rattle.std.specs.Str.{bytes_eq};
ghost use Rattle.dsa_lines.specs.Stagings.{byte_words, finished_at, is_plain, record_place, record_text, records_of, records_text, written_words};
ghost use Rattle.dsa_lines.specs.Text.{text_of};
ghost use Rattle.dsa_lines.specs.Numbers.{hex};

use crate::portal::push_line;
use dsa_descriptor::Record;
use std::alloc::{AllocError, Global};

/// Whether the record is all zero.
fn is_zero(bytes: &[u8; 32]) -> bool
    ensures { result ≡ bytes_eq bytes.now (replicate 32 0) }
{
    *bytes == [0; 32]
}

/// How many descriptors of the batch have finished.
#[tactic(auto, unfolding(dsa_descriptor::specs::Places::u32_at))]
fn finished_at(bytes: &[u8; 32]) -> u32
    ensures { result ≡ finished_at bytes.now }
{
    u32::from_le_bytes([bytes[4], bytes[5], bytes[6], bytes[7]])
}

/// Whether the record has its status and how many have finished, and nothing else.
fn is_plain(bytes: &[u8; 32]) -> bool
    ensures { result ≡ is_plain bytes.now }
{
    let plain = Record {
        status: bytes[0],
        result: 0,
        bytes_completed: finished_at(bytes),
    };
    *bytes == plain.bytes()
}

/// The batch of a record, and the address of the record.
fn record_place(alloc: Global, batch: usize, address: u64) -> Result<String, AllocError>
    ensures { IfOk result (λ line. string_bytes line ≡ record_place batch address) }
{
    format!(in alloc; "record {batch} at 0x{address:x}")
}

/// The status of a record, and how many have finished.
fn status_text(alloc: Global, status: u8, finished: u32) -> Result<String, AllocError>
    ensures { IfOk result (λ text. string_bytes text ≡ codes ": status " ++
        (hex status ++ (codes ", " ++ (decimal finished ++ codes " finished")))) }
{
    format!(in alloc; ": status 0x{status:x}, {finished} finished")
}

/// All bytes of a record.
#[tactic(auto, using(crate::proofs::StagingTexts::bytes_are))]
fn bytes_text(alloc: Global, bytes: &[u8; 32]) -> Result<String, AllocError>
    ensures { IfOk result (λ text. string_bytes text ≡ text_of (byte_words bytes.now)) }
{
    let digits = hex::encode(alloc, *bytes)?;
    format!(in alloc; ", 32 bytes {digits}")
}

/// The text of a record that was written: its status, how many have finished, and what else it has.
fn written_text(alloc: Global, bytes: &[u8; 32]) -> Result<String, AllocError>
    ensures { IfOk result (λ text. string_bytes text ≡ text_of (written_words bytes.now)) }
{
    let mut text = status_text(alloc, bytes[0], finished_at(bytes))?;
    if is_plain(bytes) {
        return Ok(text);
    }
    let more = bytes_text(alloc, bytes)?;
    text.push_str(&more)?;
    Ok(text)
}

/// The line of the record of a batch.
fn record_text(
    alloc: Global,
    batch: usize,
    address: u64,
    bytes: &[u8; 32],
) -> Result<String, AllocError>
    ensures { IfOk result (λ line. string_bytes line ≡ record_text batch address bytes.now) }
{
    let place = record_place(alloc, batch, address)?;
    if bytes[7] != 0 {
        let more = bytes_text(alloc, bytes)?;
        return format!(in alloc; "unknown {place}{more}");
    }
    if is_zero(bytes) {
        return format!(in alloc; "# {place}");
    }
    let written = written_text(alloc, bytes)?;
    format!(in alloc; "# {place}{written}")
}

/// Writes the line of the record of a batch at the end.
fn push_record(
    alloc: Global,
    text: &mut String,
    batch: usize,
    address: u64,
    bytes: &[u8; 32],
) -> Result<(), AllocError>
    ensures { OnOk result (string_bytes text.new ≡
        string_bytes text.old ++ (record_text batch address bytes.now ++ 10 ∷ [])) }
{
    let line = record_text(alloc, batch, address, bytes)?;
    push_line(text, &line)
}

/// Writes the lines of the records at the end; the first record is at this address.
pub(crate) fn push_records(
    alloc: Global,
    text: &mut String,
    records: &[u8],
    first: u64,
) -> Result<(), AllocError>
    requires { first + length records.now < 2 ^ 64 }
    ensures { OnOk result (string_bytes text.new ≡
        string_bytes text.old ++ records_text 0 first (records_of records.now)) }
{
    let (all, _) = records.as_chunks::<32>();
    for (batch, bytes) in all.iter().enumerate() {
        push_record(alloc, text, batch, first + 32 * batch as u64, bytes)?;
    }
    Ok(())
}
