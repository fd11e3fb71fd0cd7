//! The line of an answer. Of long byte fields it keeps the bytes: their digits are made as the line is written.

ghost use Rattle.std.specs.Prelude.{◌≡◌, ◌++◌, ◌<◌, ℕ, IfOk, length, take, codes};
ghost use Rattle.std.specs.Bool.{OnTrue, OnFalse};
ghost use Rattle.std.specs.Io.KnownBytes.{Appends};
ghost use Rattle.serde_json.specs.Data.{string};
ghost use Rattle.serde_json.specs.Written.{compact_text};
ghost use Rattle.hex.specs.Hex.{encode_lower};
ghost use Rattle.dsa_report.specs.Line.{line_bytes};

use crate::writing::{write_digits, write_line};
use std::alloc::{AllocError, Global};
use std::io::Write;

/// The line of an answer: text, the digits of bytes, text, the digits of bytes, and text.
#[derive(Drop)]
pub(crate) struct AnswerLine {
    /// The text before the first digits.
    pub(crate) front: Vec<u8>,
    /// The bytes whose digits come first.
    pub(crate) first: Vec<u8>,
    /// The text between the digits.
    pub(crate) middle: &'static [u8],
    /// The bytes whose digits come second.
    pub(crate) second: Vec<u8>,
    /// The text after the digits.
    pub(crate) end: &'static [u8],
}

impl AnswerLine {
    /// The line that is this text.
    pub(crate) fn of_text(alloc: Global, text: Vec<u8>) -> AnswerLine
        ensures { line_bytes result ≡ text.items }
    {
        AnswerLine {
            front: text,
            first: Vec::new(alloc),
            middle: b"",
            second: Vec::new(alloc),
            end: b"",
        }
    }

    /// The line of an object that the text begins, and whose last member is a string of the digits of the bytes.
    pub(crate) fn with_bytes(
        alloc: Global,
        text: Vec<u8>,
        bytes: Vec<u8>,
    ) -> Result<AnswerLine, AllocError>
        ensures { IfOk result (λ line. line_bytes line ≡
            (text.items ++ compact_text (string (encode_lower bytes.items))) ++ codes "}\n") }
    {
        let mut front = text;
        front.push(b'"')?;
        keeps_digits(bytes.as_slice());
        Ok(AnswerLine {
            front,
            first: bytes,
            middle: b"\"}\n",
            second: Vec::new(alloc),
            end: b"",
        })
    }

    /// The same, if the last two members are strings of digits: those of the portal, and those of the staging area.
    pub(crate) fn with_emission(
        text: Vec<u8>,
        portal: Vec<u8>,
        staging: Vec<u8>,
    ) -> Result<AnswerLine, AllocError>
        ensures { IfOk result (λ line. line_bytes line ≡
            (((text.items ++ compact_text (string (encode_lower portal.items)))
            ++ codes ",\"staging\":") ++ compact_text (string (encode_lower staging.items)))
            ++ codes "}\n") }
    {
        let mut front = text;
        front.push(b'"')?;
        keeps_digits(portal.as_slice());
        keeps_digits(staging.as_slice());
        Ok(AnswerLine {
            front,
            first: portal,
            middle: b"\",\"staging\":\"",
            second: staging,
            end: b"\"}\n",
        })
    }
}

// Nothing, but that a string keeps the digits of bytes as they are, in quotes.
fn keeps_digits(bytes: &[u8])
    ensures { compact_text (string (encode_lower bytes.now)) ≡
        codes "\"" ++ (encode_lower bytes.now ++ codes "\"") }
{
    let _ = bytes.len();
}

/// Writes the line, and returns whether all of it was taken.
pub(crate) fn write_answer<W: Write>(writer: &mut W, line: &AnswerLine) -> bool
    ensures whole { OnTrue result
        (Appends (W.contents writer.old) (W.contents writer.new) (line_bytes line.now)) }
    ensures prefix { OnFalse result ((n : ℕ) × (n < length (line_bytes line.now))
        × Appends (W.contents writer.old) (W.contents writer.new) (take n (line_bytes line.now))) }
{
    if !write_line(writer, line.front.as_slice()) {
        return false;
    }
    if !write_digits(writer, line.first.as_slice()) {
        return false;
    }
    if !write_line(writer, line.middle) {
        return false;
    }
    if !write_digits(writer, line.second.as_slice()) {
        return false;
    }
    write_line(writer, line.end)
}
