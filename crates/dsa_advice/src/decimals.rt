//! Notes on addresses in decimal digits that may be meant otherwise.

use crate::unplanned::Source;
use crate::words::word_from;
use dsa_lines::number_of;
use std::alloc::{AllocError, Global};

/// How many digits a pattern has.
const PATTERN_DIGITS: usize = 16;

/// An address in decimal digits, and where it is.
#[derive(Clone, Copy)]
struct Decimal<'a> {
    digits: &'a [u8],
    line: usize,
    column: usize,
}

/// The addresses of a text by how they are written.
#[derive(Clone, Copy)]
struct Addresses<'a> {
    /// Whether one is in hexadecimal digits.
    has_hexadecimal: bool,
    /// How many are in decimal digits, but for 0.
    decimals: usize,
    /// The first of these.
    first: Option<Decimal<'a>>,
    /// The first second region of a compare whose digits look like a pattern.
    pattern: Option<Decimal<'a>>,
}

/// Whether an address comes after this word of an operation; after `with` only in a compare.
fn precedes_address(word: &[u8], is_compare: bool) -> bool {
    if word == b"with".as_slice() {
        return is_compare;
    }
    [
        b"move".as_slice(),
        b"fill".as_slice(),
        b"compare".as_slice(),
        b"delta".as_slice(),
        b"dualcast".as_slice(),
        b"crc".as_slice(),
        b"copy_crc".as_slice(),
        b"->".as_slice(),
        b"and".as_slice(),
        b"at".as_slice(),
        b"record".as_slice(),
    ]
    .contains(&word)
}

/// Whether digits look like those of a pattern: there are as many, or they begin with zeros.
fn is_like_pattern(digits: &[u8]) -> bool {
    digits.len() == PATTERN_DIGITS || matches!(digits, [b'0', b'0', ..])
}

impl<'a> Addresses<'a> {
    /// Adds a word at the place of an address.
    fn push(&mut self, found: Decimal<'a>, is_second: bool) {
        if let [b'0', b'x', ..] = found.digits {
            self.has_hexadecimal = true;
            return;
        }
        if is_second && is_like_pattern(found.digits) && self.pattern.is_none() {
            self.pattern = Some(found);
        }
        if number_of(found.digits).unwrap_or(0) == 0 {
            return;
        }
        self.decimals = self.decimals.saturating_add(1);
        if self.first.is_none() {
            self.first = Some(found);
        }
    }

    /// Adds the addresses of a line without its comment.
    fn push_line(&mut self, line: usize, text: &'a [u8]) {
        let mut from: usize = 1;
        let mut before = [].as_slice();
        let mut is_compare = false;
        for _ in 0..text.len() {
            let Some((column, word)) = word_from(text, from) else {
                return;
            };
            if precedes_address(before, is_compare) {
                let found = Decimal {
                    digits: word,
                    line,
                    column,
                };
                self.push(found, before == b"with".as_slice());
            }
            is_compare = is_compare || word == b"compare".as_slice();
            before = word;
            from = column.saturating_add(word.len());
        }
    }
}

/// The addresses of a text.
fn addresses_in(text: &[u8]) -> Addresses<'_> {
    let mut addresses = Addresses {
        has_hexadecimal: false,
        decimals: 0,
        first: None,
        pattern: None,
    };
    for (at, line) in text.split(|byte| *byte == b'\n').enumerate() {
        let written = line.split(|byte| *byte == b'#').next().unwrap_or(&[]);
        addresses.push_line(at.saturating_add(1), written);
    }
    addresses
}

/// Where an address is, and its digits.
fn place_of(alloc: Global, decimal: Decimal<'_>) -> Result<String, AllocError> {
    let (line, column) = (decimal.line, decimal.column);
    let mut text = format!(in alloc; "note: line {line}, column {column}: ")?;
    match str::from_utf8(decimal.digits) {
        Ok(digits) => text.push_str(digits)?,
        Err(_) => {}
    }
    Ok(text)
}

/// That an address may be meant as a pattern.
fn pattern_note(alloc: Global, decimal: Decimal<'_>) -> Result<String, AllocError> {
    let mut text = place_of(alloc, decimal)?;
    text.push_str(" is an address in decimal digits; a pattern has the word pattern before it\n")?;
    Ok(text)
}

/// That an address is in decimal digits although others are in hexadecimal ones.
fn decimal_note(alloc: Global, decimal: Decimal<'_>, count: usize) -> Result<String, AllocError> {
    let address = number_of(decimal.digits).unwrap_or(0);
    let mut text = place_of(alloc, decimal)?;
    text.push_str(&format!(in alloc; " is decimal, 0x{address:x}, beside hexadecimal addresses")?)?;
    match count.saturating_sub(1) {
        0 => {}
        1 => text.push_str("; another is, too")?,
        more => text.push_str(&format!(in alloc; "; so are {more} others")?)?,
    }
    text.push_str("\n")?;
    Ok(text)
}

/// The note on addresses in decimal digits: on one that a compare has in place of a pattern; else on the first of them,
/// if others are in hexadecimal digits.
pub(crate) fn decimal_notes(
    alloc: Global,
    source: Source<'_>,
) -> Result<Option<String>, AllocError> {
    let Source::Text(text, _) = source else {
        return Ok(None);
    };
    let addresses = addresses_in(text);
    if let Some(decimal) = addresses.pattern {
        return Ok(Some(pattern_note(alloc, decimal)?));
    }
    match addresses.first {
        Some(decimal) if addresses.has_hexadecimal => {
            Ok(Some(decimal_note(alloc, decimal, addresses.decimals)?))
        }
        Some(_) | None => Ok(None),
    }
}
