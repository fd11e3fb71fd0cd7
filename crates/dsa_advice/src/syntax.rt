//! Where a text is no JSON.

use json::{Reader, Scratch, Token};
use serde::{Deserialize, Deserializer, Format};
use std::alloc::{AllocError, Global};

/// Where a text is no JSON.
#[derive(Clone, Copy)]
pub(crate) struct SyntaxFault {
    /// The line, from 1.
    pub(crate) line: usize,
    /// The column, from 1.
    pub(crate) column: usize,
    /// Whether the text ends before its JSON does.
    pub(crate) is_cut: bool,
}

impl SyntaxFault {
    /// Whether it is at an earlier place than the other.
    fn is_before(self, other: SyntaxFault) -> bool {
        self.line < other.line || self.line == other.line && self.column < other.column
    }
}

/// A value of which nothing is kept.
#[derive(Drop)]
struct Passed;

impl<'de> Deserialize<'de> for Passed {
    fn deserialize<F: Format>(
        _alloc: Global,
        from: &mut Deserializer<'de, '_, F>,
    ) -> Result<Passed, F::Error> {
        from.skip()?;
        Ok(Passed)
    }
}

/// Where the text is against the grammar. A number of any size is within it.
fn grammar_fault(alloc: Global, text: &[u8]) -> Result<Option<SyntaxFault>, AllocError> {
    match serde_json::from_slice::<Passed>(alloc, text) {
        Ok(_) => Ok(None),
        Err(error) if error.is_memory() => Err(AllocError),
        Err(error) => Ok(Some(SyntaxFault {
            line: error.line(),
            column: error.column(),
            is_cut: error.is_eof(),
        })),
    }
}

/// Whether a number is too large for a float.
fn is_too_large(digits: &str) -> bool {
    match digits.parse::<f64>() {
        Ok(number) => !number.is_finite(),
        Err(_) => false,
    }
}

/// The fault at this offset. At the end of the text its column is that of the last byte.
fn fault_at(text: &[u8], offset: usize) -> SyntaxFault {
    let before = &text[..offset.min(text.len())];
    let (mut line, mut column) = (1usize, 1usize);
    for byte in before {
        if *byte == b'\n' {
            line = line.saturating_add(1);
            column = 1;
        } else {
            column = column.saturating_add(1);
        }
    }
    if offset >= text.len() {
        column = column.saturating_sub(1);
    }
    SyntaxFault {
        line,
        column,
        is_cut: false,
    }
}

/// The fault of the first number that is too large for a float. Its place is right after it and after its comma, as a
/// reader reports it.
fn number_fault(alloc: Global, text: &[u8]) -> Result<Option<SyntaxFault>, AllocError> {
    let Ok(text) = str::from_utf8(text) else {
        return Ok(None);
    };
    let mut scratch = Scratch::new(alloc);
    let mut reader = Reader::new(text, &mut scratch)?;
    'tokens: while let Some(token) = reader.next() {
        if let Token::Number(digits) = token {
            if is_too_large(digits) {
                return Ok(Some(fault_at(text.as_bytes(), reader.offset())));
            }
        }
    }
    Ok(None)
}

/// The first place where a text is no JSON; of a text that is no UTF-8 where that is so.
pub(crate) fn syntax_fault(alloc: Global, text: &[u8]) -> Result<Option<SyntaxFault>, AllocError> {
    let Some(number) = number_fault(alloc, text)? else {
        return grammar_fault(alloc, text);
    };
    match grammar_fault(alloc, text)? {
        Some(grammar) if grammar.is_before(number) => Ok(Some(grammar)),
        Some(_) | None => Ok(Some(number)),
    }
}
