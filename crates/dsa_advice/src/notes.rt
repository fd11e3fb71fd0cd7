//! Notes and warnings about operations beside an answer.

use dsa_descriptor::Span;
use std::alloc::{AllocError, Global};

/// The most lines that are written.
const MOST_WRITTEN: usize = 20;

/// Writes the addresses of a span, the first and the last.
pub(crate) fn push_span(alloc: Global, text: &mut String, span: Span) -> Result<(), AllocError> {
    let (first, last) = (span.first, span.end().saturating_sub(1));
    text.push_str(&format!(in alloc; "0x{first:x} to 0x{last:x}")?)
}

/// Lines about operations: the first ones are written, the others are counted.
#[derive(Drop)]
pub(crate) struct Notes {
    text: String,
    count: usize,
}

impl Notes {
    /// No lines.
    pub(crate) fn new(alloc: Global) -> Notes {
        Notes {
            text: String::new(alloc),
            count: 0,
        }
    }

    /// Counts a line, and returns whether it is to be written.
    pub(crate) fn count(&mut self) -> bool {
        self.count = self.count.saturating_add(1);
        self.count <= MOST_WRITTEN
    }

    /// Writes a line.
    pub(crate) fn write(&mut self, line: &str) -> Result<(), AllocError> {
        self.text.push_str(line)
    }

    /// The lines, and how many more there are of what is named; none if there is no line.
    pub(crate) fn into_text(self, alloc: Global, what: &str) -> Result<Option<String>, AllocError> {
        if self.count == 0 {
            return Ok(None);
        }
        let mut text = self.text;
        let more = self.count.saturating_sub(MOST_WRITTEN);
        if more > 0 {
            text.push_str(&format!(in alloc; "note: and {more} more {what}\n")?)?;
        }
        Ok(Some(text))
    }
}
