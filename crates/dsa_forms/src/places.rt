//! Where a text of bytes leaves its form.

ghost use Rattle.std.specs.Prelude.{IfOk, MatchResult};
ghost use Rattle.dsa_forms.specs.Forms.{SpellsBytes, SpellsNone};

use crate::forms::{Form, bytes_of_text, first_part, form_of, is_passed, next_part};
use hex::FromHexError;
use std::alloc::{AllocError, Global};

/// Why a text spells no bytes.
#[derive(Clone, Copy)]
enum DigitFault {
    /// A byte that is neither a digit nor anything else of the text's form.
    Stray,
    /// A line in place of others, which `hexdump` leaves out.
    LinesLeftOut,
    /// The text ends between the two digits of a byte.
    WithinByte,
}

impl DigitFault {
    /// What is said of it.
    fn words(self) -> &'static str {
        match self {
            DigitFault::Stray => "expected a hexadecimal digit",
            DigitFault::LinesLeftOut => "lines are left out here: use hexdump -v -C",
            DigitFault::WithinByte => "the text ends within a byte",
        }
    }
}

/// Where a text spells no bytes, and why.
#[derive(Clone, Copy)]
pub struct BytesFault {
    /// The line of the fault, from 1 on.
    line: usize,
    /// Its column in the line, from 1 on.
    column: usize,
    /// What is wrong there.
    fault: DigitFault,
}

impl BytesFault {
    /// The place, then `before`, then what is wrong there.
    pub fn text(self, alloc: Global, before: &str) -> Result<String, AllocError> {
        let (line, column, words) = (self.line, self.column, self.fault.words());
        format!(in alloc; "line {line}, column {column}: {before}{words}")
    }
}

/// What a byte is in a text of this form that has no such byte.
fn fault_at(form: Form, byte: u8) -> DigitFault {
    match (form, byte) {
        (Form::Hexdump, b'*') => DigitFault::LinesLeftOut,
        (Form::Plain, _) | (Form::Xxd, _) | (Form::Hexdump, _) => DigitFault::Stray,
    }
}

/// The first byte of a text that is neither a digit nor anything else of its form, or the end of the text.
fn first_fault(form: Form, text: &[u8]) -> BytesFault {
    let mut part = first_part(form);
    let (mut line, mut column): (usize, usize) = (1, 1);
    for byte in text {
        let is_newline = *byte == b'\n';
        let is_digit = (*byte as char).is_ascii_hexdigit();
        if !is_newline && !is_digit && !is_passed(form, part, *byte) {
            let fault = fault_at(form, *byte);
            return BytesFault {
                line,
                column,
                fault,
            };
        }
        part = next_part(form, part, *byte);
        column = if is_newline {
            1
        } else {
            column.saturating_add(1)
        };
        line = if is_newline {
            line.saturating_add(1)
        } else {
            line
        };
    }
    BytesFault {
        line,
        column,
        fault: DigitFault::WithinByte,
    }
}

/// The bytes that a text spells in hexadecimal, in one of the forms; or the first place at which it leaves its form, or
/// its end, if that is within a byte.
pub fn bytes_of_input(alloc: Global, text: &[u8]) -> Result<Result<Vec<u8>, BytesFault>, AllocError>
    ensures { IfOk result
        (λ read. MatchResult read
        (λ bytes. SpellsBytes text.now bytes.items) (λ _. SpellsNone text.now)) }
{
    let Some(form) = form_of(text) else {
        return Ok(Err(first_fault(Form::Plain, text)));
    };
    match bytes_of_text(alloc, form, text) {
        Ok(bytes) => Ok(Ok(bytes)),
        Err(FromHexError::OutOfMemory) => Err(AllocError),
        Err(_) => Ok(Err(first_fault(form, text))),
    }
}
