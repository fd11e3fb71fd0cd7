//! The forms of text that bytes come in.

ghost use Rattle.std.specs.Prelude.{◌≡◌, ◌↔◌, ◌⊎◌, ◌++◌, false, Ok, Err, IfOk, OnOk, IsTrue, MatchResult};
ghost use Rattle.hex.specs.Hex.{decode_of};
ghost use Rattle.hex.specs.declared.error.FromHexError.TheVariants.{OutOfMemory};
ghost use Rattle.dsa_forms.specs.Forms.{is_blank, is_digit, part_of_line, first_part, next_part, is_passed, kept, digits_of, is_text_byte, IsText, is_spread, form_by, form_of, is_gap, after_gap, is_word_of_digits, begins_with_digits};

use hex::FromHexError;
use std::alloc::{AllocError, Global};

/// A form of text.
#[derive(Clone, Copy)]
pub enum Form {
    /// Digits alone, as `xxd -p` writes them; blanks and newlines may be between.
    Plain,
    /// An offset and a colon, digits, two blanks, and the bytes as characters, as `xxd` writes them.
    Xxd,
    /// An offset, digits, and the bytes as characters between bars, as `hexdump -C` writes them.
    Hexdump,
}

/// A part of a line.
#[derive(Clone, Copy)]
pub enum Part {
    /// The offset of the line.
    Offset,
    /// The digits of its bytes.
    Digits,
    /// A blank after digits.
    Blank,
    /// What comes after the digits.
    Rest,
}

/// Whether it is a space, a tab or a carriage return.
fn is_blank(byte: u8) -> bool
    ensures { result ≡ is_blank byte }
{
    byte == b' ' || byte == b'\t' || byte == b'\r'
}

/// Whether it is a hexadecimal digit.
fn is_digit(byte: u8) -> bool
    ensures { result ≡ is_digit byte }
{
    (byte as char).to_digit(16).is_some()
}

/// The part of its line that the byte after this one belongs to.
fn part_of_line(form: Form, part: Part, byte: u8) -> Part
    ensures { result ≡ part_of_line form part byte }
{
    match (form, part) {
        (Form::Plain, _) => Part::Digits,
        (Form::Xxd, Part::Offset) => if byte == b':' {
            Part::Digits
        } else {
            Part::Offset
        },
        (Form::Xxd, Part::Digits) => if is_blank(byte) {
            Part::Blank
        } else {
            Part::Digits
        },
        (Form::Xxd, Part::Blank) => if is_blank(byte) {
            Part::Rest
        } else {
            Part::Digits
        },
        (Form::Hexdump, Part::Offset) => if is_blank(byte) {
            Part::Digits
        } else {
            Part::Offset
        },
        (Form::Hexdump, Part::Digits) | (Form::Hexdump, Part::Blank) => {
            if byte == b'|' {
                Part::Rest
            } else {
                Part::Digits
            }
        }
        (Form::Xxd, Part::Rest) | (Form::Hexdump, Part::Rest) => Part::Rest,
    }
}

/// The part that a line begins with.
pub fn first_part(form: Form) -> Part
    ensures { result ≡ first_part form }
{
    match form {
        Form::Plain => Part::Digits,
        Form::Xxd | Form::Hexdump => Part::Offset,
    }
}

/// The part that the byte after this one belongs to.
pub fn next_part(form: Form, part: Part, byte: u8) -> Part
    ensures { result ≡ next_part form part byte }
{
    if byte == b'\n' {
        first_part(form)
    } else {
        part_of_line(form, part, byte)
    }
}

/// Whether it spells nothing in this part of a line.
pub fn is_passed(form: Form, part: Part, byte: u8) -> bool
    ensures { result ≡ is_passed form part byte }
{
    match (form, part) {
        (Form::Plain, _) | (Form::Xxd, Part::Digits) | (Form::Xxd, Part::Blank) => is_blank(byte),
        (Form::Xxd, Part::Offset) => is_digit(byte) || byte == b':' || is_blank(byte),
        (Form::Hexdump, Part::Offset) => is_digit(byte) || is_blank(byte),
        (Form::Hexdump, Part::Digits) | (Form::Hexdump, Part::Blank) => is_blank(byte)
            || byte == b'|',
        (Form::Xxd, Part::Rest) | (Form::Hexdump, Part::Rest) => true,
    }
}

/// Adds the byte, unless it spells nothing.
fn push_kept(digits: &mut Vec<u8>, form: Form, part: Part, byte: u8) -> Result<(), AllocError>
    ensures { OnOk result (digits.new.items ≡ digits.old.items ++ kept form part byte) }
{
    if byte == b'\n' || is_passed(form, part, byte) {
        return Ok(());
    }
    digits.push(byte)?;
    Ok(())
}

/// The digits of the bytes that a text spells, and whatever its form does not have.
fn digits_of(alloc: Global, form: Form, text: &[u8]) -> Result<Vec<u8>, AllocError>
    ensures { IfOk result (λ digits. digits.items ≡ digits_of form text.now) }
{
    let mut digits = Vec::new(alloc);
    let mut part = first_part(form);
    for byte in text {
        push_kept(&mut digits, form, part, *byte)?;
        part = next_part(form, part, *byte);
    }
    Ok(digits)
}

/// The bytes that a text of this form spells.
///
/// # Errors
/// Those of [`hex::decode`] for the digits of the text, where they are no pairs of digits.
pub fn bytes_of_text(alloc: Global, form: Form, text: &[u8]) -> Result<Vec<u8>, FromHexError>
    ensures { MatchResult result (λ bytes. decode_of (digits_of form text.now) ≡ Ok bytes.items)
        (λ e. (e ≡ OutOfMemory) ⊎ (decode_of (digits_of form text.now) ≡ Err e)) }
{
    let Ok(digits) = digits_of(alloc, form, text) else {
        return Err(FromHexError::OutOfMemory);
    };
    hex::decode(alloc, digits)
}

/// Whether a text may have the byte: printable, a tab, a newline or a carriage return.
fn is_text_byte(byte: u8) -> bool
    ensures { result ≡ is_text_byte byte }
{
    byte == b'\t' || byte == b'\n' || byte == b'\r' || (byte >= 32 && byte <= 126)
}

/// Whether a recording is a text. One that is none is its entries as they are.
pub fn is_text(bytes: &[u8]) -> bool
    ensures { IsTrue result ↔ IsText bytes.now }
{
    bytes.iter().all(|byte| is_text_byte(*byte))
}

/// Whether the byte is a digit, a blank or a newline.
fn is_spread(byte: u8) -> bool
    ensures { result ≡ is_spread byte }
{
    is_digit(byte) || is_blank(byte) || byte == b'\n'
}

/// The form of a text in which this is the first byte of another kind.
fn form_by(byte: u8) -> Option<Form>
    ensures { result ≡ form_by byte }
{
    match byte {
        b':' => Some(Form::Xxd),
        b'|' | b'*' => Some(Form::Hexdump),
        _ => None,
    }
}

/// The form of a text, if it is one of these.
pub fn form_of(text: &[u8]) -> Option<Form>
    ensures { result ≡ form_of text.now }
{
    for byte in text {
        if !is_spread(*byte) {
            return form_by(*byte);
        }
    }
    Some(Form::Plain)
}

/// Whether the byte is a blank or a newline.
fn is_gap(byte: u8) -> bool
    ensures { result ≡ is_gap byte }
{
    is_blank(byte) || byte == b'\n'
}

/// What comes after the blanks and newlines at the head of a text.
pub(crate) fn after_gap(text: &[u8]) -> &[u8]
    ensures { result.now ≡ after_gap text.now }
{
    let mut rest = text;
    while let [first, after @ ..] = rest {
        if !is_gap(*first) {
            return rest;
        }
        rest = after;
    }
    rest
}

/// Whether a text is digits, and a blank, a newline, a colon or its end comes after them.
fn is_word_of_digits(text: &[u8]) -> bool
    ensures { result ≡ is_word_of_digits false text.now }
{
    let mut seen = false;
    for byte in text {
        if !is_digit(*byte) {
            return seen && (is_gap(*byte) || *byte == b':');
        }
        seen = true;
    }
    seen
}

/// Whether the first word of a text is of digits, and maybe a colon is after them, as in a text of bytes; no line of a
/// recording begins so.
pub fn begins_with_digits(text: &[u8]) -> bool
    ensures { result ≡ begins_with_digits text.now }
{
    is_word_of_digits(after_gap(text))
}
