//! The text of a refusal.

ghost use Rattle.std.specs.Prelude.{◌≡◌, ◌≤◌, ◌+◌, ◌++◌, length, decimal};
ghost use Rattle.dsa_sentences.specs.Texts.{filled, filled_byte, longest, longest_byte, refusal_text as text_of_refusal};

use crate::sentences::{said_of, sentence_of};
use arrayvec::ArrayVec;
use itoa::Buffer;

/// The most bytes of the text of a refusal.
pub const LONGEST_TEXT: usize = 512;

/// Writes the number at the end.
fn push_number(text: &mut ArrayVec<u8, LONGEST_TEXT>, number: u64)
    requires { length text.old.items + 20 ≤ LONGEST_TEXT }
    ensures value { text.new.items ≡ text.old.items ++ decimal number }
    ensures short { length text.new.items ≤ length text.old.items + 20 }
{
    let mut digits = Buffer::new();
    match text.try_extend_from_slice(digits.format(number).as_bytes()) {
        Ok(()) | Err(_) => {}
    }
}

/// Writes a byte of a sentence at the end, or the number in its place.
fn push_filled_byte(text: &mut ArrayVec<u8, LONGEST_TEXT>, byte: u8, first: u64, second: u64)
    requires { length text.old.items + longest_byte byte ≤ LONGEST_TEXT }
    ensures value { text.new.items ≡ text.old.items ++ filled_byte byte first second }
    ensures short { length text.new.items ≤ length text.old.items + longest_byte byte }
{
    if byte == b'#' {
        push_number(text, first);
        return;
    }
    if byte == b'$' {
        push_number(text, second);
        return;
    }
    text.push(byte);
}

/// Writes a sentence with its numbers at the end.
fn push_filled(text: &mut ArrayVec<u8, LONGEST_TEXT>, sentence: &[u8], first: u64, second: u64)
    requires { length text.old.items + longest sentence.now ≤ LONGEST_TEXT }
    ensures value { text.new.items ≡ text.old.items ++ filled sentence.now first second }
    ensures short { length text.new.items ≤ length text.old.items + longest sentence.now }
{
    let mut rest = sentence;
    while let [byte, after @ ..] = rest {
        push_filled_byte(text, *byte, first, second);
        rest = after;
    }
}

/// The text of a refusal of this number: the sentence of its cause, and, if it has a cause within, a colon and the
/// sentence of that, with the numbers that it names. For 83, the first number is that of the setting. The text is empty
/// if no cause has the number.
pub fn refusal_text(number: u32, inner: u32, first: u64, second: u64) -> ArrayVec<u8, LONGEST_TEXT>
    ensures { result.items ≡ text_of_refusal number inner first second }
{
    let mut text = ArrayVec::new();
    let said = said_of(u64::from(number), first).as_bytes();
    if said.is_empty() {
        return text;
    }
    push_filled(&mut text, said, first, second);
    let within = sentence_of(u64::from(inner)).as_bytes();
    if within.is_empty() {
        return text;
    }
    push_filled(&mut text, b": ".as_slice(), first, second);
    push_filled(&mut text, within, first, second);
    text
}
