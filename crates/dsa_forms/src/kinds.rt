//! What an input is, by looking at it.

ghost use Rattle.std.specs.Prelude.{◌≡◌};
ghost use Rattle.std.specs.List.{list_any};
ghost use Rattle.dsa_forms.specs.Kinds.{begins_with_brace, has_batch, is_batch, is_binary, kind_of, LinesAreLines, SampleKinds};

use crate::forms::{after_gap, begins_with_digits};
use dsa_descriptor::u32_at;

/// What an input is.
#[derive(Clone, Copy)]
pub enum InputKind {
    /// Bytes as they are, of a list or a recording.
    Bytes,
    /// A job.
    Job,
    /// A dump of bytes, as `xxd`, `xxd -p` and `hexdump -C` write it.
    Dump,
    /// Lines of operations.
    Lines,
}

/// Whether an input is bytes as they are: one of them is 0, which no text has.
pub fn is_binary(input: &[u8]) -> bool
    ensures { result ≡ is_binary input.now }
{
    input.iter().any(|byte| *byte == 0)
}

/// Whether the first byte is a brace.
fn begins_with_brace(text: &[u8]) -> bool
    ensures { result ≡ begins_with_brace text.now }
{
    match text {
        [first, ..] => *first == b'{',
        [] => false,
    }
}

/// What an input is: bytes, if one of them is 0; else a job, if its first byte that is no blank is a brace; a dump, if
/// its first word is of hexadecimal digits; else lines.
pub fn kind_of(input: &[u8]) -> InputKind
    ensures { result ≡ kind_of input.now }
{
    if is_binary(input) {
        return InputKind::Bytes;
    }
    if begins_with_brace(after_gap(input)) {
        return InputKind::Job;
    }
    if begins_with_digits(input) {
        return InputKind::Dump;
    }
    InputKind::Lines
}

/// Whether an entry is the descriptor of a batch.
fn is_batch(entry: &[u8; 64]) -> bool
    ensures { result ≡ is_batch entry.now }
{
    u32_at(entry, 4) >> 24 == 1
}

/// Whether bytes are those of a recording: some entry of 64 bytes is a batch, which no list has.
pub fn has_batch(bytes: &[u8]) -> bool
    ensures { result ≡ has_batch bytes.now }
{
    let (all, _) = bytes.as_chunks::<64>();
    all.iter().any(is_batch)
}

/// A text that begins as lines of operations do is taken as lines, whatever comes after.
#[tactic(auto, unfolding(crate::specs::Forms::is_word_of_digits))]
pub fn lines_are_lines()
    ensures { LinesAreLines }
{}

/// Inputs of each kind.
#[tactic(auto, unfolding(crate::specs::Forms::is_word_of_digits))]
pub fn sample_kinds()
    ensures { SampleKinds }
{}
