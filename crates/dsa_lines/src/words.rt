//! The words of a line.

ghost use Rattle.std.specs.Prelude.{◌≡◌, ◌<◌, ◌≤◌, ◌↔◌, length, slice_index_or, [], true, false, IsTrue};
ghost use Rattle.dsa_lines.specs.Words.{is_in_word, is_blank, begins_blank, word_len, words_in, words_of};
ghost use Rattle.dsa_lines.specs.Views.{first_word};

/// Whether the byte parts words.
fn is_blank(byte: u8) -> bool
    ensures { result ≡ is_blank byte }
{
    byte == b' ' || byte == b'\t' || byte == b'\r'
}

/// Whether the byte is of a word.
fn is_in_word(byte: u8) -> bool
    ensures { result ≡ is_in_word byte }
{
    !(is_blank(byte) || byte == b',' || byte == b'\n' || byte == b'#')
}

/// The text without the blanks that it begins with.
#[tactic(auto, unfolding(crate::specs::Words::words_in))]
pub(crate) fn skip_blanks(text: &[u8]) -> &[u8]
    ensures words { words_of result.now ≡ words_of text.now }
    ensures start { begins_blank result.now ≡ false }
{
    let mut rest = text;
    while let [first, after @ ..] = rest {
        if !is_blank(*first) {
            return rest;
        }
        rest = after;
    }
    rest
}

/// What comes after the comment that the text begins in: its newline first, or nothing.
#[tactic(auto, unfolding(crate::specs::Words::words_in))]
fn after_comment(text: &[u8]) -> &[u8]
    ensures words { words_of result.now ≡ words_in true text.now }
    ensures newline { 0 < length result.now → slice_index_or result.now 0 0 ≡ 10 }
{
    let mut rest = text;
    while let [first, after @ ..] = rest {
        if *first == b'\n' {
            return rest;
        }
        rest = after;
    }
    rest
}

/// How many bytes the word at the front has.
fn word_len(text: &[u8]) -> usize
    ensures value { result ≡ word_len text.now }
    ensures bound { result ≤ length text.now }
{
    let mut len: usize = 0;
    let mut rest = text;
    while let [first, after @ ..] = rest {
        if !is_in_word(*first) {
            return len;
        }
        len += 1;
        rest = after;
    }
    len
}

/// The first word of the text, and what follows it.
pub(crate) fn next_word(text: &[u8]) -> Option<(&[u8], &[u8])>
    ensures { words_of text.now ≡ first_word result }
{
    let text = skip_blanks(text);
    if text.is_empty() {
        return None;
    }
    let first = text[0];
    if first == b'#' {
        let rest = after_comment(text);
        if rest.is_empty() {
            return None;
        }
        return Some(rest.split_at(1));
    }
    if first == b',' {
        return Some(text.split_at(1));
    }
    if first == b'\n' {
        return Some(text.split_at(1));
    }
    Some(text.split_at(word_len(text)))
}

/// Whether the text has no word.
pub(crate) fn is_over(text: &[u8]) -> bool
    ensures { IsTrue result ↔ (words_of text.now ≡ []) }
{
    match next_word(text) {
        Some(_) => false,
        None => true,
    }
}
