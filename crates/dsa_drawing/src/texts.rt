//! Words in a picture: as long as there is room, and with the signs that SVG has a meaning for spelled out.

use std::alloc::{AllocError, Global};

/// The size of letters.
pub(crate) const SIZE: usize = 11;

/// The smallest size of letters.
const SMALLEST: usize = 6;

/// The most lines of a name.
const MOST_LINES: usize = 4;

/// How many letters of this size are so wide; a letter is 3/5 of its size wide.
pub(crate) fn letters_in(width: usize, size: usize) -> usize {
    width.saturating_mul(5) / size.saturating_mul(3).max(1)
}

/// How many letters a text has.
pub(crate) fn letters_of(words: &str) -> usize {
    words.chars().count()
}

/// The size of letters at which a text fits into a width, if one is small enough.
pub(crate) fn letter_size(words: &str, width: usize) -> usize {
    let letters = letters_of(words).max(1);
    (width.saturating_mul(5) / 3 / letters).clamp(SMALLEST, SIZE)
}

/// Writes a letter, spelled out if SVG has a meaning for it, or a blank for one that can't be seen.
fn push_letter(svg: &mut String, letter: char) -> Result<(), AllocError> {
    match letter {
        '&' => svg.push_str("&amp;"),
        '<' => svg.push_str("&lt;"),
        '>' => svg.push_str("&gt;"),
        '\u{fffe}' | '\u{ffff}' => svg.push(' '),
        _ if letter.is_control() => svg.push(' '),
        _ => svg.push(letter),
    }
}

/// Writes a text, with the signs of SVG spelled out.
pub(crate) fn push_escaped(svg: &mut String, words: &str) -> Result<(), AllocError> {
    for letter in words.chars() {
        push_letter(svg, letter)?;
    }
    Ok(())
}

/// Writes the first letters of a text, of which the last is an ellipsis if there are more.
pub(crate) fn push_cut(svg: &mut String, words: &str, most: usize) -> Result<(), AllocError> {
    if letters_of(words) <= most {
        return push_escaped(svg, words);
    }
    for letter in words.chars().take(most.saturating_sub(1)) {
        push_letter(svg, letter)?;
    }
    svg.push('…')
}

/// Adds a word to the last line, or to one of its own if the last has no room for it; or an ellipsis, if there are too
/// many lines. Answers whether there was room.
fn add_word(
    alloc: Global,
    lines: &mut Vec<String>,
    word: &str,
    letters: usize,
) -> Result<bool, AllocError> {
    let is_last = lines.len() >= MOST_LINES;
    if let Some(last) = lines.last_mut() {
        let both = letters_of(last.as_str()).saturating_add(letters_of(word));
        if both < letters {
            write!(last, " {word}")?;
            return Ok(true);
        }
        if is_last {
            last.push('…')?;
            return Ok(false);
        }
    }
    lines.push(String::from_str(alloc, word)?)?;
    Ok(true)
}

/// The lines of a text, each at most so wide if its words are; the last ends in an ellipsis if there are too many.
pub(crate) fn wrapped(
    alloc: Global,
    words: &str,
    letters: usize,
) -> Result<Vec<String>, AllocError> {
    let mut lines = Vec::new(alloc);
    for word in words.split(' ') {
        if !word.is_empty() && !add_word(alloc, &mut lines, word, letters)? {
            break;
        }
    }
    Ok(lines)
}
