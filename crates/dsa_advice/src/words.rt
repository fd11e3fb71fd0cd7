//! The word at a place of a text, and what helps if another was expected.

use dsa_descriptor::{FieldFault, ListFault};
use dsa_forms::{InputKind, kind_of};
use dsa_lines::Expected;
use std::alloc::{AllocError, Global};

/// The most bytes of a word that a message shows.
const MOST_SHOWN: usize = 40;

/// The bytes of a byte order mark.
const MARK: [u8; 3] = [0xef, 0xbb, 0xbf];

/// Whether the byte parts words of a line, or begins a comment.
fn is_between(byte: u8) -> bool {
    matches!(byte, b' ' | b'\t' | b'\r' | b',' | b'#')
}

/// The line of this number, from 1 on.
pub(crate) fn line_at(text: &[u8], line: usize) -> &[u8] {
    text.split(|byte| *byte == b'\n')
        .nth(line.saturating_sub(1))
        .unwrap_or(&[])
}

/// What is at a column of a line, both from 1 on: a word, a comma, or nothing at the end of the line.
pub(crate) fn word_at(text: &[u8], line: usize, column: usize) -> &[u8] {
    let rest = line_at(text, line)
        .get(column.saturating_sub(1)..)
        .unwrap_or(&[]);
    if let [b',', ..] = rest {
        return &rest[..1];
    }
    rest.split(|byte| is_between(*byte)).next().unwrap_or(&[])
}

/// The first word of a line from this column on, and its own column, both from 1 on; none if no word is left.
pub(crate) fn word_from(line: &[u8], column: usize) -> Option<(usize, &[u8])> {
    let rest = line.get(column.saturating_sub(1)..)?;
    let blanks = rest.iter().take_while(|byte| is_between(**byte)).count();
    let word = rest.get(blanks..)?.split(|byte| is_between(*byte)).next()?;
    if word.is_empty() {
        return None;
    }
    Some((column.saturating_add(blanks), word))
}

/// The column of the word of this name in a line, or of the one after it.
fn column_of(line: &[u8], name: &[u8], is_after: bool) -> Option<usize> {
    let mut from: usize = 1;
    let mut is_named = false;
    for _ in 0..line.len() {
        let (column, word) = word_from(line, from)?;
        if is_named || (word == name && !is_after) {
            return Some(column);
        }
        is_named = word == name;
        from = column.saturating_add(word.len());
    }
    None
}

/// The column of the word that is at fault in an operation's line, if there is such a word.
pub(crate) fn column_at_fault(text: &[u8], line: usize, fault: ListFault) -> Option<usize> {
    let line = line_at(text, line);
    match fault {
        ListFault::Field(_, FieldFault::FlagBits) => column_of(line, b"check".as_slice(), false),
        ListFault::Field(_, FieldFault::RecordAlign) => column_of(line, b"record".as_slice(), true),
        ListFault::MixedPasid(_) => column_of(line, b"pasid".as_slice(), true),
        ListFault::Field(
            _,
            FieldFault::Opcode
            | FieldFault::Reserved
            | FieldFault::SizeZero
            | FieldFault::Wrap
            | FieldFault::DualcastBits
            | FieldFault::Overlap
            | FieldFault::Delta
            | FieldFault::Expected
            | FieldFault::RecordMeetsData,
        )
        | ListFault::Length
        | ListFault::Memory => None,
    }
}

/// Whether a word that is this text is printed as it is: a short one of signs that can be seen.
fn is_shown(word: &[u8], shown: &str) -> bool {
    word.len() <= MOST_SHOWN && !word.starts_with(&MARK) && !shown.chars().any(char::is_control)
}

/// Writes a word: a text as it is, up to 40 bytes, other bytes by their numbers; after what is cut two points.
pub(crate) fn push_shown(alloc: Global, text: &mut String, word: &[u8]) -> Result<(), AllocError> {
    match str::from_utf8(word) {
        Ok(shown) if is_shown(word, shown) => text.push_str(shown)?,
        Ok(_) | Err(_) => push_bytes(alloc, text, word)?,
    }
    if word.len() > MOST_SHOWN {
        text.push_str("..")?;
    }
    Ok(())
}

/// Writes what was found at a place, in quotes.
pub(crate) fn push_found(alloc: Global, text: &mut String, word: &[u8]) -> Result<(), AllocError> {
    if word.is_empty() {
        return text.push_str("the end of the line");
    }
    text.push_str("'")?;
    push_shown(alloc, text, word)?;
    text.push_str("'")
}

/// Writes the first bytes of a word: those of a character in ASCII as it, others by their numbers.
fn push_bytes(alloc: Global, text: &mut String, word: &[u8]) -> Result<(), AllocError> {
    for byte in word.iter().take(MOST_SHOWN) {
        if byte.is_ascii_graphic() {
            text.push(*byte as char)?;
        } else {
            text.push_str(&format!(in alloc; "\\x{byte:02x}")?)?;
        }
    }
    Ok(())
}

/// Whether an arrow is next to something else without a blank.
fn has_tight_arrow(word: &[u8]) -> bool {
    word.len() > 2 && word.windows(2).any(|pair| matches!(pair, [b'-', b'>']))
}

/// Whether all bytes are hexadecimal digits, and some is a letter.
fn is_hexadecimal(word: &[u8]) -> bool {
    word.iter().all(u8::is_ascii_hexdigit) && word.iter().any(u8::is_ascii_alphabetic)
}

/// What helps if a number was expected.
fn hint_of_number(word: &[u8]) -> Option<&'static str> {
    if word.contains(&b'_') {
        return Some("digits without separators, as 262144");
    }
    if is_hexadecimal(word) {
        return Some("0x before hexadecimal digits");
    }
    match word {
        [b'0', b'X', ..] | [b'0'..=b'9', .., b'h' | b'H'] => Some("0x before hexadecimal digits"),
        [b'0'..=b'9', .., b'k' | b'm'] => Some("K and M are capitals"),
        [b'0'..=b'9', .., b'K' | b'M'] => Some("K and M are for sizes"),
        [b'0'..=b'9', .., b's'] => Some("a blank before `bytes`"),
        _ => None,
    }
}

/// What helps if a size was expected.
fn hint_of_size(word: &[u8]) -> Option<&'static str> {
    match word {
        [b'0'..=b'9', .., b'K' | b'M'] => None,
        [b'0'..=b'9', .., b'B' | b'b' | b'G' | b'g'] => {
            Some("a size is written as 64 bytes, 4K bytes or 2M bytes")
        }
        _ => hint_of_number(word),
    }
}

/// What helps if `bytes` was expected.
fn hint_of_bytes(word: &[u8]) -> Option<&'static str> {
    match word {
        b"," => Some("`bytes` comes after each size, whose digits have no separators"),
        b"K" | b"KB" | b"kB" | b"KiB" | b"M" | b"MB" | b"MiB" | b"G" | b"GB" | b"GiB" => {
            Some("4 KiB is 4K bytes, or 4096 bytes")
        }
        _ => Some("`bytes` comes after each size, of 1 too"),
    }
}

/// The words that a line begins with.
const WORDS: [&[u8]; 9] = [
    b"move",
    b"fill",
    b"compare",
    b"delta",
    b"dualcast",
    b"crc",
    b"copy_crc",
    b"barrier",
    b"batch",
];

/// Other words for operations, and what helps.
const OTHERS: [(&[u8], &str); 17] = [
    (b"memcpy", COPIES),
    (b"memmove", COPIES),
    (b"copy", COPIES),
    (b"memset", FILLS),
    (b"set", FILLS),
    (b"memcmp", COMPARES),
    (b"cmp", COMPARES),
    (b"wait", WAITS),
    (b"sync", WAITS),
    (b"nop", NO_LIST),
    (b"noop", NO_LIST),
    (b"drain", NO_LIST),
    (b"crc32", CHECKSUMS),
    (b"crc32c", CHECKSUMS),
    (b"checksum", CHECKSUMS),
    (b"dif", NO_LIST),
    (b"flush", NO_LIST),
];

const COPIES: &str = "`move` copies bytes";

const FILLS: &str = "`fill` writes a pattern";

const COMPARES: &str = "`compare` compares bytes";

const WAITS: &str = "a line `barrier` makes what comes after it wait";

const CHECKSUMS: &str = "`crc` makes a checksum, `copy_crc` copies the bytes, too";

const NO_LIST: &str = "a list has moves, fills, compares, deltas, dualcasts and checksums alone";

/// What helps for a word that is one of others, in letters of either case.
fn hint_of_other(word: &[u8]) -> Option<&'static str> {
    for (other, hint) in OTHERS {
        if word.eq_ignore_ascii_case(other) {
            return Some(hint);
        }
    }
    None
}

/// The fewest digits that a dump begins with.
const LEAST_DUMPED: usize = 8;

/// What helps for a line of a dump. A word of few digits may be another.
fn hint_of_dump(line: &[u8]) -> Option<&'static str> {
    let Some(digits) = line.trim_ascii().get(..LEAST_DUMPED) else {
        return None;
    };
    if digits.iter().all(u8::is_ascii_hexdigit) {
        Some("a dump of bytes, which explain and disassemble read if only blanks are before it")
    } else {
        None
    }
}

/// What helps for a line, or its first word, that is none of a text of operations but one of bytes, a dump, or JSON.
pub(crate) fn other_than_lines(line: &[u8]) -> Option<&'static str> {
    match kind_of(line) {
        InputKind::Bytes => Some("bytes, which explain and disassemble read"),
        InputKind::Job => Some("a job, which explain reads if only blanks are before it"),
        InputKind::Dump => hint_of_dump(line),
        InputKind::Lines => match line.trim_ascii() {
            [b'[', ..] => Some("a plan, which a job to judge has beside its list"),
            _ => None,
        },
    }
}

/// What helps if an operation was expected.
fn hint_of_operation(word: &[u8]) -> Option<&'static str> {
    match word {
        [] => return Some(WAITS),
        [b'/', b'/', ..] | [b';', ..] => return Some("a comment begins with #"),
        b"unknown" => return Some("an entry that is no listed descriptor, so it can't be planned"),
        _ => {}
    }
    if let Some(hint) = other_than_lines(word) {
        return Some(hint);
    }
    let is_upper = word.iter().any(|byte| byte.is_ascii_uppercase());
    if is_upper && WORDS.iter().any(|known| word.eq_ignore_ascii_case(known)) {
        return Some("in lower case");
    }
    hint_of_other(word)
}

/// What helps if an option was expected.
fn hint_of_option(word: &[u8]) -> &'static str {
    match word {
        b"fence" => "a line `barrier` makes what comes after it wait; the plan sets other fences",
        b"barrier" => "a barrier is a line of its own",
        _ => "each comes once",
    }
}

/// What helps if flags were expected.
fn hint_of_flags(word: &[u8]) -> Option<&'static str> {
    match word {
        b"0x1" | b"0x0001" | b"1" => Some("a line `barrier` makes what comes after it wait"),
        b"0x80" | b"0x0080" | b"128" => Some("the option `check` checks a result"),
        b"0x4" | b"0x8" | b"0xc" | b"0x000c" | b"12" => Some("a record is always requested"),
        _ => Some("block on fault is 0x0002"),
    }
}

/// What helps if a comma, or the end of the line, was expected.
fn hint_of_comma(word: &[u8]) -> Option<&'static str> {
    match word {
        [] => Some("`, record ADDRESS` follows: of 32 bytes, at a multiple of 32"),
        [b'/', b'/', ..] | [b';', ..] => Some("a comment begins with #"),
        _ => None,
    }
}

/// What helps if something else was expected than this word.
pub(crate) fn hint_of(word: &[u8], expected: Expected) -> Option<&'static str> {
    if word.starts_with(&MARK) {
        return Some("a byte order mark: save the text without one");
    }
    if has_tight_arrow(word) {
        return Some("blanks before and after ->");
    }
    match expected {
        Expected::Number | Expected::NumberOrPattern => hint_of_number(word),
        Expected::Size => hint_of_size(word),
        Expected::Pattern => Some("byte 0 first, as 0102030405060708"),
        Expected::Bytes => hint_of_bytes(word),
        Expected::Option => Some(hint_of_option(word)),
        Expected::Operation => hint_of_operation(word),
        Expected::Comma | Expected::CommaOrEnd => hint_of_comma(word),
        Expected::Expect => Some("`expect 0` if they should be equal, else `expect 1`"),
        Expected::Record => Some("`record ADDRESS`: of 32 bytes, at a multiple of 32"),
        Expected::Seed => Some(
            "`seed 0` begins a checksum, `seed at ADDRESS` goes on from four bytes",
        ),
        Expected::Flags => hint_of_flags(word),
        Expected::Pasid
        | Expected::Handle
        | Expected::Bit
        | Expected::Arrow
        | Expected::With
        | Expected::And
        | Expected::Of
        | Expected::At
        | Expected::End => None,
    }
}
