//! Numbers in arguments.

ghost use Rattle.std.specs.Prelude.{◌≡◌, ◌==◌, IfOk, map, option_map};
ghost use Rattle.std.specs.List.{slice_split};
ghost use Rattle.dsa_lines.specs.Numbers.{number_of, size_of};
ghost use Rattle.dsa_advice.specs.Numbers.{all_of, numbers_of};

use std::alloc::{AllocError, Global};

/// A number in decimal, or in hexadecimal after `0x`.
pub fn number_of(word: &str) -> Option<u64>
    ensures { result ≡ number_of word.now }
{
    dsa_lines::number_of(word.as_bytes())
}

/// A number of bytes: `K` after it means 1,024 and `M` 1,048,576 of them.
pub(crate) fn size_of(word: &str) -> Option<u64>
    ensures { result ≡ size_of word.now }
{
    dsa_lines::size_of(word.as_bytes())
}

/// The parts of a word between commas.
pub fn parts_of<'a>(alloc: Global, word: &'a str) -> Result<Vec<&'a str>, AllocError>
    ensures { IfOk result
        (λ parts. map (λ part. part.now) parts.items ≡ slice_split (λ c. c == 44) word.now) }
{
    word.split(',').collect(alloc)
}

/// The numbers that words spell, if each spells one.
fn numbers_in(alloc: Global, words: &[&str]) -> Result<Option<Vec<u64>>, AllocError>
    ensures { IfOk result (λ found. option_map (λ numbers. numbers.items) found ≡
        all_of (map (λ word. number_of word.now) words.now)) }
{
    let mut numbers = Vec::new(alloc);
    for word in words {
        let Some(number) = number_of(word) else {
            return Ok(None);
        };
        numbers.push(number)?;
    }
    Ok(Some(numbers))
}

/// Numbers with commas between.
pub fn numbers_of(alloc: Global, word: &str) -> Result<Option<Vec<u64>>, AllocError>
    ensures { IfOk result (λ found. option_map (λ numbers. numbers.items) found ≡
        numbers_of word.now) }
{
    let parts = parts_of(alloc, word)?;
    numbers_in(alloc, &parts)
}
