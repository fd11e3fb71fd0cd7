//! Numbers and patterns as words.

ghost use Rattle.std.specs.Prelude.{◌≡◌, ◌≤◌};
ghost use Rattle.dsa_lines.specs.Numbers.{numeral, number_of, pattern_of, scaled, size_of};

/// The number that the digits write in the base.
#[tactic(auto, unfolding(crate::specs::Numbers::numeral_after))]
pub fn numeral(digits: &[u8], base: u32) -> Option<u64>
    requires low { 2 ≤ base }
    requires high { base ≤ 16 }
    ensures { result ≡ numeral base digits.now }
{
    if digits.is_empty() {
        return None;
    }
    let mut value: u64 = 0;
    let mut rest = digits;
    while let [first, after @ ..] = rest {
        let Some(digit) = (*first as char).to_digit(base) else {
            return None;
        };
        let next = u128::from(value) * u128::from(base) + u128::from(digit);
        let Ok(next) = u64::try_from(next) else {
            return None;
        };
        value = next;
        rest = after;
    }
    Some(value)
}

/// The number that a word spells: decimal, or hexadecimal after `0x`.
pub fn number_of(word: &[u8]) -> Option<u64>
    ensures { result ≡ number_of word.now }
{
    if let [first, second, digits @ ..] = word {
        if *first == b'0' && *second == b'x' {
            return numeral(digits, 16);
        }
    }
    numeral(word, 10)
}

/// So many times a number, if it is below 2^64.
fn scaled(unit: u64, count: Option<u64>) -> Option<u64>
    ensures { result ≡ scaled unit count }
{
    count?.checked_mul(unit)
}

/// The number of bytes that a word spells: `K` or `M` after a number stands for 1,024 or 1,048,576 of them.
#[tactic(auto, unfolding(crate::specs::Numbers::size_of))]
pub fn size_of(word: &[u8]) -> Option<u64>
    ensures { result ≡ size_of word.now }
{
    if word.is_empty() {
        return None;
    }
    let end = word.len() - 1;
    match word[end] {
        b'K' => scaled(1_024, number_of(&word[..end])),
        b'M' => scaled(1_048_576, number_of(&word[..end])),
        _ => number_of(word),
    }
}

/// The pattern that a word of 16 hexadecimal digits spells, the lowest byte first.
#[tactic(auto, unfolding(crate::specs::Numbers::pattern_of))]
pub(crate) fn pattern_of(word: &[u8]) -> Option<u64>
    ensures { result ≡ pattern_of word.now }
{
    let mut bytes = [0; 8];
    match hex::decode_to_slice(word, &mut bytes) {
        Ok(()) => Some(u64::from_le_bytes(bytes)),
        Err(_) => None,
    }
}
