//! Settings, from arguments and as the member of a job.

ghost use Rattle.std.specs.Prelude.{◌≡◌, IfOk, MatchOption, None, Some, option_map};
ghost use Rattle.dsa_advice.specs.declared.settings.SpelledNumbers.{SpelledNumbers};
ghost use Rattle.dsa_advice.specs.Numbers.{numbers_of};
ghost use Rattle.dsa_advice.specs.SettingsWords.{AreNumbers, GivesSettings};

use crate::numbers::{number_of, numbers_of, size_of};
use dsa_plan::{Setting, Settings};
use std::alloc::{AllocError, Global};

/// The settings as arguments spell them.
#[derive(Clone, Copy)]
pub struct SettingsWords<'a> {
    /// The greatest number of pieces of a batch.
    pub greatest_batch: &'a str,
    /// The greatest number of bytes of a piece.
    pub greatest_transfer: &'a str,
    /// The price of a piece by itself.
    pub lone: &'a str,
    /// The price of each batch, in version 1.
    pub batch: &'a str,
    /// The prices of batches by their size, with commas between, in version 2.
    pub batches: Option<&'a str>,
    /// The price of a fence in a batch.
    pub fence: &'a str,
    /// The address of the staging area.
    pub staging: &'a str,
}

/// The settings, in the order of the options; the first of them that is outside its limits is named.
pub(crate) const SETTINGS: [Setting; 6] = [
    Setting::GreatestBatch,
    Setting::GreatestTransfer,
    Setting::Lone,
    Setting::Batch,
    Setting::Fence,
    Setting::Staging,
];

/// The name of a setting among the options.
fn option_of(setting: Setting) -> &'static str {
    match setting {
        Setting::GreatestBatch => "greatest-batch",
        Setting::GreatestTransfer => "greatest-transfer",
        Setting::Lone => "lone",
        Setting::Fence => "fence",
        Setting::Staging => "staging",
        Setting::Batch => "batch",
    }
}

/// The name of a setting in a job.
pub(crate) fn member_of(setting: Setting) -> &'static str {
    match setting {
        Setting::GreatestBatch => "greatest_batch",
        Setting::GreatestTransfer => "greatest_transfer",
        Setting::Lone => "lone",
        Setting::Fence => "fence",
        Setting::Staging => "staging",
        Setting::Batch => "batch",
    }
}

/// What a setting has to be, after "a".
pub fn limits_of(setting: Setting) -> &'static str {
    match setting {
        Setting::GreatestBatch => "number from 2 to 1024",
        Setting::GreatestTransfer => "multiple of 8 from 8 to 2147483648 (2048M)",
        Setting::Lone | Setting::Fence | Setting::Batch => "number from 0 to 1000000000",
        Setting::Staging => "multiple of 64 from 0 to 0x8000000000000000",
    }
}

/// The word that spells a setting.
fn word_of<'a>(setting: Setting, words: &SettingsWords<'a>) -> &'a str {
    match setting {
        Setting::GreatestBatch => words.greatest_batch,
        Setting::GreatestTransfer => words.greatest_transfer,
        Setting::Lone => words.lone,
        Setting::Fence => words.fence,
        Setting::Staging => words.staging,
        Setting::Batch => words.batch,
    }
}

/// The number that the word of a setting spells; a K or an M may follow a size.
fn read(setting: Setting, word: &str) -> Option<u64> {
    match setting {
        Setting::GreatestTransfer => size_of(word),
        Setting::GreatestBatch
        | Setting::Lone
        | Setting::Fence
        | Setting::Staging
        | Setting::Batch => number_of(word),
    }
}

/// Whether the word ends in letters that no size has, as `1G` or `4KB`.
fn has_other_unit(word: &str) -> bool {
    match word.as_bytes() {
        [] | [b'0', b'x', ..] | [.., b'K' | b'M'] => false,
        [.., last] => last.is_ascii_alphabetic(),
    }
}

/// What helps with a word of a setting: how a size is written, if this is none.
fn hint_of(setting: Setting, word: &str) -> &'static str {
    match setting {
        Setting::GreatestTransfer if has_other_unit(word) => "; a size is written as 64, 4K or 2M",
        Setting::GreatestTransfer
        | Setting::GreatestBatch
        | Setting::Lone
        | Setting::Fence
        | Setting::Staging
        | Setting::Batch => "",
    }
}

/// What is wrong with a number of the table of prices, or how many there have to be.
fn table_fault(
    alloc: Global,
    words: &SettingsWords<'_>,
    batches: &str,
) -> Result<String, AllocError> {
    let mut count: u64 = 0;
    for word in batches.split(',') {
        if !number_of(word).is_some_and(|number| Setting::Batch.allows(number)) {
            let limits = limits_of(Setting::Batch);
            return format!(in alloc; "--batches: '{word}' is no {limits}");
        }
        count = count.saturating_add(1);
    }
    let greatest = number_of(words.greatest_batch).unwrap_or(2);
    let needed = greatest.saturating_sub(1);
    format!(in alloc;
        "--batches: {count} prices, {needed} are needed for batches of up to {greatest}"
    )
}

/// What is wrong with the settings that the words spell.
pub fn settings_fault(alloc: Global, words: &SettingsWords<'_>) -> Result<String, AllocError> {
    for setting in SETTINGS {
        let word = word_of(setting, words);
        if !read(setting, word).is_some_and(|number| setting.allows(number)) {
            let (option, limits) = (option_of(setting), limits_of(setting));
            let hint = hint_of(setting, word);
            return format!(in alloc; "--{option}: '{word}' is no {limits}{hint}");
        }
    }
    table_fault(alloc, words, words.batches.unwrap_or(""))
}

/// The numbers that the words of settings spell, but for the prices of batches.
#[derive(Clone, Copy)]
struct SpelledNumbers {
    greatest_batch: u64,
    greatest_transfer: u64,
    lone: u64,
    fence: u64,
    staging: u64,
}

/// The numbers that the words spell, if each spells one.
fn numbers_of_settings(words: &SettingsWords<'_>) -> Option<SpelledNumbers>
    ensures { MatchOption result ((n : SpelledNumbers) → ¬ AreNumbers words.now n)
        (AreNumbers words.now) }
{
    Some(SpelledNumbers {
        greatest_batch: number_of(words.greatest_batch)?,
        greatest_transfer: size_of(words.greatest_transfer)?,
        lone: number_of(words.lone)?,
        fence: number_of(words.fence)?,
        staging: number_of(words.staging)?,
    })
}

/// The settings with one price for all batches.
fn with_price(words: &SettingsWords<'_>) -> Option<Settings>
    requires { words.now.batches ≡ None }
    ensures { GivesSettings words.now result }
{
    let Some(n) = numbers_of_settings(words) else {
        return None;
    };
    let Some(price) = number_of(words.batch) else {
        return None;
    };
    match Settings::new(
        n.greatest_batch,
        n.greatest_transfer,
        n.lone,
        price,
        n.fence,
        n.staging,
    ) {
        Ok(settings) => Some(settings),
        Err(_) => None,
    }
}

/// The settings with a price for each size of batches.
fn with_table(words: &SettingsWords<'_>, batches: &str, table: &[u64]) -> Option<Settings>
    requires given { option_map (λ word. word.now) words.now.batches ≡ Some batches.now }
    requires spelled { numbers_of batches.now ≡ Some table.now }
    ensures { GivesSettings words.now result }
{
    let Some(n) = numbers_of_settings(words) else {
        return None;
    };
    match Settings::with_table(
        n.greatest_batch,
        n.greatest_transfer,
        n.lone,
        table,
        n.fence,
        n.staging,
    ) {
        Ok(settings) => Some(settings),
        Err(_) => None,
    }
}

/// The settings that the words spell, if each is a number within its limits.
pub fn settings_of(alloc: Global, words: &SettingsWords<'_>) -> Result<Option<Settings>, AllocError>
    ensures { IfOk result (GivesSettings words.now) }
{
    let Some(batches) = words.batches else {
        return Ok(with_price(words));
    };
    let Some(table) = numbers_of(alloc, batches)? else {
        return Ok(None);
    };
    Ok(with_table(words, batches, &table))
}

/// Writes the prices of batches as a job has them.
fn push_batch(alloc: Global, text: &mut String, settings: &Settings) -> Result<(), AllocError> {
    let Some(table) = settings.table() else {
        let price = settings.price(2);
        return text.push_str(&format!(in alloc; "{price}")?);
    };
    let mut before = "[";
    for price in table {
        text.push_str(&format!(in alloc; "{before}{price}")?)?;
        before = ",";
    }
    text.push_str("]")
}

/// Writes the settings as a job has them.
pub fn push_settings(
    alloc: Global,
    text: &mut String,
    settings: &Settings,
) -> Result<(), AllocError> {
    let (version, greatest_batch) = (settings.version(), settings.greatest_batch());
    let (greatest_transfer, lone) = (settings.greatest_transfer(), settings.lone());
    let (fence, staging) = (settings.fence(), settings.staging());
    text.push_str("{\"version\":")?;
    text.push_str(&format!(in alloc; "{version},\"greatest_batch\":{greatest_batch}")?)?;
    text.push_str(&format!(in alloc; ",\"greatest_transfer\":{greatest_transfer}")?)?;
    text.push_str(&format!(in alloc; ",\"lone\":{lone},\"batch\":")?)?;
    push_batch(alloc, text, settings)?;
    text.push_str(&format!(in alloc; ",\"fence\":{fence},\"staging\":{staging}")?)?;
    text.push_str("}")
}
