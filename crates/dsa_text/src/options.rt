//! The options of settings, as they were given.

ghost use Rattle.std.specs.Prelude.{◌≡◌, ◌↔◌, ◌⊎◌, IsTrue};
ghost use Rattle.clap.specs.Words.{first_value, found_of};
ghost use Rattle.dsa_text.specs.Options.{ArePricesGiven, AreSettingsGiven, AreSizesGiven, AreWords, IsGiven, number_or, range_of, word_of};

use clap::ArgMatches;
use clap::parser::ValueSource;
use dsa_advice::{SettingsWords, number_of};
use dsa_explain::PieceRange;

/// Whether an option was given.
fn is_given(matches: &ArgMatches<'_>, name: &str) -> bool
    ensures { IsTrue result ↔ IsGiven matches.now name.now }
{
    matches.value_source(name) == Some(ValueSource::CommandLine)
}

/// Whether one of two options was given.
pub(crate) fn is_either_given(matches: &ArgMatches<'_>, first: &str, second: &str) -> bool
    ensures { IsTrue result ↔ (IsGiven matches.now first.now ⊎ IsGiven matches.now second.now) }
{
    if is_given(matches, first) {
        return true;
    }
    is_given(matches, second)
}

/// Whether an option of sizes or of the staging area was given.
fn are_sizes_given(matches: &ArgMatches<'_>) -> bool
    ensures { IsTrue result ↔ AreSizesGiven matches.now }
{
    if is_either_given(matches, "greatest-batch", "greatest-transfer") {
        return true;
    }
    is_given(matches, "staging")
}

/// Whether an option of prices was given.
fn are_prices_given(matches: &ArgMatches<'_>) -> bool
    ensures { IsTrue result ↔ ArePricesGiven matches.now }
{
    if is_either_given(matches, "lone", "fence") {
        return true;
    }
    is_either_given(matches, "batch", "batches")
}

/// Whether some option of the settings was given.
pub(crate) fn are_settings_given(matches: &ArgMatches<'_>) -> bool
    ensures { IsTrue result ↔ AreSettingsGiven matches.now }
{
    if are_sizes_given(matches) {
        return true;
    }
    are_prices_given(matches)
}

/// The value of an option.
pub(crate) fn word<'a>(matches: &ArgMatches<'a>, name: &str) -> &'a str
    ensures { result.now ≡ word_of matches.now name.now }
{
    match matches.get_str(name) {
        Some(word) => word,
        None => "",
    }
}

/// The settings as the options spell them.
pub(crate) fn settings_words<'a>(matches: &ArgMatches<'a>) -> SettingsWords<'a>
    ensures { AreWords matches.now result }
{
    SettingsWords {
        greatest_batch: word(matches, "greatest-batch"),
        greatest_transfer: word(matches, "greatest-transfer"),
        lone: word(matches, "lone"),
        batch: word(matches, "batch"),
        batches: matches.get_str("batches"),
        fence: word(matches, "fence"),
        staging: word(matches, "staging"),
    }
}

/// The number that the value of an option spells; without the option this one.
fn number_or(matches: &ArgMatches<'_>, name: &str, default: u64) -> Option<u64>
    ensures { result ≡ number_or default (first_value (found_of matches.now) name.now) }
{
    match matches.get_str(name) {
        Some(word) => number_of(word),
        None => Some(default),
    }
}

/// The pieces that `--from` and `--to` name, if the first is not after the last.
pub(crate) fn range_of(matches: &ArgMatches<'_>) -> Option<PieceRange>
    ensures { result ≡ range_of matches.now }
{
    let Some(first) = number_or(matches, "from", 0) else {
        return None;
    };
    let Some(last) = number_or(matches, "to", u64::MAX) else {
        return None;
    };
    if first <= last {
        Some(PieceRange { first, last })
    } else {
        None
    }
}
