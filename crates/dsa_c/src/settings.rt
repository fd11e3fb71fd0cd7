//! The settings, as C lays them out.

ghost use Rattle.std.specs.Prelude.{◌≡◌, ◌↔◌, ◌⊎◌, ◌<◌, ℕ, IsTrue, List, MatchOption, MatchResult};
ghost use Rattle.dsa_settings.specs.Outside.{IsFirstOutside};
ghost use Rattle.dsa_c.specs.Raw.{limits_of, setting_number, staged_at, AreSettings, HaveLimits, IsOutside, RefusesSettings};

use crate::refusal::{RawRefusal, refusal_at};
use dsa_calls::PlanFault;
use dsa_settings::{Setting, Settings, SettingsFault, are_batch_prices, outside_limits};

/// `struct dsa_settings`.
#[repr(C)]
#[derive(Clone, Copy)]
pub struct RawSettings {
    /// 1, or 2 if a table has the prices of batches.
    pub version: u64,
    /// The greatest number of pieces of a batch.
    pub greatest_batch: u64,
    /// The greatest number of bytes of a piece.
    pub greatest_transfer: u64,
    /// The price of a piece by itself.
    pub lone: u64,
    /// The price of a batch, without its fences, in version 1.
    pub batch: u64,
    /// The price of each fence.
    pub fence: u64,
    /// The address where the staging bytes will be.
    pub staging: u64,
}

/// The settings of numbers of version 1, if they are in their limits.
/// Inlined, so that the result, which is large, is built in the caller's frame.
#[inline(always)]
pub(crate) fn same_price(raw: &RawSettings) -> Result<Settings, SettingsFault>
    requires { raw.now.version ≡ 1 }
    ensures { (table : List ℕ) → MatchResult result (λ l. (l ≡ limits_of raw.now table) ×
        AreSettings raw.now table) (λ _. ¬ AreSettings raw.now table) }
{
    Settings::new(
        raw.greatest_batch,
        raw.greatest_transfer,
        raw.lone,
        raw.batch,
        raw.fence,
        raw.staging,
    )
}

/// The settings of numbers of version 2, whose table has the price of a batch by its size, if they are in their limits.
#[inline(always)]
pub(crate) fn by_size(raw: &RawSettings, table: &[u64]) -> Result<Settings, SettingsFault>
    requires { raw.now.version ≡ 2 }
    ensures { let s = raw.now in let t = table.now in
        MatchResult result (λ l. (l ≡ limits_of s t) × AreSettings s t) (λ _. ¬ AreSettings s t) }
{
    Settings::with_table(
        raw.greatest_batch,
        raw.greatest_transfer,
        raw.lone,
        table,
        raw.fence,
        raw.staging,
    )
}

/// The settings of these numbers, if they are of a known version and in their limits. The table has the price of a
/// batch by its size; it counts only with version 2.
pub(crate) fn settings_of(raw: &RawSettings, table: &[u64]) -> Option<Settings>
    ensures { let s = raw.now in let t = table.now in
        MatchOption result (¬ AreSettings s t) (λ l. (l ≡ limits_of s t) × AreSettings s t) }
{
    if raw.version == 2 {
        return match by_size(raw, table) {
            Ok(settings) => Some(settings),
            Err(_) => None,
        };
    }
    if raw.version != 1 {
        return None;
    }
    match same_price(raw) {
        Ok(settings) => Some(settings),
        Err(_) => None,
    }
}

/// The number of a setting: that of its member of the struct, from 1 on, or 8 for the table of prices.
fn number_of(setting: Setting, version: u64) -> u64
    ensures { result ≡ setting_number version setting }
{
    match setting {
        Setting::GreatestBatch => 2,
        Setting::GreatestTransfer => 3,
        Setting::Lone => 4,
        Setting::Fence => 6,
        Setting::Staging => 7,
        Setting::Batch => { if version == 2 { 8 } else { 5 } }
    }
}

/// The first of the settings that is outside its limits, but for the version and the prices of batches.
fn limits_fault(raw: &RawSettings) -> Option<Setting>
    ensures { MatchOption result (HaveLimits raw.now)
        (λ setting. (table : List ℕ) → IsFirstOutside setting (limits_of raw.now table)) }
{
    outside_limits(
        raw.greatest_batch,
        raw.greatest_transfer,
        raw.lone,
        raw.fence,
        raw.staging,
    )
}

/// Whether settings may have this version.
fn is_known(version: u64) -> bool
    ensures { IsTrue result ↔ ((version ≡ 1) ⊎ (version ≡ 2)) }
{
    version == 1 || version == 2
}

/// The number of the first setting that is outside its limits, if one is.
fn outside(raw: &RawSettings) -> u64
    ensures { (table : List ℕ) → ¬ AreSettings raw.now table → IsOutside result raw.now table }
{
    if !is_known(raw.version) {
        return 1;
    }
    match limits_fault(raw) {
        Some(setting) => number_of(setting, raw.version),
        None => number_of(Setting::Batch, raw.version),
    }
}

/// True only if the numbers and the table are settings: a test that copies no table.
pub(crate) fn are_settings(raw: &RawSettings, table: &[u64]) -> bool
    ensures { IsTrue result → AreSettings raw.now table.now }
{
    if limits_fault(raw).is_some() {
        return false;
    }
    if raw.version == 1 {
        return Setting::Batch.allows(raw.batch);
    }
    raw.version == 2 && are_batch_prices(raw.greatest_batch, table)
}

/// The settings with this staging address in place of theirs.
pub(crate) fn staged_at(raw: &RawSettings, staging: u64) -> RawSettings
    ensures { result ≡ staged_at raw.now staging }
{
    RawSettings { staging, ..*raw }
}

/// The refusal of settings, which names the setting that is outside its limits.
pub(crate) fn settings_refusal(raw: &RawSettings) -> RawRefusal
    ensures some { 0 < result.number }
    ensures names { (table : List ℕ) → ¬ AreSettings raw.now table →
        RefusesSettings raw.now table result }
{
    refusal_at(PlanFault::Settings.number() as u32, outside(raw), 0)
}
