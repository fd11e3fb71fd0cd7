//! The settings of a planner.

ghost use Rattle.std.specs.Prelude.{◌≡◌, ℕ, ◌≤◌, length, MatchOption, MatchResult};
ghost use Rattle.dsa_settings.specs.Outside.{IsFirstOutside};
ghost use Rattle.dsa_settings.specs.Settings.{AreInLimits, batch_price, limits, version_of, greatest_price};
ghost use Rattle.dsa_settings.specs.Settings.BatchPrices.{BySize, SamePrice};

use crate::setting::{Setting, SettingsFault, are_batch_prices, outside_limits};
use arrayvec::ArrayVec;
use std::marker::Model;

/// The settings of a planner: sizes, prices and an address, each within its limits. Contracts see them as a record
/// `Limits`.
///
/// There are two versions: in the first all batches cost the same, in the second each has a price by its size.
#[derive(Drop)]
pub struct Settings {
    greatest_batch: u64,
    greatest_transfer: u64,
    lone: u64,
    // What each batch costs, if the table is empty.
    same: u64,
    table: ArrayVec<u64, 1023>,
    fence: u64,
    staging: u64,
}

impl Model for Settings {
    ghost use Rattle.dsa_settings.specs.Settings.{Limits, AreInLimits, limits};
    ghost use Rattle.dsa_settings.specs.Kept.{kept_prices};

    ghost Value = { Limits };

    ghost view = { λ s. limits s.greatest_batch s.greatest_transfer s.lone
        (kept_prices s.same s.table.items) s.fence s.staging };

    ghost invariant = { λ s. AreInLimits (limits s.greatest_batch s.greatest_transfer s.lone
        (kept_prices s.same s.table.items) s.fence s.staging) };
}

/// A copy of the prices.
fn kept(table: &[u64]) -> ArrayVec<u64, 1023>
    requires { length table.now ≤ 1023 }
    ensures { result.items ≡ table.now }
{
    let mut kept = ArrayVec::new();
    let _ = kept.try_extend_from_slice(table);
    kept
}

impl Settings {
    /// The settings of these numbers, if each is within its limits ([`Setting::allows`]), else the first that is
    /// not. Each batch costs `batch`, whatever its size.
    pub fn new(
        greatest_batch: u64,
        greatest_transfer: u64,
        lone: u64,
        batch: u64,
        fence: u64,
        staging: u64,
    ) -> Result<Settings, SettingsFault>
        ensures { let s = limits greatest_batch greatest_transfer lone
            (SamePrice batch) fence staging in
            MatchResult result (λ settings. (settings ≡ s) × AreInLimits s)
            (λ fault. IsFirstOutside fault.setting s × ¬ AreInLimits s) }
    {
        let limits = outside_limits(greatest_batch, greatest_transfer, lone, fence, staging);
        if let Some(setting) = limits {
            return Err(SettingsFault { setting });
        }
        if !Setting::Batch.allows(batch) {
            let setting = Setting::Batch;
            return Err(SettingsFault { setting });
        }
        Ok(Settings {
            greatest_batch,
            greatest_transfer,
            lone,
            same: batch,
            table: ArrayVec::new(),
            fence,
            staging,
        })
    }

    /// The settings of these numbers, with a price of a batch by its size: the first entry of `batch` is the price of a
    /// batch of 2 pieces, the last that of a batch of `greatest_batch` pieces. The refusals are those of
    /// [`Settings::new`]; a table of another length is refused as `Batch`.
    pub fn with_table(
        greatest_batch: u64,
        greatest_transfer: u64,
        lone: u64,
        batch: &[u64],
        fence: u64,
        staging: u64,
    ) -> Result<Settings, SettingsFault>
        ensures { let s = limits greatest_batch greatest_transfer lone
            (BySize batch.now) fence staging in
            MatchResult result (λ settings. (settings ≡ s) × AreInLimits s)
            (λ fault. IsFirstOutside fault.setting s × ¬ AreInLimits s) }
    {
        let limits = outside_limits(greatest_batch, greatest_transfer, lone, fence, staging);
        if let Some(setting) = limits {
            return Err(SettingsFault { setting });
        }
        if !are_batch_prices(greatest_batch, batch) {
            let setting = Setting::Batch;
            return Err(SettingsFault { setting });
        }
        Ok(Settings {
            greatest_batch,
            greatest_transfer,
            lone,
            same: 0,
            table: kept(batch),
            fence,
            staging,
        })
    }

    /// The version of the settings, which a certificate names: 1 with one price for all batches, 2 with a price for
    /// each size.
    pub fn version(&self) -> u64
        ensures { result ≡ version_of self.now }
    {
        if self.table.is_empty() { 1 } else { 2 }
    }

    /// The greatest number of pieces of a batch.
    pub fn greatest_batch(&self) -> u64
        ensures value { result ≡ self.now.greatest_batch }
        ensures limits { AreInLimits self.now }
    {
        self.greatest_batch
    }

    /// The greatest number of bytes of a piece.
    pub fn greatest_transfer(&self) -> u64
        ensures value { result ≡ self.now.greatest_transfer }
        ensures limits { AreInLimits self.now }
    {
        self.greatest_transfer
    }

    /// The price of a piece by itself.
    pub fn lone(&self) -> u64
        ensures value { result ≡ self.now.lone }
        ensures limits { AreInLimits self.now }
    {
        self.lone
    }

    /// The price of a batch of that many pieces, without its fences.
    pub fn price(&self, size: u64) -> u64
        requires some { 2 ≤ size }
        requires fits { size ≤ self.now.greatest_batch }
        ensures value { result ≡ batch_price self.now.batch size }
        ensures small { result ≤ greatest_price }
    {
        if self.table.is_empty() {
            return self.same;
        }
        self.table[(size - 2) as usize]
    }

    /// The prices of batches by their size, from 2 pieces on; none in version 1, where one price serves for all.
    pub fn table(&self) -> Option<&[u64]>
        ensures prices { MatchOption result
            ((price : ℕ) × (self.now.batch ≡ SamePrice price))
            (λ table. self.now.batch ≡ BySize table.now) }
        ensures limits { AreInLimits self.now }
    {
        if self.table.is_empty() {
            return None;
        }
        Some(self.table.as_slice())
    }

    /// The price of each fence in a batch.
    pub fn fence(&self) -> u64
        ensures value { result ≡ self.now.fence }
        ensures limits { AreInLimits self.now }
    {
        self.fence
    }

    /// The address where the descriptors of the batches are written.
    pub fn staging(&self) -> u64
        ensures value { result ≡ self.now.staging }
        ensures limits { AreInLimits self.now }
    {
        self.staging
    }
}
