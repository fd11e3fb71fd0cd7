//! The settings one by one, and which of them is outside its limits.

ghost use Rattle.std.specs.Prelude.{◌≡◌, ◌↔◌, length, IsTrue, MatchOption};
ghost use Rattle.dsa_settings.specs.Settings.{AreBatchPrices, AreInLimits, ArePrices, BatchPrices, limits};
ghost use Rattle.dsa_settings.specs.Settings.BatchPrices.{BySize, SamePrice};
ghost use Rattle.dsa_settings.specs.Outside.{Allows, IsFirstOutside};

use std::fmt;

/// The greatest price, in the unit of all prices.
const GREATEST_PRICE: u64 = 1_000_000_000;

/// The greatest number of pieces that a batch may have.
const GREATEST_BATCH: u64 = 1024;

/// One of the settings. They are looked at in this order.
#[derive(Clone, Copy)]
pub enum Setting {
    /// The greatest number of pieces of a batch.
    GreatestBatch,
    /// The greatest number of bytes of a piece.
    GreatestTransfer,
    /// The price of a piece by itself.
    Lone,
    /// The price of a fence.
    Fence,
    /// The address of the staging area.
    Staging,
    /// The price of each batch, or the table of prices by size.
    Batch,
}

/// Why numbers are not valid settings.
#[derive(Clone, Copy)]
pub struct SettingsFault {
    /// The first of the settings that is outside its limits.
    pub setting: Setting,
}

/// The name of the setting.
impl fmt::Debug for SettingsFault {
    fn fmt<W: fmt::Write>(&self, f: &mut fmt::Formatter<W>) -> fmt::Result {
        f.write_str(match self.setting {
            Setting::GreatestBatch => "GreatestBatch",
            Setting::GreatestTransfer => "GreatestTransfer",
            Setting::Lone => "Lone",
            Setting::Fence => "Fence",
            Setting::Staging => "Staging",
            Setting::Batch => "Batch",
        })
    }
}

impl Setting {
    /// Whether the setting may have this number: the greatest batch 2 to 1,024 pieces, the greatest transfer a
    /// multiple of 8 from 8 to 2^31 bytes, a price at most 1,000,000,000, and the staging area an address that is a
    /// multiple of 64 and at most 2^63. For `Batch` it is one price.
    #[inline(always)]
    pub fn allows(self, number: u64) -> bool
        ensures { IsTrue result ↔ Allows self number }
    {
        match self {
            Setting::GreatestBatch => (2..=GREATEST_BATCH).contains(&number),
            Setting::GreatestTransfer => (8..=1 << 31).contains(&number) && number % 8 == 0,
            Setting::Lone => number <= GREATEST_PRICE,
            Setting::Fence => number <= GREATEST_PRICE,
            Setting::Staging => number <= 1 << 63 && number % 64 == 0,
            Setting::Batch => number <= GREATEST_PRICE,
        }
    }
}

/// The first of the settings that is outside its limits, but for the prices of batches, which are looked at later.
pub fn outside_limits(
    greatest_batch: u64,
    greatest_transfer: u64,
    lone: u64,
    fence: u64,
    staging: u64,
) -> Option<Setting>
    ensures { MatchOption result
        (AreInLimits (limits greatest_batch greatest_transfer lone (SamePrice 0) fence staging))
        (λ setting. (batch : BatchPrices) →
        IsFirstOutside setting (limits greatest_batch greatest_transfer lone batch fence staging)) }
{
    if !Setting::GreatestBatch.allows(greatest_batch) {
        return Some(Setting::GreatestBatch);
    }
    if !Setting::GreatestTransfer.allows(greatest_transfer) {
        return Some(Setting::GreatestTransfer);
    }
    if !Setting::Lone.allows(lone) {
        return Some(Setting::Lone);
    }
    if !Setting::Fence.allows(fence) {
        return Some(Setting::Fence);
    }
    if !Setting::Staging.allows(staging) {
        return Some(Setting::Staging);
    }
    None
}

/// Whether no price is above the greatest.
fn are_prices(table: &[u64]) -> bool
    ensures { IsTrue result ↔ ArePrices table.now }
{
    for k in 0..table.len() {
        if table[k] > GREATEST_PRICE {
            return false;
        }
    }
    true
}

/// Whether the table has a price within its limits for each size of a batch, from 2 pieces on.
pub fn are_batch_prices(greatest_batch: u64, table: &[u64]) -> bool
    ensures { IsTrue result ↔ AreBatchPrices greatest_batch (BySize table.now) }
{
    table.len() as u64 + 1 == greatest_batch && are_prices(table)
}
