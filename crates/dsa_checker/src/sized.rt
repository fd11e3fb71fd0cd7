//! The steps of a certificate's prices if a batch has a price by its size.

ghost use Rattle.std.specs.Prelude.{◌≡◌, ℕ, ◌+◌, ◌<◌, ◌≤◌, length, MatchOption};
ghost use Rattle.dsa_descriptor.specs.Pieces.{most_pieces};
ghost use Rattle.dsa_plan.specs.Chain.{GoForward, LeadsTo};
ghost use Rattle.dsa_checker.specs.Steps.{StepsHold, StepsHoldFrom, IsFirstBadEnd, IsFirstBadStep};
ghost use Rattle.dsa_settings.specs.Settings.{sized_tariff};
ghost use Rattle.dsa_checker.specs.Sized.{AreWithin, IsFirstAbove, IsSheet};

use crate::block::PriceSheet;
use crate::held::held_starts;
use dsa_plan::{chain_step, last_of_run};

/// With fewer pieces, or sizes of batches, a walk is as fast as making the rows of blocks.
const FEW: usize = 96;

/// The first end from `from` to before `to` with a price above `most` plus that of a batch of the pieces from `start`
/// on. A saturated sum serves as well as the true one, since no price is above it.
fn first_above(
    prices: &[u64],
    table: &[u64],
    start: usize,
    from: usize,
    to: usize,
    most: u64,
) -> Option<usize>
    requires late { start + 2 ≤ from }
    requires inside { to ≤ length prices.now }
    requires sizes { to ≤ start + 2 + length table.now }
    ensures { MatchOption result
        (AreWithin prices.now table.now start from to most)
        (IsFirstAbove prices.now table.now start from to most) }
{
    for end in from..to {
        if prices[end] > most.saturating_add(table[end - start - 2]) {
            return Some(end);
        }
    }
    None
}

/// The first end of a group from `start` whose price is too high: run by run, since all ends between two fences have
/// the same number of fences.
fn first_bad_end(sheet: &PriceSheet, start: usize) -> Option<usize>
    requires sheet { let s = sheet.now in IsSheet s.prices.now s.pairs.now s.table.now }
    requires inside { start < length sheet.now.pairs.now }
    ensures { let s = sheet.now in MatchOption result
        (StepsHoldFrom (length s.table.now + 1) (sized_tariff s.lone s.fence s.table.now)
        (length s.pairs.now) s.pairs.now s.prices.now start)
        (IsFirstBadEnd (length s.table.now + 1) (sized_tariff s.lone s.fence s.table.now)
        (length s.pairs.now) s.pairs.now s.prices.now start) }
{
    if sheet.prices[start + 1] > sheet.prices[start].saturating_add(sheet.lone) {
        return Some(start + 1);
    }
    let reach = sheet.pairs.len().min(start + sheet.table.len() + 1);
    let (mut piece, mut fences) = chain_step(sheet.pairs, start, 0, start + 1);
    let mut end = start + 2;
    while end <= reach {
        let last = last_of_run(sheet.pairs, piece, reach);
        let most = sheet.prices[start].saturating_add(sheet.fence.saturating_mul(fences));
        if let Some(bad) = first_above(sheet.prices, sheet.table, start, end, last + 1, most) {
            return Some(bad);
        }
        (piece, fences) = chain_step(sheet.pairs, piece, fences, last);
        end = last + 1;
    }
    None
}

/// How many starts, from the first on, are known to have only steps that hold. This only saves looking at them one by
/// one, and never decides the answer.
fn starts_passed(sheet: &PriceSheet) -> usize
    requires sheet { let s = sheet.now in IsSheet s.prices.now s.pairs.now s.table.now }
    ensures { let s = sheet.now in (i : ℕ) → i < result → StepsHoldFrom
        (length s.table.now + 1) (sized_tariff s.lone s.fence s.table.now)
        (length s.pairs.now) s.pairs.now s.prices.now i }
{
    if sheet.pairs.len().min(sheet.table.len()) < FEW {
        return 0;
    }
    held_starts(sheet)
}

/// The first start and end whose step is too high, if one piece costs `lone` and a batch of `size` pieces
/// `table[size - 2]` without its fences.
pub(crate) fn first_bad_sized_step(sheet: &PriceSheet) -> Option<(usize, usize)>
    requires sheet { let s = sheet.now in IsSheet s.prices.now s.pairs.now s.table.now }
    ensures { let s = sheet.now in MatchOption result
        (StepsHold (length s.table.now + 1) (sized_tariff s.lone s.fence s.table.now)
        (length s.pairs.now) s.pairs.now s.prices.now)
        (λ step. IsFirstBadStep (length s.table.now + 1) (sized_tariff s.lone s.fence s.table.now)
        (length s.pairs.now) s.pairs.now s.prices.now step.0 step.1) }
{
    for start in starts_passed(sheet)..sheet.pairs.len() {
        if let Some(end) = first_bad_end(sheet, start) {
            return Some((start, end));
        }
    }
    None
}
