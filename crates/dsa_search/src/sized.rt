//! The least costs if a batch has a price by its size.

ghost use Rattle.std.specs.Prelude.{◌≡◌, ◌⊎◌, ℕ, ◌+◌, ◌-◌, ◌*◌, ◌<◌, ◌≤◌, min, length, slice_index, IfOk};
ghost use Rattle.dsa_descriptor.specs.Pieces.{most_pieces};
ghost use Rattle.dsa_plan.specs.Chain.{GoForward, IsLastBelow, Reaches};
ghost use Rattle.dsa_search.specs.Filled.{HasOffers, IsFilled, past_reach, unreached};
ghost use Rattle.dsa_settings.specs.Settings.{ArePrices, greatest_price, sized_tariff};
ghost use Rattle.dsa_search.specs.Sized.{HasRows, IsSheet, past_block};

use crate::costs::{UNREACHED, lower};
use dsa_plan::{chain_step, last_of_run};
use std::alloc::{AllocError, Global};

/// How many pieces a block has, and how many counts a row has.
const BLOCK: usize = 64;

/// The pairs of pieces, the rows that count the pairs of their chains, and what groups cost.
#[derive(Clone, Copy)]
pub(crate) struct CostSheet<'a> {
    /// For each piece the conflicting pair from it on that ends first.
    pub(crate) pairs: &'a [Option<(u32, u32)>],
    /// For each piece the counts of its chain at the ends up to past its block.
    pub(crate) rows: &'a [u8],
    /// For each piece the last one of its block on its chain.
    pub(crate) lasts: &'a [u32],
    /// The price of a lone descriptor.
    pub(crate) lone: u64,
    /// The price of a fence.
    pub(crate) fence: u64,
    /// The prices of batches, from that of two pieces on.
    pub(crate) table: &'a [u64],
}

/// The first piece past the block of this one.
fn block_end(piece: usize) -> usize
    requires { piece ≤ most_pieces }
    ensures value { result ≡ past_block piece }
    ensures later { piece < result }
    ensures near { result ≤ piece + 64 }
{
    piece / BLOCK * BLOCK + BLOCK
}

/// Copies so many counts, each with one more.
fn copy_counts(rows: &mut [u8], to: usize, from: usize, count: usize)
    requires apart { to + count ≤ from }
    requires inside { from + count ≤ length rows.old }
    requires small { (k : ℕ) → k < count → slice_index rows.old (from + k) ≤ 64 }
    ensures count { length rows.new ≡ length rows.old }
    ensures inside { (k : ℕ) →
        k < count → slice_index rows.new (to + k) ≡ slice_index rows.old (from + k) + 1 }
    ensures outside { (k : ℕ) →
        (k < to) ⊎ (to + count ≤ k) → slice_index rows.new k ≡ slice_index rows.old k }
{
    for k in 0..count {
        rows[to + k] = rows[from + k] + 1;
    }
}

/// Makes the row of a piece from that of the piece that its pair leads to, if that is in its block.
fn fill_row(pairs: &[Option<(u32, u32)>], rows: &mut [u8], lasts: &mut [u32], piece: usize)
    requires forward { GoForward pairs.now }
    requires few { length pairs.now ≤ most_pieces }
    requires inside { piece < length pairs.now }
    requires later { HasRows pairs.now (piece + 1) rows.old lasts.old }
    ensures { HasRows pairs.now piece rows.new lasts.new }
{
    let past = block_end(piece);
    let last = past.min(pairs.len());
    match pairs[piece] {
        Some((_, second)) if (second as usize) < last => {
            let next = second as usize;
            let skip = next + BLOCK - past;
            copy_counts(rows, BLOCK * piece + skip, BLOCK * next + skip, last - next);
            lasts[piece] = lasts[next];
        }
        _ => lasts[piece] = piece as u32,
    }
}

/// Makes the rows of all pieces, from the last to the first.
fn fill_rows(pairs: &[Option<(u32, u32)>], rows: &mut [u8], lasts: &mut [u32])
    requires forward { GoForward pairs.now }
    requires few { length pairs.now ≤ most_pieces }
    requires blank { HasRows pairs.now (length pairs.now) rows.old lasts.old }
    ensures { HasRows pairs.now 0 rows.new lasts.new }
{
    for done in 0..pairs.len() {
        fill_row(pairs, rows, lasts, pairs.len() - 1 - done);
    }
}

/// The lesser of two costs below 2^63, as signed numbers, since a vector compares two of those at a time.
fn lesser(one: u64, other: u64) -> u64
    requires small { one ≤ unreached }
    requires other_small { other ≤ unreached }
    ensures { result ≡ min one other }
{
    if (other as i64) < (one as i64) {
        other
    } else {
        one
    }
}

/// The rows of all pieces, and for each piece the last one of its block on its chain.
pub(crate) fn rows_of(
    alloc: Global,
    pairs: &[Option<(u32, u32)>],
) -> Result<(Vec<u8>, Vec<u32>), AllocError>
    requires forward { GoForward pairs.now }
    requires few { length pairs.now ≤ most_pieces }
    ensures { IfOk result (λ made. HasRows pairs.now 0 made.0.items made.1.items) }
{
    let mut rows = vec![in alloc; 0u8; BLOCK * pairs.len()]?;
    let mut lasts = vec![in alloc; 0u32; pairs.len()]?;
    fill_rows(pairs, &mut rows, &mut lasts);
    Ok((rows, lasts))
}

/// Lowers the costs of the ends from `from` to below `to`: to this cost, the price of the group's size and its fences,
/// whose counts are in the row from `at` on. The fence's price has 32 bits, as each factor of one vector
/// multiplication has.
fn lower_row(
    costs: &mut [u64],
    sheet: &CostSheet,
    start: usize,
    from: usize,
    to: usize,
    cost: u64,
    at: usize,
)
    requires order { from ≤ to }
    requires late { start + 2 ≤ from }
    requires inside { to ≤ length costs.old }
    requires sizes { to ≤ start + 2 + length sheet.now.table.now }
    requires counts { at + to ≤ from + length sheet.now.rows.now }
    requires prices { ArePrices sheet.now.table.now }
    requires fence { sheet.now.fence ≤ greatest_price }
    requires small { cost ≤ 1000000000000000 }
    requires reached { (k : ℕ) → k < length costs.old → slice_index costs.old k ≤ unreached }
    ensures count { length costs.new ≡ length costs.old }
    ensures inside { (k : ℕ) → from ≤ k → k < to →
        slice_index costs.new k ≡ min (slice_index costs.old k)
        (cost + slice_index sheet.now.table.now
        (k - start - 2) + sheet.now.fence * slice_index sheet.now.rows.now (at + (k - from))) }
    ensures outside { (k : ℕ) →
        (k < from) ⊎ (to ≤ k) → slice_index costs.new k ≡ slice_index costs.old k }
{
    let (table, rows, fence) = (sheet.table, sheet.rows, sheet.fence as u32);
    for end in from..to {
        let fences = u64::from(rows[at + (end - from)]);
        let sum = cost + table[end - start - 2] + u64::from(fence) * fences;
        costs[end] = lesser(costs[end], sum);
    }
}

/// Lowers the costs of the ends from `from` to below `to`: to this cost and the price of the group's size.
fn lower_run(costs: &mut [u64], table: &[u64], start: usize, from: usize, to: usize, cost: u64)
    requires order { from ≤ to }
    requires late { start + 2 ≤ from }
    requires inside { to ≤ length costs.old }
    requires sizes { to ≤ start + 2 + length table.now }
    requires prices { ArePrices table.now }
    requires small { cost ≤ 1000000000000000 }
    requires reached { (k : ℕ) → k < length costs.old → slice_index costs.old k ≤ unreached }
    ensures count { length costs.new ≡ length costs.old }
    ensures inside { (k : ℕ) → from ≤ k → k < to → slice_index costs.new k ≡ min
        (slice_index costs.old k) (cost + slice_index table.now (k - start - 2)) }
    ensures outside { (k : ℕ) →
        (k < from) ⊎ (to ≤ k) → slice_index costs.new k ≡ slice_index costs.old k }
{
    for end in from..to {
        let sum = cost + table[end - start - 2];
        costs[end] = lesser(costs[end], sum);
    }
}

/// Offers the ends up to past the block of a piece of the chain, by the row of the piece. The answer is the chain's
/// last piece below the next end, the number of its pairs, and that end.
fn offer_row(
    sheet: &CostSheet,
    start: usize,
    chain: (usize, u64),
    end: usize,
    costs: &mut [u64],
) -> (usize, u64, usize)
    requires sheet { let g = sheet.now in
        IsSheet g.pairs.now g.rows.now g.lasts.now g.lone g.fence g.table.now }
    requires late { start + 2 ≤ end }
    requires chain { IsLastBelow sheet.now.pairs.now start end chain.1 chain.0 }
    requires near { end ≤ past_block chain.0 }
    requires within { let g = sheet.now in
        end < past_reach (length g.table.now + 1) (length g.pairs.now) start }
    requires offers { let g = sheet.now in HasOffers
        (length g.table.now + 1) (sized_tariff g.lone g.fence g.table.now)
        g.pairs.now start end costs.old }
    ensures further { end < result.2 }
    ensures within { let g = sheet.now in
        result.2 ≤ past_reach (length g.table.now + 1) (length g.pairs.now) start }
    ensures offers { let g = sheet.now in HasOffers
        (length g.table.now + 1) (sized_tariff g.lone g.fence g.table.now)
        g.pairs.now start result.2 costs.new }
    ensures chain { let g = sheet.now in
        result.2 < past_reach (length g.table.now + 1) (length g.pairs.now) start →
        IsLastBelow g.pairs.now start result.2 result.1 result.0 }
    ensures reached { Reaches sheet.now.pairs.now start result.1 result.0 }
    ensures below { result.0 < result.2 }
{
    let (piece, fences) = chain;
    let reach = sheet.pairs.len().min(start + sheet.table.len() + 1);
    let past = block_end(piece);
    let last = past.min(reach);
    let cost = costs[start] + sheet.fence * fences;
    let at = BLOCK * piece + (end + 63 - past);
    lower_row(costs, sheet, start, end, last + 1, cost, at);
    if last < past {
        return (piece, fences, last + 1);
    }
    let more = u64::from(sheet.rows[BLOCK * piece + 63]);
    let (next, count) = chain_step(
        sheet.pairs,
        sheet.lasts[piece] as usize,
        fences + more,
        past,
    );
    (next, count, past + 1)
}

/// Offers the ends up to that where the chain goes on from its piece; there is no fence between them. Answers as
/// [`offer_row`].
fn offer_run(
    sheet: &CostSheet,
    start: usize,
    chain: (usize, u64),
    end: usize,
    costs: &mut [u64],
) -> (usize, u64, usize)
    requires sheet { let g = sheet.now in
        IsSheet g.pairs.now g.rows.now g.lasts.now g.lone g.fence g.table.now }
    requires late { start + 2 ≤ end }
    requires chain { IsLastBelow sheet.now.pairs.now start end chain.1 chain.0 }
    requires within { let g = sheet.now in
        end < past_reach (length g.table.now + 1) (length g.pairs.now) start }
    requires offers { let g = sheet.now in HasOffers
        (length g.table.now + 1) (sized_tariff g.lone g.fence g.table.now)
        g.pairs.now start end costs.old }
    ensures further { end < result.2 }
    ensures within { let g = sheet.now in
        result.2 ≤ past_reach (length g.table.now + 1) (length g.pairs.now) start }
    ensures offers { let g = sheet.now in HasOffers
        (length g.table.now + 1) (sized_tariff g.lone g.fence g.table.now)
        g.pairs.now start result.2 costs.new }
    ensures chain { IsLastBelow sheet.now.pairs.now start result.2 result.1 result.0 }
    ensures reached { Reaches sheet.now.pairs.now start result.1 result.0 }
    ensures below { result.0 < result.2 }
{
    let (piece, fences) = chain;
    let reach = sheet.pairs.len().min(start + sheet.table.len() + 1);
    let last = last_of_run(sheet.pairs, piece, reach);
    let cost = costs[start] + sheet.fence * fences;
    lower_run(costs, sheet.table, start, end, last + 1, cost);
    let (next, count) = chain_step(sheet.pairs, piece, fences, last);
    (next, count, last + 1)
}

/// Offers each end from `end` on that a group from `start` reaches the cost with that group. The chain is that of
/// `start` before `end`; the answer is a piece that it reaches in the reach of `start`, and the number of its pairs.
pub(crate) fn offer_ends(
    sheet: &CostSheet,
    start: usize,
    chain: (usize, u64),
    end: usize,
    costs: &mut [u64],
) -> (usize, u64)
    requires sheet { let g = sheet.now in
        IsSheet g.pairs.now g.rows.now g.lasts.now g.lone g.fence g.table.now }
    requires inside { start < length sheet.now.pairs.now }
    requires late { start + 2 ≤ end }
    requires within { let g = sheet.now in
        end ≤ past_reach (length g.table.now + 1) (length g.pairs.now) start }
    requires chain { IsLastBelow sheet.now.pairs.now start end chain.1 chain.0 }
    requires offers { let g = sheet.now in HasOffers
        (length g.table.now + 1) (sized_tariff g.lone g.fence g.table.now)
        g.pairs.now start end costs.old }
    ensures offers { let g = sheet.now in HasOffers
        (length g.table.now + 1) (sized_tariff g.lone g.fence g.table.now) g.pairs.now start
        (past_reach (length g.table.now + 1) (length g.pairs.now) start) costs.new }
    ensures reached { Reaches sheet.now.pairs.now start result.1 result.0 }
    ensures below { let g = sheet.now in
        result.0 < past_reach (length g.table.now + 1) (length g.pairs.now) start }
{
    let reach = sheet.pairs.len().min(start + sheet.table.len() + 1);
    let (mut chain, mut end) = (chain, end);
    while end <= reach {
        let (piece, fences, further) = if end <= block_end(chain.0) {
            offer_row(sheet, start, chain, end, costs)
        } else {
            offer_run(sheet, start, chain, end, costs)
        };
        chain = (piece, fences);
        end = further;
    }
    chain
}

/// Offers each end that one group from `start` reaches the cost with that group.
fn offer_sizes(sheet: &CostSheet, start: usize, costs: &mut [u64])
    requires sheet { let g = sheet.now in
        IsSheet g.pairs.now g.rows.now g.lasts.now g.lone g.fence g.table.now }
    requires inside { start < length sheet.now.pairs.now }
    requires offers { let g = sheet.now in HasOffers
        (length g.table.now + 1) (sized_tariff g.lone g.fence g.table.now)
        g.pairs.now start (start + 1) costs.old }
    ensures { let g = sheet.now in HasOffers
        (length g.table.now + 1) (sized_tariff g.lone g.fence g.table.now)
        g.pairs.now (start + 1) (start + 2) costs.new }
{
    let cost = costs[start] + sheet.lone;
    lower(costs, start + 1, start + 2, cost);
    let chain = chain_step(sheet.pairs, start, 0, start + 1);
    offer_ends(sheet, start, chain, start + 2, costs);
}

/// Fills in the costs: each start in turn offers its groups.
fn fill_sizes(sheet: &CostSheet, costs: &mut [u64])
    requires sheet { let g = sheet.now in
        IsSheet g.pairs.now g.rows.now g.lasts.now g.lone g.fence g.table.now }
    requires offers { let g = sheet.now in HasOffers
        (length g.table.now + 1) (sized_tariff g.lone g.fence g.table.now)
        g.pairs.now 0 1 costs.old }
    ensures { let g = sheet.now in IsFilled
        (length g.table.now + 1) (sized_tariff g.lone g.fence g.table.now) g.pairs.now costs.new }
{
    for start in 0..sheet.pairs.len() {
        offer_sizes(sheet, start, costs);
    }
}

/// The least cost of the first 0, 1, .. pieces, if a batch of `size` pieces has the price `table[size - 2]` without its
/// fences, and a group has at most `table.len() + 1` pieces.
///
/// # Errors
/// An allocation failure.
pub(crate) fn least_costs_by_size(
    alloc: Global,
    pairs: &[Option<(u32, u32)>],
    lone: u64,
    fence: u64,
    table: &[u64],
) -> Result<Vec<u64>, AllocError>
    requires forward { GoForward pairs.now }
    requires few { length pairs.now ≤ most_pieces }
    requires sizes { length table.now ≤ 1023 }
    requires prices { ArePrices table.now }
    requires fence { fence ≤ greatest_price }
    requires lone { lone ≤ greatest_price }
    ensures { IfOk result
        (λ costs. IsFilled (length table.now + 1) (sized_tariff lone fence table.now)
        pairs.now costs.items) }
{
    let (rows, lasts) = rows_of(alloc, pairs)?;
    let mut costs = vec![in alloc; UNREACHED; pairs.len() + 1]?;
    costs[0] = 0;
    let sheet = CostSheet {
        pairs,
        rows: &rows,
        lasts: &lasts,
        lone,
        fence,
        table,
    };
    fill_sizes(&sheet, &mut costs);
    Ok(costs)
}
