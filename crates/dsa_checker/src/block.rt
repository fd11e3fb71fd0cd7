//! The prices at the ends of a block of pieces, less the fences of each chain that comes into it.

ghost use Rattle.std.specs.Prelude.{◌≡◌, ◌⊎◌, ℕ, ◌+◌, ◌-◌, ◌^◌, ◌<◌, ◌≤◌, max, List, length, slice_index, IsTrue, IfSome};
ghost use Rattle.dsa_descriptor.specs.Pieces.{most_pieces};
ghost use Rattle.dsa_plan.specs.Chain.{GoForward, LeadsTo, IsLastBelow};
ghost use Rattle.dsa_settings.specs.Settings.{sized_tariff};
ghost use Rattle.dsa_checker.specs.Steps.{HoldsWithin};
ghost use Rattle.dsa_checker.specs.Blocks.{place, HasRows, IsFilled, IsRowOf};
ghost use Rattle.dsa_checker.specs.Sized.{IsSheet};

/// How many pieces a block has.
pub(crate) const BLOCK: usize = 64;

/// The prices and pairs of a certificate, and what groups cost if a batch has a price by its size.
#[derive(Clone, Copy)]
pub(crate) struct PriceSheet<'a> {
    /// The price of the first 0, 1, .. pieces.
    pub prices: &'a [u64],
    /// For each piece a pair of pieces that conflict, or none.
    pub pairs: &'a [Option<(u32, u32)>],
    /// The price of a lone descriptor.
    pub lone: u64,
    /// The price of a fence.
    pub fence: u64,
    /// The prices of batches without their fences, from that of two pieces on.
    pub table: &'a [u64],
}

/// A block: `BLOCK` pieces one after the other, and the ends of groups that come after each of them.
#[derive(Drop)]
pub(crate) struct Block {
    /// A row of prices for each piece: at each end after the block's first piece the price, less the fences that a
    /// chain which comes to the piece has there. Then a row of the prices as they are.
    rows: [u64; 4160],
    /// For each piece the last piece of the block on its chain.
    lasts: [u32; 64],
    /// For each piece the number of pairs of its chain up to there.
    counts: [u32; 64],
}

impl Block {
    /// An empty block.
    pub(crate) fn new() -> Block {
        Block {
            rows: [0; 4160],
            lasts: [0; 64],
            counts: [0; 64],
        }
    }
}

/// Copies a row with the fence taken from its prices, but for the first few.
fn lower_row(rows: &mut [u64], to: usize, from: usize, kept: usize, fence: u64)
    requires apart { to + 64 ≤ from }
    requires inside { from + 64 ≤ length rows.old }
    ensures kept { (k : ℕ) → k < kept → k < 64 →
        slice_index rows.new (to + k) ≡ slice_index rows.old (from + k) }
    ensures lowered { (k : ℕ) → kept ≤ k → k < 64 →
        slice_index rows.new (to + k) ≡ slice_index rows.old (from + k) - fence }
    ensures outside { (k : ℕ) → (k < to) ⊎ (to + 64 ≤ k) →
        slice_index rows.new k ≡ slice_index rows.old k }
{
    for k in 0..BLOCK {
        let less = if k < kept { 0 } else { fence };
        rows[to + k] = rows[from + k].saturating_sub(less);
    }
}

/// Makes the row of a piece from that of the piece that its pair leads to, if that is in the block.
fn fill_row(
    pairs: &[Option<(u32, u32)>],
    fence: u64,
    first: usize,
    past: usize,
    piece: usize,
    block: &mut Block,
)
    requires forward { GoForward pairs.now }
    requires few { length pairs.now ≤ most_pieces }
    requires begun { first ≤ piece }
    requires inside { piece < past }
    requires within { past ≤ length pairs.now }
    requires size { past ≤ first + 64 }
    requires later { HasRows pairs.now fence first past (piece + 1) block.old.rows block.old.lasts
        block.old.counts }
    ensures rows { HasRows pairs.now fence first past piece block.new.rows block.new.lasts
        block.new.counts }
    ensures same { (k : ℕ) → k < 64 →
        slice_index block.new.rows (4096 + k) ≡ slice_index block.old.rows (4096 + k) }
{
    let place = piece - first;
    match pairs[piece] {
        Some((_, second)) if (second as usize) < past => {
            let next = second as usize - first;
            block.lasts[place] = block.lasts[next];
            block.counts[place] = block.counts[next] + 1;
            lower_row(&mut block.rows, BLOCK * place, BLOCK * next, place, fence);
        }
        _ => {
            block.lasts[place] = piece as u32;
            block.counts[place] = 0;
            lower_row(&mut block.rows, BLOCK * place, BLOCK * BLOCK, place, fence);
        }
    }
}

/// Makes the row of the prices as they are.
fn fill_prices(prices: &[u64], first: usize, past: usize, rows: &mut [u64])
    requires order { first ≤ past }
    requires size { past ≤ first + 64 }
    requires inside { past < length prices.now }
    requires room { 4160 ≤ length rows.old }
    ensures { (end : ℕ) → first < end → end ≤ past →
        slice_index rows.new (place first 64 end) ≡ slice_index prices.now end }
{
    for end in first + 1..past + 1 {
        rows[BLOCK * BLOCK + (end - first - 1)] = prices[end];
    }
}

/// Makes the rows of the block of the pieces from `first` to before `past`.
pub(crate) fn fill(
    prices: &[u64],
    pairs: &[Option<(u32, u32)>],
    fence: u64,
    first: usize,
    past: usize,
    block: &mut Block,
)
    requires forward { GoForward pairs.now }
    requires few { length pairs.now ≤ most_pieces }
    requires count { length prices.now ≡ length pairs.now + 1 }
    requires order { first ≤ past }
    requires within { past ≤ length pairs.now }
    requires size { past ≤ first + 64 }
    ensures { IsFilled pairs.now prices.now fence first past block.new.rows block.new.lasts
        block.new.counts }
{
    fill_prices(prices, first, past, &mut block.rows);
    for done in 0..past - first {
        fill_row(pairs, fence, first, past, past - 1 - done, block);
    }
}

/// Follows a chain through a block, from its last piece before it and the number of its pairs so far: the row that has
/// the prices less the fences of its further pairs, its last piece of the block, and the number of its pairs.
fn follow(
    pairs: &[Option<(u32, u32)>],
    block: &Block,
    first: usize,
    past: usize,
    chain: (usize, u64),
) -> (usize, (usize, u64))
    requires inside { chain.0 < length pairs.now }
    requires size { past ≤ first + 64 }
    requires few { chain.1 ≤ most_pieces }
    requires late { (b : ℕ) → LeadsTo pairs.now chain.0 b → first ≤ b }
    ensures inside { result.0 ≤ 64 }
    ensures row { (prices : List ℕ) (fence start from : ℕ) →
        IsFilled pairs.now prices fence first past block.now.rows block.now.lasts block.now.counts →
        IsLastBelow pairs.now start from chain.1 chain.0 →
        IsRowOf pairs.now fence first past start from chain.1 block.now.rows result.0 }
    ensures chain { (prices : List ℕ) (fence start from : ℕ) →
        IsFilled pairs.now prices fence first past block.now.rows block.now.lasts block.now.counts →
        from ≤ past → IsLastBelow pairs.now start from chain.1 chain.0 →
        IsLastBelow pairs.now start past result.1.1 result.1.0 }
{
    let (piece, fences) = chain;
    match pairs[piece] {
        Some((_, second)) if (second as usize) < past => {
            let place = second as usize - first;
            let more = u64::from(block.counts[place]) + 1;
            (place, (block.lasts[place] as usize, fences + more))
        }
        _ => (BLOCK, chain),
    }
}

/// Whether no price of a row is above this one and that of its size, for so many of them.
fn are_within(rows: &[u64], at: usize, table: &[u64], size: usize, count: usize, most: u64) -> bool
    requires inside { at + count ≤ length rows.now }
    requires sizes { size + count ≤ length table.now }
    requires fits { (k : ℕ) → k < length table.now → most + slice_index table.now k < 2 ^ 64 }
    ensures { IsTrue result → (k : ℕ) → k < count →
        slice_index rows.now (at + k) ≤ most + slice_index table.now (size + k) }
{
    let mut within = true;
    for k in 0..count {
        within &= rows[at + k] <= most + table[size + k];
    }
    within
}

/// Tests the steps from `start` to the ends after a block's first piece, up to the one after its last. The chain is
/// that of `start` up to the block. If every step holds, returns the chain up to the block's end. A sum over `limit`
/// counts as a step that doesn't hold.
pub(crate) fn look(
    sheet: &PriceSheet,
    limit: u64,
    block: &Block,
    first: usize,
    past: usize,
    start: usize,
    chain: (usize, u64),
) -> Option<(usize, u64)>
    requires sheet { let s = sheet.now in IsSheet s.prices.now s.pairs.now s.table.now }
    requires limit { let table = sheet.now.table.now in
        (k : ℕ) → k < length table → limit + slice_index table k < 2 ^ 64 }
    requires begun { start < past }
    requires near { first ≤ start + length sheet.now.table.now }
    requires order { first ≤ past }
    requires within { past ≤ length sheet.now.pairs.now }
    requires size { past ≤ first + 64 }
    requires rows { let s = sheet.now in IsFilled s.pairs.now s.prices.now s.fence first past
        block.now.rows block.now.lasts block.now.counts }
    requires chain { IsLastBelow sheet.now.pairs.now start (max first (start + 1)) chain.1 chain.0 }
    ensures held { let s = sheet.now in IfSome result
        (λ _. HoldsWithin (length s.table.now + 1) (sized_tariff s.lone s.fence s.table.now)
        (length s.pairs.now) s.pairs.now s.prices.now first past start) }
    ensures chain { IfSome result
        (λ chain. IsLastBelow sheet.now.pairs.now start past chain.1 chain.0) }
{
    let before = sheet.prices[start];
    if sheet.prices[start + 1] > before.saturating_add(sheet.lone) {
        return None;
    }
    let most = before.saturating_add(sheet.fence.saturating_mul(chain.1));
    if most > limit {
        return None;
    }
    let (row, next) = follow(sheet.pairs, block, first, past, chain);
    let low = (first + 1).max(start + 2);
    let high = past.min(start + sheet.table.len() + 1);
    let at = BLOCK * row + (low - first - 1);
    if !are_within(
        &block.rows,
        at,
        sheet.table,
        low - start - 2,
        high + 1 - low,
        most,
    ) {
        return None;
    }
    Some(next)
}
