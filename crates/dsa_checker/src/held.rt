//! The starts whose steps all hold, if a batch has a price by its size: block by block of ends.

ghost use Rattle.std.specs.Prelude.{◌≡◌, ℕ, ◌+◌, ◌-◌, ◌%◌, ◌^◌, ◌<◌, ◌≤◌, length, slice_index, IsTrue};
ghost use Rattle.dsa_descriptor.specs.Pieces.{most_pieces};
ghost use Rattle.dsa_plan.specs.Chain.{GoForward, IsLastBelow};
ghost use Rattle.dsa_settings.specs.Settings.{sized_tariff};
ghost use Rattle.dsa_checker.specs.Steps.{HoldsWithin, StepsHoldFrom};
ghost use Rattle.dsa_checker.specs.Blocks.{IsFilled, AreChains};
ghost use Rattle.dsa_checker.specs.Sized.{IsSheet};

use crate::block::{BLOCK, Block, PriceSheet, fill, look};

/// How many chains have a place: more than there are starts from which a batch reaches into one block.
const PLACES: usize = 2048;

/// The chains of the starts that reach into a block, each at its start's number modulo `PLACES`.
#[derive(Drop)]
struct Chains {
    /// The last piece of each before the block.
    pieces: [u32; 2048],
    /// The number of its pairs up to there.
    fences: [u32; 2048],
}

/// The chain of a start up to a block: as it was left, or at its beginning if the start is in the block.
fn chain_of(chains: &Chains, first: usize, start: usize) -> (usize, u64)
    ensures left { start < first → (result.0 ≡ slice_index chains.now.pieces (start % 2048)) ×
        (result.1 ≡ slice_index chains.now.fences (start % 2048)) }
    ensures begun { first ≤ start → (result.0 ≡ start) × (result.1 ≡ 0) }
{
    if start < first {
        let place = start % PLACES;
        return (
            chains.pieces[place] as usize,
            u64::from(chains.fences[place]),
        );
    }
    (start, 0)
}

/// Whether the steps of all starts hold to the ends of a block. The chains are those up to the block before the call,
/// and those up to its end afterwards.
fn block_holds(
    sheet: &PriceSheet,
    limit: u64,
    block: &Block,
    first: usize,
    past: usize,
    chains: &mut Chains,
) -> bool
    requires sheet { let s = sheet.now in IsSheet s.prices.now s.pairs.now s.table.now }
    requires limit { let table = sheet.now.table.now in
        (k : ℕ) → k < length table → limit + slice_index table k < 2 ^ 64 }
    requires order { first ≤ past }
    requires within { past ≤ length sheet.now.pairs.now }
    requires size { past ≤ first + 64 }
    requires rows { let s = sheet.now in IsFilled s.pairs.now s.prices.now s.fence first past
        block.now.rows block.now.lasts block.now.counts }
    requires chains { let s = sheet.now in AreChains s.pairs.now (first - length s.table.now)
        first first chains.old.fences chains.old.pieces }
    ensures held { let s = sheet.now in
        IsTrue result → (i : ℕ) → first - length s.table.now ≤ i → i < past →
        HoldsWithin (length s.table.now + 1) (sized_tariff s.lone s.fence s.table.now)
        (length s.pairs.now) s.pairs.now s.prices.now first past i }
    ensures chains { let s = sheet.now in
        IsTrue result → AreChains s.pairs.now (first - length s.table.now) past past
        chains.new.fences chains.new.pieces }
{
    for start in first.saturating_sub(sheet.table.len())..past {
        let chain = chain_of(chains, first, start);
        let Some((piece, fences)) = look(sheet, limit, block, first, past, start, chain) else {
            return false;
        };
        chains.pieces[start % PLACES] = piece as u32;
        chains.fences[start % PLACES] = fences as u32;
    }
    true
}

/// The greatest price of a table, or 0.
fn greatest(table: &[u64]) -> u64
    ensures { (k : ℕ) → k < length table.now → slice_index table.now k ≤ result }
{
    let mut greatest = 0;
    for k in 0..table.len() {
        greatest = greatest.max(table[k]);
    }
    greatest
}

/// How many starts, from the first on, are known to have only steps that hold: all of them, or some that come before
/// each step that doesn't hold. This only saves looking at these starts one by one, and never decides the answer.
#[inline(never)]
pub(crate) fn held_starts(sheet: &PriceSheet) -> usize
    requires sheet { let s = sheet.now in IsSheet s.prices.now s.pairs.now s.table.now }
    ensures inside { result ≤ length sheet.now.pairs.now }
    ensures held { let s = sheet.now in (i : ℕ) → i < result → StepsHoldFrom
        (length s.table.now + 1) (sized_tariff s.lone s.fence s.table.now)
        (length s.pairs.now) s.pairs.now s.prices.now i }
{
    let limit = u64::MAX - greatest(sheet.table);
    let mut block = Block::new();
    let mut chains = Chains {
        pieces: [0; 2048],
        fences: [0; 2048],
    };
    let mut first = 0;
    while first < sheet.pairs.len() {
        let past = sheet.pairs.len().min(first + BLOCK);
        fill(
            sheet.prices,
            sheet.pairs,
            sheet.fence,
            first,
            past,
            &mut block,
        );
        if !block_holds(sheet, limit, &block, first, past, &mut chains) {
            return first.saturating_sub(sheet.table.len());
        }
        first = past;
    }
    first
}
