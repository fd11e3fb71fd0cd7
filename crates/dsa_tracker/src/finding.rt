//! Which slots conflict with accesses to some addresses.

ghost use Rattle.std.specs.Prelude.{ℕ, ◌+◌, ◌*◌, ◌<◌};
ghost use Rattle.dsa_tracker.specs.Finding.{ConflictsHere, HaveStores, MayConflict};
ghost use Rattle.dsa_tracker.specs.Kept.{Touches, store_at};
ghost use Rattle.dsa_tracker.specs.Sets.{Has};
ghost use Rattle.dsa_tracker.specs.Table.{IsExactly};

use crate::kept::{store, touches};
use crate::slots::Slots;

/// The slots that something is compared with.
#[derive(Clone, Copy)]
pub(crate) struct Others {
    /// Which slots it is compared with.
    pub among: Slots,
    /// The slots with spans of too many units to mark.
    pub wide: Slots,
}

/// Those of the others that have to be compared, if these slots were noted for the units before;
/// all of them, if there were too many units.
pub(crate) fn candidates(others: Others, noted: Option<u64>) -> Slots
    ensures { IsExactly result (λ k. Has others.among k × MayConflict others.wide noted k) }
{
    match noted {
        Some(noted) => Slots(noted).union(others.wide).intersection(others.among),
        None => others.among,
    }
}

/// Those of the slots whose store of this side (0: reads, 1: writes) has one of these addresses.
fn slots_that_touch(
    stores: &[u64],
    width: usize,
    side: usize,
    among: Slots,
    first: u64,
    last: u64,
) -> Slots
    requires side { side < 2 }
    requires wide { 0 < width }
    requires within { HaveStores width stores.now among }
    ensures { IsExactly result (λ k. Has among k ×
        Touches (store_at width stores.now (2 * k + side)) first last) }
{
    let mut found = Slots::EMPTY;
    let mut rest = among;
    while let Some(slot) = rest.take_first() {
        let place = 2 * slot as usize + side;
        if touches(store(stores, width, place), first, last) {
            found = found.with(slot);
        }
    }
    found
}

/// Those of the slots that conflict with an access to these addresses, a read or a write.
pub(crate) fn slots_in_conflict(
    stores: &[u64],
    width: usize,
    among: Slots,
    first: u64,
    last: u64,
    is_written: bool,
) -> Slots
    requires wide { 0 < width }
    requires within { HaveStores width stores.now among }
    ensures { IsExactly result (λ k. Has among k ×
        ConflictsHere width stores.now is_written first last k) }
{
    let writing = slots_that_touch(stores, width, 1, among, first, last);
    if !is_written {
        return writing;
    }
    let others = among.minus(writing);
    let reading = slots_that_touch(stores, width, 0, others, first, last);
    writing.union(reading)
}
