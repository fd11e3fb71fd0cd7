//! Lists of entries of one owner.

ghost use Rattle.std.specs.Prelude.{◌≡◌, ◌≢◌, [], length};
ghost use Rattle.dsa_descriptor.specs.Lists.{AreOfOneOwner};

use crate::entry::Entry;

/// Entries in their order, and their barriers. The ghost fields say that all have one PASID and one privilege, and that
/// there is a mark for each entry or for none.
#[derive(Drop)]
pub struct EntryList<E: Entry> {
    /// The entries.
    pub entries: Vec<E>,
    /// Whether each begins after a barrier: nothing before a barrier may run while something after it does. Empty if
    /// there is no barrier.
    pub barriers: Vec<bool>,
    pub ghost one_owner: { AreOfOneOwner E.spelling entries.items },
    pub ghost marked: { barriers.items ≢ [] → length barriers.items ≡ length entries.items },
}
