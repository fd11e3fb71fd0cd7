//! Writing a list with its barriers.

ghost use Rattle.std.specs.Prelude.{◌≡◌, IfOk, map};
ghost use Rattle.dsa_descriptor.specs.Descriptors.{fields};
ghost use Rattle.dsa_descriptor.specs.Fences.{DescriptorsAreFencedAlike, EntriesReadBack, MarkedListReadsBack, fenced_entries, marked_spelling};

use crate::entry::Entry;
use crate::fences::{mark_at, write_fenced_entry};
use crate::operations::DescriptorList;
use std::alloc::{AllocError, Global};

/// The bytes of entries with barriers, 64 for each: those after a barrier have the flag 0x0001, fence. So
/// [`read_entries`](crate::read_entries) reads entries of one owner back, but for a barrier before the first.
///
/// # Errors
/// An allocation failure.
pub fn write_entries<E: Entry>(
    alloc: Global,
    entries: &[E],
    barriers: &[bool],
) -> Result<Vec<u8>, AllocError>
    ensures { IfOk result (λ bytes.
        bytes.items ≡ fenced_entries E.spelling entries.now barriers.now) }
{
    let mut bytes = Vec::new(alloc);
    for (index, entry) in entries.iter().enumerate() {
        bytes.extend_from_slice(&write_fenced_entry(entry, mark_at(barriers, index)))?;
    }
    Ok(bytes)
}

/// The bytes of a list of descriptors with its barriers, as [`write_entries`] writes them.
///
/// # Errors
/// An allocation failure.
pub fn write_list(alloc: Global, list: &DescriptorList) -> Result<Vec<u8>, AllocError>
    ensures { IfOk result (λ bytes. bytes.items ≡
        marked_spelling (map fields list.now.descriptors.items) list.now.barriers.items) }
{
    write_entries(alloc, &list.descriptors, &list.barriers)
}

/// The bytes of entries are read back: without their fences they spell the entries, and they have the barriers, but for
/// one before the first.
pub fn entries_read_back<E: Entry>()
    ensures { EntriesReadBack E.spelling }
{
    E::are_entries();
}

/// The same of a list of descriptors.
pub fn marked_list_reads_back()
    ensures { MarkedListReadsBack }
{}

/// The bytes of a descriptor, fenced as an entry, are those that it has as a fenced descriptor.
pub fn descriptors_are_fenced_alike()
    ensures { DescriptorsAreFencedAlike }
{}
