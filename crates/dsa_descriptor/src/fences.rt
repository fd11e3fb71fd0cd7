//! The fences of the entries of a list.

ghost use Rattle.std.specs.Prelude.{◌≡◌, IfOk, false, map, slice_index_or};
ghost use Rattle.std.specs.List.{list_any};
ghost use Rattle.dsa_descriptor.specs.Descriptors.{fields};
ghost use Rattle.dsa_descriptor.specs.Fences.{after_first, barriers_of, fenced, is_fenced, set_marks, unfenced, with_fence};
ghost use Rattle.dsa_descriptor.specs.Lists.{entries};
ghost use Rattle.dsa_descriptor.specs.Spelling.{spelling};

use crate::descriptor::Descriptor;
use crate::entry::Entry;
use std::alloc::{AllocError, Global};

/// Whether the entry has the flag 0x0001, fence.
pub fn is_fenced(bytes: &[u8; 64]) -> bool
    ensures { result ≡ is_fenced bytes.now }
{
    bytes[4] % 2 == 1
}

/// The entry without that flag.
pub fn unfenced(bytes: &[u8; 64]) -> [u8; 64]
    ensures { result ≡ unfenced bytes.now }
{
    let mut plain = *bytes;
    plain[4] -= bytes[4] % 2;
    plain
}

/// The bytes of an entry, with that flag or without.
#[inline(always)]
pub fn write_fenced_entry<E: Entry>(entry: &E, fence: bool) -> [u8; 64]
    ensures { result ≡ fenced fence (E.spelling entry.now) }
{
    let mut bytes = entry.write_entry();
    if fence {
        bytes[4] |= 1;
    }
    bytes
}

/// The bytes of a descriptor, with that flag or without.
pub fn write_fenced(descriptor: &Descriptor, fence: bool) -> [u8; 64]
    ensures { result ≡ spelling (with_fence fence (fields descriptor.now)) }
{
    write_fenced_entry(descriptor, fence)
}

/// The flag of each entry.
fn fences_of(alloc: Global, all: &[[u8; 64]]) -> Result<Vec<bool>, AllocError>
    ensures { IfOk result (λ fences. fences.items ≡ map is_fenced all.now) }
{
    let mut fences = Vec::with_capacity(alloc, all.len())?;
    for entry in all {
        fences.push_reserved(is_fenced(entry));
    }
    Ok(fences)
}

/// The mark of an entry; one without a mark is after no barrier.
pub fn mark_at(marks: &[bool], index: usize) -> bool
    ensures { result ≡ slice_index_or marks.now index false }
{
    index < marks.len() && marks[index]
}

/// Whether a mark is set.
fn is_some_set(marks: &[bool]) -> bool
    ensures { result ≡ list_any (λ mark. mark) marks.now }
{
    marks.iter().any(|mark| *mark)
}

/// Clears the mark of the first operation.
fn clear_first(marks: &mut Vec<bool>)
    ensures { marks.new.items ≡ after_first marks.old.items }
{
    if !marks.is_empty() {
        marks[0] = false;
    }
}

/// The barriers of operations with these marks. One before the first operation says nothing; if there is no other,
/// there are no marks.
pub fn kept_marks(alloc: Global, marks: Vec<bool>) -> Vec<bool>
    ensures { result.items ≡ set_marks (after_first marks.items) }
{
    let mut kept = marks;
    clear_first(&mut kept);
    if is_some_set(&kept) {
        kept
    } else {
        Vec::new(alloc)
    }
}

/// The barriers of the operations that the bytes spell, by whether an entry is fenced. A list without a fence takes no
/// memory.
pub(crate) fn barriers_of(
    alloc: Global,
    bytes: &[u8],
    fenced: bool,
) -> Result<Vec<bool>, AllocError>
    requires { fenced ≡ list_any is_fenced (entries bytes.now) }
    ensures { IfOk result (λ barriers. barriers.items ≡ barriers_of bytes.now) }
{
    if !fenced {
        return Ok(Vec::new(alloc));
    }
    let (all, _) = bytes.as_chunks::<64>();
    let fences = fences_of(alloc, all)?;
    Ok(kept_marks(alloc, fences))
}
