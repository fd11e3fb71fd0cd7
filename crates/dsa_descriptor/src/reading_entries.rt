//! Reading a list in which a fence is a barrier. One without fences is read as it is, and takes no longer than a plain
//! list.

ghost use Rattle.std.specs.Prelude.{◌≡◌, ◌≢◌, ◌&&◌, ◌||◌, [], List, IfOk, IfErr, Err, MatchResult, false, true};
ghost use Rattle.std.specs.List.{flat_map, list_any};
ghost use Rattle.dsa_descriptor.specs.declared.fault.ListFault.{ListFault};
ghost use Rattle.dsa_descriptor.specs.declared.fault.ListFault.TheVariants.{Memory};
ghost use Rattle.dsa_descriptor.specs.Faults.{IsFirstBreach};
ghost use Rattle.dsa_descriptor.specs.Fences.{barriers_of, is_fenced, seen_entry, seen_list, unfenced_list};
ghost use Rattle.dsa_descriptor.specs.Lists.{entries, AreOfOneOwner, IsFirstFaultBy, IsSound};

use crate::entry::Entry;
use crate::entry_list::EntryList;
use crate::fault::{FieldFault, ListFault};
use crate::fences::{barriers_of, is_fenced, unfenced};
use crate::list::agree_on_owner;
use std::alloc::Global;

/// What the entry spells, without its fence if fences may be there (`FENCED`). An entry without one is not copied.
#[inline(always)]
fn read_seen<E: Entry, const FENCED: bool>(entry: &[u8; 64]) -> Result<E, FieldFault>
    ensures found { IfOk result (λ e. seen_entry FENCED entry.now ≡ E.spelling e) }
    ensures fault { IfErr result (IsFirstBreach E.keeps (seen_entry FENCED entry.now)) }
{
    if FENCED && is_fenced(entry) {
        return E::read_entry(&unfenced(entry));
    }
    E::read_entry(entry)
}

/// Whether there was a fence, or this entry has one, if fences may be there.
#[inline(always)]
fn has_fence_too<const FENCED: bool>(fenced: bool, entry: &[u8; 64]) -> bool
    ensures { result ≡ (FENCED && (fenced || is_fenced entry.now)) }
{
    FENCED && (fenced || is_fenced(entry))
}

/// What was read of a list.
#[derive(Drop)]
struct ReadEntries<E: Entry> {
    /// What the entries spell.
    pub entries: Vec<E>,
    /// Whether an entry has a fence, if fences may be there.
    pub fenced: bool,
}

/// What the bytes spell, 64 for each entry: without their fences (`FENCED`), or as they are. Each entry is read once,
/// and put into the list if there is memory for one, so that a fault is found in either case.
#[inline(always)]
fn read_seen_entries<E: Entry, const FENCED: bool>(
    alloc: Global,
    bytes: &[u8],
) -> Result<ReadEntries<E>, ListFault>
    ensures ok { IfOk result (λ read.
        (seen_list FENCED bytes.now ≡ flat_map E.spelling read.entries.items) ×
        IsSound E.keeps (seen_list FENCED bytes.now)) }
    ensures fenced { IfOk result (λ read.
        read.fenced ≡ (FENCED && list_any is_fenced (entries bytes.now))) }
    ensures err { IfErr result (IsFirstFaultBy E.keeps (seen_list FENCED bytes.now)) }
{
    E::are_entries();
    let (all, rest) = bytes.as_chunks::<64>();
    if !rest.is_empty() {
        return Err(ListFault::Length);
    }
    let mut list = Vec::with_capacity(alloc, all.len()).ok();
    let mut fenced = false;
    for (index, entry) in all.iter().enumerate() {
        let read = match read_seen::<E, FENCED>(entry) {
            Ok(read) => read,
            Err(fault) => return Err(ListFault::Field(index, fault)),
        };
        if !agree_on_owner(&all[0], entry) {
            return Err(ListFault::MixedPasid(index));
        }
        if let Some(list) = &mut list {
            list.push_reserved(read);
        }
        fenced = has_fence_too::<FENCED>(fenced, entry);
    }
    match list {
        Some(entries) => Ok(ReadEntries { entries, fenced }),
        None => Err(ListFault::Memory),
    }
}

/// What the bytes spell without their fences, and their barriers.
fn read_fenced<E: Entry>(alloc: Global, bytes: &[u8]) -> Result<EntryList<E>, ListFault>
    ensures ok { IfOk result (λ list.
        (unfenced_list bytes.now ≡ flat_map E.spelling list.entries.items) ×
        IsSound E.keeps (unfenced_list bytes.now)) }
    ensures barriers { IfOk result (λ list. list.barriers.items ≡ barriers_of bytes.now) }
    ensures err { IfErr result (IsFirstFaultBy E.keeps (unfenced_list bytes.now)) }
{
    E::are_entries();
    let read = read_seen_entries::<E, true>(alloc, bytes)?;
    let barriers = barriers_of(alloc, bytes, read.fenced)?;
    Ok(EntryList {
        entries: read.entries,
        barriers,
    })
}

/// What the bytes spell as they are, 64 for each entry, with no barrier: an entry with a fence is at fault.
///
/// # Errors
/// The first fault of the bytes, as [`read_entries`] reports that of bytes without fences.
pub fn read_plain<E: Entry>(alloc: Global, bytes: &[u8]) -> Result<EntryList<E>, ListFault>
    ensures found { IfOk result (λ list. bytes.now ≡ flat_map E.spelling list.entries.items) }
    ensures none { IfOk result (λ list. list.barriers.items ≡ []) }
    ensures only { (es : List E) →
        bytes.now ≡ flat_map E.spelling es → AreOfOneOwner E.spelling es →
        MatchResult result (λ list. list.entries.items ≡ es) (λ fault. fault ≡ Memory) }
    ensures fault { IfErr result (IsFirstFaultBy E.keeps bytes.now) }
    ensures refused { (fault : ListFault) →
        fault ≢ Memory → IsFirstFaultBy E.keeps bytes.now fault → result ≡ Err fault }
{
    E::are_entries();
    let read = read_seen_entries::<E, false>(alloc, bytes)?;
    Ok(EntryList {
        entries: read.entries,
        barriers: Vec::new(alloc),
    })
}

/// What the bytes spell without their fences, and their barriers: as a plain list if they spell one, else entry by
/// entry.
fn read_either<E: Entry>(alloc: Global, bytes: &[u8]) -> Result<EntryList<E>, ListFault>
    ensures ok { IfOk result (λ list.
        (unfenced_list bytes.now ≡ flat_map E.spelling list.entries.items) ×
        IsSound E.keeps (unfenced_list bytes.now)) }
    ensures barriers { IfOk result (λ list. list.barriers.items ≡ barriers_of bytes.now) }
    ensures err { IfErr result (IsFirstFaultBy E.keeps (unfenced_list bytes.now)) }
{
    E::are_entries();
    match read_plain(alloc, bytes) {
        Ok(list) => Ok(list),
        Err(ListFault::Memory) => Err(ListFault::Memory),
        Err(ListFault::Length | ListFault::Field(_, _) | ListFault::MixedPasid(_)) => {
            read_fenced(alloc, bytes)
        }
    }
}

/// What the bytes spell, fenced or not, 64 for each entry, and its barriers: the flag 0x0001, fence, of an entry is a
/// barrier before it. A fence on the first entry says nothing.
///
/// # Errors
/// The first fault of the bytes without their fences: [`ListFault::Length`]; else for the least index with a fault its
/// first field fault, or else that its owner isn't the first entry's, whether or not there is memory; then
/// [`ListFault::Memory`] if there is none.
pub fn read_entries<E: Entry>(alloc: Global, bytes: &[u8]) -> Result<EntryList<E>, ListFault>
    ensures found { IfOk result (λ list.
        unfenced_list bytes.now ≡ flat_map E.spelling list.entries.items) }
    ensures barriers { IfOk result (λ list. list.barriers.items ≡ barriers_of bytes.now) }
    ensures only { (es : List E) →
        unfenced_list bytes.now ≡ flat_map E.spelling es → AreOfOneOwner E.spelling es →
        MatchResult result (λ list. list.entries.items ≡ es) (λ fault. fault ≡ Memory) }
    ensures fault { IfErr result (IsFirstFaultBy E.keeps (unfenced_list bytes.now)) }
    ensures refused { (fault : ListFault) →
        fault ≢ Memory → IsFirstFaultBy E.keeps (unfenced_list bytes.now) fault →
        result ≡ Err fault }
{
    E::are_entries();
    read_either(alloc, bytes)
}
